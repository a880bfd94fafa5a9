//! The descent through types and declarations.

ghost use Rattle.std.specs.Prelude.{◌+◌, ◌-◌, ◌<◌, ◌≤◌, length, IfOk};
ghost use Rattle.stm_terms.specs.Limits.{most_refs};
ghost use Rattle.stm_parse.specs.Grammar.{deepest};
ghost use Rattle.stm_parse.specs.Declarations.{declaration_tree_of};
ghost use Rattle.stm_parse.specs.DescentResults.{GivesReading};
ghost use Rattle.stm_parse.specs.Descent.{type_at, bare_at, bracketed_type, declaration_reader};

use crate::cursor::{Parsed, accept, expect, expect_name, one_level_deeper, too_deep, unexpected};
use crate::expression::init;
use crate::limits::DEEPEST;
use crate::token::{Failure, Lexeme, Mark, TokenKind};
use stm_terms::{Base, RawExpr, Span, Ty};

// A type with the given number of `TVar` around it.
#[cycle(types)]
#[tactic(auto, unfolding(crate::specs::Descent::type_at))]
pub(crate) fn type_within(levels: u8, refs: u8, toks: &[Lexeme]) -> Parsed<'_, Ty>
    requires low { levels ≤ deepest }
    requires few { refs ≤ most_refs }
    ensures gives { GivesReading (λ t. t) result (type_at levels refs toks.now) }
    ensures no_longer { IfOk result (λ r. length r.1.now ≤ length toks.now) }
    ensures few { IfOk result (λ r. r.0.refs + refs ≤ most_refs) }
{
    let Some(rest) = accept(Mark::TVar, toks) else {
        return bare_type(levels, refs, toks);
    };
    if refs >= Ty::MOST_REFS {
        return Err(too_deep(toks));
    }
    let (inner, rest) = bare_type(levels, refs + 1, rest)?;
    let outer = Ty {
        base: inner.base,
        refs: inner.refs + 1,
    };
    Ok((outer, rest))
}

// A type that needs no brackets after `TVar`.
#[cycle(types)]
#[tactic(auto, using(crate::proofs::TypeLevels::inside_type_none, crate::proofs::TypeLevels::inside_type_some), unfolding(crate::specs::Descent::bare_at))]
fn bare_type(levels: u8, refs: u8, toks: &[Lexeme]) -> Parsed<'_, Ty>
    requires low { levels ≤ deepest }
    requires few { refs ≤ most_refs }
    ensures gives { GivesReading (λ t. t) result (bare_at levels refs toks.now) }
    ensures no_longer { IfOk result (λ r. length r.1.now ≤ length toks.now) }
    ensures few { IfOk result (λ r. r.0.refs + refs ≤ most_refs) }
{
    let Some((first, rest)) = toks.split_first() else {
        return Err(unexpected(toks));
    };
    let TokenKind::Mark(word) = first.sym else {
        return Err(unexpected(toks));
    };
    match word {
        Mark::Int => Ok((
            Ty {
                base: Base::Int,
                refs: 0,
            },
            rest,
        )),
        Mark::Bool => Ok((
            Ty {
                base: Base::Bool,
                refs: 0,
            },
            rest,
        )),
        Mark::LParen => {
            let inner = one_level_deeper(levels, toks)?;
            bracketed_type(inner, refs, rest)
        }
        _ => Err(unexpected(toks)),
    }
}

// After "(" in a type.
#[cycle(types)]
fn bracketed_type(levels: u8, refs: u8, toks: &[Lexeme]) -> Parsed<'_, Ty>
    requires low { levels ≤ deepest }
    requires few { refs ≤ most_refs }
    ensures gives { GivesReading (λ t. t) result (bracketed_type (type_at levels refs) toks.now) }
    ensures no_longer { IfOk result (λ r. length r.1.now ≤ length toks.now) }
    ensures few { IfOk result (λ r. r.0.refs + refs ≤ most_refs) }
{
    if let Some(rest) = accept(Mark::RParen, toks) {
        return Ok((
            Ty {
                base: Base::Unit,
                refs: 0,
            },
            rest,
        ));
    }
    let (inner, rest) = type_within(levels, refs, toks)?;
    let rest = expect(Mark::RParen, rest)?;
    Ok((inner, rest))
}

/// A declared name by its span, its type, and what it holds at first.
#[derive(Drop)]
pub struct RawDeclaration {
    pub name: Span,
    pub ty: Ty,
    pub init: RawExpr,
}

/// The declaration at the front of the tokens: NAME ":" type "=" init.
pub fn declaration(toks: &[Lexeme]) -> Parsed<'_, RawDeclaration>
    ensures gives { GivesReading declaration_tree_of result (declaration_reader toks.now) }
    ensures few { IfOk result (λ r. r.0.ty.refs ≤ most_refs) }
{
    let (name, rest) = expect_name(toks)?;
    let rest = expect(Mark::Colon, rest)?;
    let (ty, rest) = type_within(DEEPEST, 0, rest)?;
    let rest = expect(Mark::Equals, rest)?;
    let (init, rest) = init(rest)?;
    let declared = RawDeclaration {
        name: name.span(),
        ty,
        init,
    };
    Ok((declared, rest))
}
