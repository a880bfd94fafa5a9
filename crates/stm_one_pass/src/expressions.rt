//! The pass through expressions.

ghost use Rattle.std.specs.Prelude.{◌≡◌, ℕ, ◌<◌, ◌≤◌, length, List, IfSome, Ok, true};
ghost use Rattle.stm_terms.specs.declared.kinds.Ty.{Ty};
ghost use Rattle.stm_terms.specs.Ast.{term_of, bin};
ghost use Rattle.stm_terms.specs.ParsedAst as raw;
ghost use Rattle.stm_terms.specs.Typing.{same_ty};
ghost use Rattle.stm_parse.specs.Grammar.{deepest, widest, grouping_of, span_of};
ghost use Rattle.stm_parse.specs.Descent.{short_of, bracketed, atom_at, tier_at, climb_at, climb_by};
ghost use Rattle.stm_check.specs.CheckFunction.{wanted, given, as_wanted, wanted_right};
ghost use Rattle.stm_check.specs.CheckContext.{expr_found, recorded_expr};
ghost use Rattle.stm_one_pass.specs.OnePass.{CanRead, ReadsExpr};

use crate::names::text_of;
use crate::numbers::{negative, whole_number};
use std::alloc::Global;
use stm_check::checker::Checker;
use stm_check::scope::find_local;
use stm_check::types::{BOOL, INT, UNIT, as_wanted, given, reference_to, same, wanted};
use stm_check::uses::record_use;
use stm_parse::cursor::{accept, bounds, expect, operator};
use stm_parse::token::{Lexeme, Mark, TokenKind};
use stm_terms::{Expr, Op, Ty, Value};

/// An expression with its type, and the tokens after it.
pub(crate) type Part<'t> = Option<(Expr, Ty, &'t [Lexeme])>;

// The tier of whole expressions.
const WIDEST: u8 = 5;

// A name: the innermost local, else a declared variable, which is noted.
#[tactic(auto, using(stm_check::proofs::CheckedTyped::kind_found))]
fn named(checker: &Checker, uses: &mut Vec<(u32, Ty)>, token: &Lexeme) -> Option<(Expr, Ty)>
    requires { CanRead checker.now }
    ensures found { IfSome result (λ r.
        expr_found checker.now (raw.name (span_of token.now)) ≡ Ok (term_of r.0, r.1)) }
    ensures uses { IfSome result (λ r.
        uses.new.items ≡ recorded_expr checker.now (term_of r.0) uses.old.items) }
{
    let Some(name) = text_of(checker.text, token) else {
        return None;
    };
    if let Some((number, kind)) = find_local(checker.locals, name) {
        return Some((Expr::Local(number), kind));
    }
    let Some((id, kind)) = checker.known.find(name) else {
        return None;
    };
    let Ok(()) = record_use(uses, id, kind) else {
        return None;
    };
    Some((Expr::Global(id), reference_to(kind)))
}

// An operand of one token.
fn short<'t>(
    checker: &Checker,
    uses: &mut Vec<(u32, Ty)>,
    first: &Lexeme,
    rest: &'t [Lexeme],
) -> Part<'t>
    requires { CanRead checker.now }
    ensures reads { IfSome result (λ r.
        ReadsExpr checker.now (short_of first.now.sym first.now rest.now)
        (term_of r.0) r.1 r.2.now uses.old.items uses.new.items) }
    ensures no_longer { IfSome result (λ r. length r.2.now ≤ length rest.now) }
{
    match first.sym {
        TokenKind::Name => {
            let Some((name, kind)) = named(checker, uses, first) else {
                return None;
            };
            Some((name, kind, rest))
        }
        TokenKind::Number(n) => {
            let Some(number) = whole_number(n) else {
                return None;
            };
            Some((Expr::Lit(Value::Int(number)), INT, rest))
        }
        TokenKind::Other => None,
        TokenKind::Mark(mark) => match mark {
            Mark::True => Some((Expr::Lit(Value::Bool(true)), BOOL, rest)),
            Mark::False => Some((Expr::Lit(Value::Bool(false)), BOOL, rest)),
            _ => None,
        },
    }
}

// After "(".
#[cycle(expressions)]
fn bracketed<'t>(
    checker: &Checker,
    uses: &mut Vec<(u32, Ty)>,
    levels: u8,
    at: usize,
    toks: &'t [Lexeme],
) -> Part<'t>
    requires can { CanRead checker.now }
    requires low { levels ≤ deepest }
    ensures reads { IfSome result (λ r.
        ReadsExpr checker.now (bracketed (tier_at widest levels) at toks.now)
        (term_of r.0) r.1 r.2.now uses.old.items uses.new.items) }
    ensures no_longer { IfSome result (λ r. length r.2.now ≤ length toks.now) }
{
    if let Some(rest) = accept(Mark::RParen, toks) {
        return Some((Expr::Lit(Value::Unit), UNIT, rest));
    }
    if let Some(rest) = accept(Mark::Minus, toks) {
        let Some((number, rest)) = negative(at, rest) else {
            return None;
        };
        return Some((Expr::Lit(Value::Int(number)), INT, rest));
    }
    let Some((inner, kind, rest)) = tier(checker, uses, levels, WIDEST, toks) else {
        return None;
    };
    let Ok(after) = expect(Mark::RParen, rest) else {
        return None;
    };
    Some((inner, kind, after))
}

/// A literal, a name, or an expression in brackets.
#[cycle(expressions)]
pub(crate) fn atom<'t>(
    checker: &Checker,
    uses: &mut Vec<(u32, Ty)>,
    levels: u8,
    toks: &'t [Lexeme],
) -> Part<'t>
    requires can { CanRead checker.now }
    requires low { levels ≤ deepest }
    ensures reads { IfSome result (λ r. ReadsExpr checker.now (atom_at levels toks.now)
        (term_of r.0) r.1 r.2.now uses.old.items uses.new.items) }
    ensures no_longer { IfSome result (λ r. length r.2.now ≤ length toks.now) }
{
    let Some((first, rest)) = toks.split_first() else {
        return None;
    };
    if !first.sym.is(Mark::LParen) {
        return short(checker, uses, first, rest);
    }
    if levels == 0 {
        return None;
    }
    bracketed(checker, uses, levels - 1, first.start, rest)
}

// An expression whose operators outside of brackets are of tiers below this one.
#[cycle(expressions)]
fn tier<'t>(
    checker: &Checker,
    uses: &mut Vec<(u32, Ty)>,
    levels: u8,
    width: u8,
    toks: &'t [Lexeme],
) -> Part<'t>
    requires can { CanRead checker.now }
    requires low { levels ≤ deepest }
    requires width { width ≤ widest }
    ensures reads { IfSome result (λ r. ReadsExpr checker.now (tier_at width levels toks.now)
        (term_of r.0) r.1 r.2.now uses.old.items uses.new.items) }
    ensures no_longer { IfSome result (λ r. length r.2.now ≤ length toks.now) }
{
    let Some((first, kind, rest)) = atom(checker, uses, levels, toks) else {
        return None;
    };
    climb(checker, uses, levels, 0, width, first, kind, rest)
}

// The type that the right operand must have.
fn wanted_right(op: Op, first: Ty) -> Ty
    ensures { result ≡ wanted_right (wanted op) first }
{
    match wanted(op) {
        Some(kind) => kind,
        None => first,
    }
}

// An operator with its operands, if their types are those that it wants.
fn joined(
    alloc: Global,
    op: Op,
    left: Expr,
    first: Ty,
    right: Expr,
    second: Ty,
) -> Option<(Expr, Ty)>
    ensures tree { IfSome result (λ r. term_of r.0 ≡ bin op (term_of left) (term_of right)) }
    ensures kind { IfSome result (λ r. r.1 ≡ given op) }
    ensures left { IfSome result (λ r. as_wanted (wanted op) first ≡ true) }
    ensures right { IfSome result (λ r. same_ty second (wanted_right (wanted op) first) ≡ true) }
{
    if !as_wanted(wanted(op), first) || !same(second, wanted_right(op, first)) {
        return None;
    }
    let Ok(left) = Box::new(alloc, left) else {
        return None;
    };
    let Ok(right) = Box::new(alloc, right) else {
        return None;
    };
    Some((Expr::Bin(op, left, right), given(op)))
}

// What may follow an operand of tiers below `from`: operators of tiers from there on and below `width`.
#[cycle(expressions)]
fn climb<'t>(
    checker: &Checker,
    uses: &mut Vec<(u32, Ty)>,
    levels: u8,
    from: u8,
    width: u8,
    left: Expr,
    kind: Ty,
    toks: &'t [Lexeme],
) -> Part<'t>
    requires can { CanRead checker.now }
    requires low { levels ≤ deepest }
    requires width { width ≤ widest }
    ensures reads { (e : raw.RawTerm) → (before : List (ℕ × Ty))
        → expr_found checker.now e ≡ Ok (term_of left, kind)
        → uses.old.items ≡ recorded_expr checker.now (term_of left) before
        → IfSome result (λ r. ReadsExpr checker.now (climb_at from width levels e toks.now)
        (term_of r.0) r.1 r.2.now before uses.new.items) }
    ensures no_longer { IfSome result (λ r. length r.2.now ≤ length toks.now) }
{
    let Some((own, op, rest)) = operator(toks) else {
        return Some((left, kind, toks));
    };
    if own < from || width <= own {
        return Some((left, kind, toks));
    }
    climb_past(checker, uses, levels, own, op, width, left, kind, rest)
}

// After an operator of a tier below `width`: its right side, and what may follow both. An operand of a thousand operators is read in as
// many calls within each other, so this has few temporaries.
#[cycle(expressions)]
#[inline(never)]
fn climb_past<'t>(
    checker: &Checker,
    uses: &mut Vec<(u32, Ty)>,
    levels: u8,
    own: u8,
    op: Op,
    width: u8,
    left: Expr,
    kind: Ty,
    toks: &'t [Lexeme],
) -> Part<'t>
    requires can { CanRead checker.now }
    requires low { levels ≤ deepest }
    requires width { width ≤ widest }
    requires below { own < width }
    ensures reads { (e : raw.RawTerm) → (before : List (ℕ × Ty))
        → expr_found checker.now e ≡ Ok (term_of left, kind)
        → uses.old.items ≡ recorded_expr checker.now (term_of left) before
        → IfSome result (λ r. ReadsExpr checker.now
        (climb_by (grouping_of own) own width levels e op toks.now)
        (term_of r.0) r.1 r.2.now before uses.new.items) }
    ensures no_longer { IfSome result (λ r. length r.2.now ≤ length toks.now) }
{
    let (inner, from) = bounds(own);
    let Some((right, other, rest)) = tier(checker, uses, levels, inner, toks) else {
        return None;
    };
    let Some((both, given)) = joined(checker.alloc, op, left, kind, right, other) else {
        return None;
    };
    climb(checker, uses, levels, from, width, both, given, rest)
}

/// A whole expression.
pub(crate) fn expression<'t>(
    checker: &Checker,
    uses: &mut Vec<(u32, Ty)>,
    levels: u8,
    toks: &'t [Lexeme],
) -> Part<'t>
    requires can { CanRead checker.now }
    requires low { levels ≤ deepest }
    ensures reads { IfSome result (λ r. ReadsExpr checker.now (tier_at widest levels toks.now)
        (term_of r.0) r.1 r.2.now uses.old.items uses.new.items) }
    ensures no_longer { IfSome result (λ r. length r.2.now ≤ length toks.now) }
{
    tier(checker, uses, levels, WIDEST, toks)
}
