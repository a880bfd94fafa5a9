//! The descent through expressions. Each function reads a tree from the front of the tokens.

ghost use Rattle.std.specs.Prelude.{◌≡◌, ◌-◌, ◌<◌, ◌≤◌, ◌∷◌, length, IfOk, IfErr, pos, neg_ℤ};
ghost use Rattle.stm_terms.specs.ParsedAst.{raw_term_of, bin};
ghost use Rattle.stm_parse.specs.Grammar.{deepest, widest, greatest, grouping_of};
ghost use Rattle.stm_parse.specs.DescentResults.{GivesReading};
ghost use Rattle.stm_parse.specs.Descent.{in_reach, literal, bracketed, short_of, refuse, init, atom_at, tier_at, climb_at, climb_by};

use crate::cursor::{
    Parsed, accept, bad_number, bounds, expect, one_level_deeper, operator, unexpected,
};
use crate::limits::GREATEST_WRITTEN;
use crate::token::{Failure, Lexeme, Mark, TokenKind};
use std::alloc::Global;
use stm_terms::{Op, RawExpr};

// The tier of whole expressions.
const WIDEST: u8 = 5;

#[tactic(auto, unfolding(crate::specs::Grammar::greatest))]
fn in_reach(n: u64) -> bool
    ensures { result ≡ in_reach n }
{
    n < GREATEST_WRITTEN
}

#[tactic(auto, unfolding(crate::specs::Grammar::greatest))]
fn whole_number(n: u64) -> i64
    requires { n ≤ greatest }
    ensures { result ≡ pos n }
{
    n as i64
}

#[tactic(auto, unfolding(crate::specs::Grammar::greatest))]
fn negated(n: u64) -> i64
    requires { n - 1 ≤ greatest }
    ensures { result ≡ neg_ℤ (pos n) }
{
    if n == 0 { 0 } else { -1 - ((n - 1) as i64) }
}

// After the minus of a negative number.
fn literal(at: usize, toks: &[Lexeme]) -> Parsed<'_, RawExpr>
    ensures gives { GivesReading raw_term_of result (literal at toks.now) }
    ensures no_longer { IfOk result (λ r. length r.1.now ≤ length toks.now) }
{
    let Some((first, rest)) = toks.split_first() else {
        return Err(unexpected(toks));
    };
    let TokenKind::Number(n) = first.sym else {
        return Err(unexpected(toks));
    };
    if !in_reach(n.saturating_sub(1)) {
        return Err(bad_number(toks));
    }
    let after = expect(Mark::RParen, rest)?;
    Ok((RawExpr::Int(negated(n), at), after))
}

// An operand of one token.
fn short<'t>(first: &Lexeme, rest: &'t [Lexeme], toks: &'t [Lexeme]) -> Parsed<'t, RawExpr>
    requires { toks.now ≡ first.now ∷ rest.now }
    ensures gives { GivesReading raw_term_of result (short_of first.now.sym first.now rest.now) }
    ensures no_longer { IfOk result (λ r. length r.1.now ≤ length toks.now) }
{
    match first.sym {
        TokenKind::Number(n) => {
            if in_reach(n) {
                Ok((RawExpr::Int(whole_number(n), first.start), rest))
            } else {
                Err(bad_number(toks))
            }
        }
        TokenKind::Name => Ok((RawExpr::Name(first.span()), rest)),
        TokenKind::Other => Err(unexpected(toks)),
        TokenKind::Mark(mark) => match mark {
            Mark::True => Ok((RawExpr::Bool(true, first.start), rest)),
            Mark::False => Ok((RawExpr::Bool(false, first.start), rest)),
            _ => Err(unexpected(toks)),
        },
    }
}

// After "(".
#[cycle(expressions)]
fn bracketed<'t>(alloc: Global, levels: u8, at: usize, toks: &'t [Lexeme]) -> Parsed<'t, RawExpr>
    requires { levels ≤ deepest }
    ensures gives { GivesReading raw_term_of result
        (bracketed (tier_at widest levels) at toks.now) }
    ensures no_longer { IfOk result (λ r. length r.1.now ≤ length toks.now) }
{
    if let Some(rest) = accept(Mark::RParen, toks) {
        return Ok((RawExpr::Unit(at), rest));
    }
    if let Some(rest) = accept(Mark::Minus, toks) {
        return literal(at, rest);
    }
    let (inner, rest) = tier(alloc, levels, WIDEST, toks)?;
    let after = expect(Mark::RParen, rest)?;
    Ok((inner, after))
}

/// A literal, a name, or an expression in brackets.
#[cycle(expressions)]
#[tactic(auto, unfolding(crate::specs::Descent::atom_at))]
pub fn atom<'t>(alloc: Global, levels: u8, toks: &'t [Lexeme]) -> Parsed<'t, RawExpr>
    requires { levels ≤ deepest }
    ensures gives { GivesReading raw_term_of result (atom_at levels toks.now) }
    ensures no_longer { IfOk result (λ r. length r.1.now ≤ length toks.now) }
{
    let Some((first, rest)) = toks.split_first() else {
        return Err(unexpected(toks));
    };
    if !first.sym.is(Mark::LParen) {
        return short(first, rest, toks);
    }
    let inner = one_level_deeper(levels, toks)?;
    bracketed(alloc, inner, first.start, rest)
}

// An expression whose operators outside of brackets are of tiers below this one.
#[cycle(expressions)]
fn tier<'t>(alloc: Global, levels: u8, width: u8, toks: &'t [Lexeme]) -> Parsed<'t, RawExpr>
    requires low { levels ≤ deepest }
    requires width { width ≤ widest }
    ensures gives { GivesReading raw_term_of result (tier_at width levels toks.now) }
    ensures no_longer { IfOk result (λ r. length r.1.now ≤ length toks.now) }
{
    let (first, rest) = atom(alloc, levels, toks)?;
    climb(alloc, levels, 0, width, first, rest)
}

// An operator with its operands.
fn joined(alloc: Global, op: Op, left: RawExpr, right: RawExpr) -> Result<RawExpr, Failure>
    ensures value { IfOk result
        (λ e. raw_term_of e ≡ bin op (raw_term_of left) (raw_term_of right)) }
    ensures refused { IfErr result (λ e. e ≡ Failure.Memory) }
{
    let left = Box::new(alloc, left)?;
    let right = Box::new(alloc, right)?;
    Ok(RawExpr::Bin(op, left, right))
}

// What may follow an operand of tiers below `from`: operators of tiers from there on and below `width`.
#[cycle(expressions)]
fn climb<'t>(
    alloc: Global,
    levels: u8,
    from: u8,
    width: u8,
    left: RawExpr,
    toks: &'t [Lexeme],
) -> Parsed<'t, RawExpr>
    requires low { levels ≤ deepest }
    requires width { width ≤ widest }
    ensures gives { GivesReading raw_term_of result
        (climb_at from width levels (raw_term_of left) toks.now) }
    ensures no_longer { IfOk result (λ r. length r.1.now ≤ length toks.now) }
{
    let Some((own, op, rest)) = operator(toks) else {
        return Ok((left, toks));
    };
    if own < from || width <= own {
        return Ok((left, toks));
    }
    climb_past(alloc, levels, own, op, width, left, rest)
}

// After an operator of a tier below `width`: its right side, and what may follow both.
//
// It is apart from `climb`, which mostly finds no operator, since it has large temporaries. They are few, since an operand of a thousand
// operators is read in as many calls within each other.
#[cycle(expressions)]
#[inline(never)]
fn climb_past<'t>(
    alloc: Global,
    levels: u8,
    own: u8,
    op: Op,
    width: u8,
    left: RawExpr,
    toks: &'t [Lexeme],
) -> Parsed<'t, RawExpr>
    requires low { levels ≤ deepest }
    requires width { width ≤ widest }
    requires below { own < width }
    ensures gives { GivesReading raw_term_of result
        (climb_by (grouping_of own) own width levels (raw_term_of left) op toks.now) }
    ensures no_longer { IfOk result (λ r. length r.1.now ≤ length toks.now) }
{
    let (inner, from) = bounds(own);
    let (right, rest) = tier(alloc, levels, inner, toks)?;
    let both = joined(alloc, op, left, right)?;
    climb(alloc, levels, from, width, both, rest)
}

/// The expression at the front of the tokens. `levels` is how many levels of depth are left.
pub fn expression<'t>(alloc: Global, levels: u8, toks: &'t [Lexeme]) -> Parsed<'t, RawExpr>
    requires { levels ≤ deepest }
    ensures gives { GivesReading raw_term_of result (tier_at widest levels toks.now) }
    ensures no_longer { IfOk result (λ r. length r.1.now ≤ length toks.now) }
{
    tier(alloc, levels, WIDEST, toks)
}

// After "(" of what a declared variable holds at first.
fn bracketed_init(at: usize, toks: &[Lexeme]) -> Parsed<'_, RawExpr>
    ensures gives { GivesReading raw_term_of result (bracketed refuse at toks.now) }
{
    if let Some(rest) = accept(Mark::RParen, toks) {
        return Ok((RawExpr::Unit(at), rest));
    }
    if let Some(rest) = accept(Mark::Minus, toks) {
        return literal(at, rest);
    }
    Err(unexpected(toks))
}

/// What a declared variable holds at first: a literal or a name.
pub fn init(toks: &[Lexeme]) -> Parsed<'_, RawExpr>
    ensures gives { GivesReading raw_term_of result (init toks.now) }
{
    let Some((first, rest)) = toks.split_first() else {
        return Err(unexpected(toks));
    };
    if !first.sym.is(Mark::LParen) {
        return short(first, rest, toks);
    }
    bracketed_init(first.start, rest)
}
