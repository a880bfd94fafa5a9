//! What the descent is made of: one token of lookahead, and what is asked of the next token.

ghost use Rattle.std.specs.Prelude.{◌≡◌, ◌<◌, ◌≤◌, length, option_map, IfOk, IfSome};
ghost use Rattle.std.specs.Option.{option_copied};
ghost use Rattle.stm_parse.specs.Grammar.{operator_of, operator_mark, grouping_of, widest};
ghost use Rattle.stm_parse.specs.Bounds.{right_width, next_from};
ghost use Rattle.stm_parse.specs.DescentResults.{GivesReading, GivesRest, IsOneDeeper};
ghost use Rattle.stm_parse.specs.Descent.{accept, expect, expect_name, is_name_kind, op_ahead, unexpected, too_deep, bad_number};

use crate::token::{ErrorKind, Failure, Fault, Lexeme, Mark, TokenKind};
use stm_terms::Op;

/// What was read from the front of the tokens, and the tokens after it.
pub type Parsed<'t, T> = Result<(T, &'t [Lexeme]), Failure>;

/// How the operators of a tier group.
#[derive(Clone, Copy)]
pub enum Grouping {
    ToLeft,
    NotChained,
    ToRight,
}

/// The failure for a next token with which no text goes on, or for a text that ends too soon.
pub fn unexpected(toks: &[Lexeme]) -> Failure
    ensures { result ≡ Failure.At (unexpected toks.now) }
{
    Failure::At(Fault {
        cause: ErrorKind::Unexpected,
        left: toks.len(),
    })
}

/// The failure for a next token that is past a limit of depth.
pub fn too_deep(toks: &[Lexeme]) -> Failure
    ensures { result ≡ Failure.At (too_deep toks.now) }
{
    Failure::At(Fault {
        cause: ErrorKind::TooDeep,
        left: toks.len(),
    })
}

/// The failure for a next token that is a number and no `Int`.
pub fn bad_number(toks: &[Lexeme]) -> Failure
    ensures { result ≡ Failure.At (bad_number toks.now) }
{
    Failure::At(Fault {
        cause: ErrorKind::BadNumber,
        left: toks.len(),
    })
}

/// How many levels are left one level deeper; a failure if none is left.
pub fn one_level_deeper(levels: u8, toks: &[Lexeme]) -> Result<u8, Failure>
    ensures { IsOneDeeper levels toks.now result }
{
    if levels == 0 {
        Err(too_deep(toks))
    } else {
        Ok(levels - 1)
    }
}

/// The tokens after this mark, if it is the next.
pub fn accept(mark: Mark, toks: &[Lexeme]) -> Option<&[Lexeme]>
    ensures value { accept mark toks.now ≡ option_copied result }
    ensures shorter { IfSome result (λ rest. length rest.now < length toks.now) }
{
    match toks.split_first() {
        Some((first, rest)) if first.sym.is(mark) => Some(rest),
        _ => None,
    }
}

/// The tokens after this mark, which must be the next token; otherwise it is unexpected.
pub fn expect(mark: Mark, toks: &[Lexeme]) -> Result<&[Lexeme], Failure>
    ensures gives { GivesRest result (expect mark toks.now) }
    ensures no_longer { IfOk result (λ rest. length rest.now ≤ length toks.now) }
{
    match toks.split_first() {
        Some((first, rest)) if first.sym.is(mark) => Ok(rest),
        _ => Err(unexpected(toks)),
    }
}

/// Whether a token is a name.
pub fn is_name_kind(sym: TokenKind) -> bool
    ensures { result ≡ is_name_kind sym }
{
    match sym {
        TokenKind::Name => true,
        TokenKind::Mark(_) => false,
        TokenKind::Number(_) => false,
        TokenKind::Other => false,
    }
}

/// The next token, which must be a name; otherwise it is unexpected.
pub fn expect_name(toks: &[Lexeme]) -> Parsed<'_, Lexeme>
    ensures gives { GivesReading (λ x. x) result (expect_name toks.now) }
    ensures no_longer { IfOk result (λ r. length r.1.now ≤ length toks.now) }
{
    match toks.split_first() {
        Some((first, rest)) if is_name_kind(first.sym) => Ok((*first, rest)),
        _ => Err(unexpected(toks)),
    }
}

fn operator_mark(mark: Mark) -> Option<(u8, Op)>
    ensures { result ≡ operator_mark mark }
{
    match mark {
        Mark::Star => Some((0, Op::Mul)),
        Mark::Plus => Some((1, Op::Add)),
        Mark::Minus => Some((1, Op::Sub)),
        Mark::EqEq => Some((2, Op::Eq)),
        Mark::Lt => Some((2, Op::Lt)),
        Mark::Le => Some((2, Op::Le)),
        Mark::AndAnd => Some((3, Op::And)),
        Mark::OrOr => Some((4, Op::Or)),
        _ => None,
    }
}

fn operator_of(sym: TokenKind) -> Option<(u8, Op)>
    ensures { result ≡ operator_of sym }
{
    match sym {
        TokenKind::Mark(mark) => operator_mark(mark),
        TokenKind::Number(_) => None,
        TokenKind::Name => None,
        TokenKind::Other => None,
    }
}

/// The next operator with its tier, and the tokens after it.
pub fn operator(toks: &[Lexeme]) -> Option<(u8, Op, &[Lexeme])>
    ensures value { op_ahead toks.now ≡ option_map (λ r. (r.0, r.1, r.2.now)) result }
    ensures shorter { IfSome result (λ r. length r.2.now < length toks.now) }
{
    let Some((first, rest)) = toks.split_first() else {
        return None;
    };
    let Some((tier, op)) = operator_of(first.sym) else {
        return None;
    };
    Some((tier, op, rest))
}

// How the operators of a tier group.
fn groups(tier: u8) -> Grouping
    ensures { result ≡ grouping_of tier }
{
    match tier {
        0 => Grouping::ToLeft,
        1 => Grouping::ToLeft,
        2 => Grouping::NotChained,
        _ => Grouping::ToRight,
    }
}

/// Below which tier the operators are that the right operand of an operator of this tier has outside of brackets, and from which tier on
/// more may follow that operand.
pub fn bounds(tier: u8) -> (u8, u8)
    requires { tier < widest }
    ensures right { result.0 ≡ right_width (grouping_of tier) tier }
    ensures next { result.1 ≡ next_from (grouping_of tier) tier }
    ensures few { result.0 ≤ widest }
{
    match groups(tier) {
        Grouping::ToLeft => (tier, tier),
        Grouping::NotChained => (tier, tier + 1),
        Grouping::ToRight => (tier + 1, tier + 1),
    }
}
