//! The descent through actions. An action comes with the place of its first word.
//!
//! An action is boxed as soon as it is whole, so no memory is asked for while its parts wait to be put together.

ghost use Rattle.std.specs.Prelude.{◌-◌, ◌<◌, ◌≤◌, length, IfOk, Ok};
ghost use Rattle.stm_terms.specs.ParsedAst.{raw_act_of, return};
ghost use Rattle.stm_parse.specs.Grammar.{deepest, widest};
ghost use Rattle.stm_parse.specs.declared.token.Lexeme.{Lexeme};
ghost use Rattle.stm_parse.specs.DescentResults.{GivesReading, boxed_tree, placed_tree};
ghost use Rattle.stm_parse.specs.Descent.{atom_at, tier_at, action_at, paren_at, body_at, closed, block, if_of, or_else_of, catch_of, bound, let_bound, sequence, two_operands, flat_action};

use crate::cursor::{
    Parsed, accept, expect, expect_name, is_name_kind, one_level_deeper, unexpected,
};
use crate::expression::{atom, expression};
use crate::token::{Failure, Lexeme, Mark, TokenKind};
use std::alloc::Global;
use stm_terms::{RawAction, Span};

// An action that is whole.
fn whole<'t>(alloc: Global, action: RawAction, toks: &'t [Lexeme]) -> Parsed<'t, Box<RawAction>>
    ensures gives { GivesReading boxed_tree result (Ok (raw_act_of action, toks.now)) }
    ensures no_longer { IfOk result (λ r. length r.1.now ≤ length toks.now) }
{
    let action = Box::new(alloc, action)?;
    Ok((action, toks))
}

// An action that is whole, with its place.
fn placed<'t>(
    alloc: Global,
    action: RawAction,
    place: usize,
    toks: &'t [Lexeme],
) -> Parsed<'t, (Box<RawAction>, usize)>
    ensures gives { GivesReading placed_tree result (Ok ((raw_act_of action, place), toks.now)) }
    ensures no_longer { IfOk result (λ r. length r.1.now ≤ length toks.now) }
{
    let action = Box::new(alloc, action)?;
    Ok(((action, place), toks))
}

/// The action at the front of the tokens, with the place where it begins, in bytes from 0. `levels` is how many levels of depth are left.
pub fn action<'t>(alloc: Global, levels: u8, toks: &'t [Lexeme]) -> Parsed<'t, (RawAction, usize)>
    requires { levels ≤ deepest }
    ensures gives { GivesReading (λ a. (raw_act_of a.0, a.1)) result (action_at levels toks.now) }
    ensures no_longer { IfOk result (λ r. length r.1.now ≤ length toks.now) }
{
    let ((action, place), rest) = boxed_action(alloc, levels, toks)?;
    Ok(((Box::into_inner(action), place), rest))
}

// An action that opens no level, by its first word.
fn flat_action<'t>(
    alloc: Global,
    levels: u8,
    word: Mark,
    toks: &'t [Lexeme],
) -> Parsed<'t, (Box<RawAction>, usize)>
    requires { levels ≤ deepest }
    ensures gives { GivesReading placed_tree result (flat_action (atom_at levels) word toks.now) }
    ensures no_longer { IfOk result (λ r. length r.1.now ≤ length toks.now) }
{
    let Some((first, rest)) = toks.split_first() else {
        return Err(unexpected(toks));
    };
    match word {
        Mark::Return => {
            let (value, rest) = atom(alloc, levels, rest)?;
            placed(alloc, RawAction::Return(value), first.start, rest)
        }
        Mark::ReadTVar => {
            let (variable, rest) = atom(alloc, levels, rest)?;
            placed(alloc, RawAction::Read(variable), first.start, rest)
        }
        Mark::NewTVar => {
            let (value, rest) = atom(alloc, levels, rest)?;
            placed(alloc, RawAction::Make(value), first.start, rest)
        }
        Mark::Throw => {
            let (number, rest) = atom(alloc, levels, rest)?;
            placed(alloc, RawAction::Throw(number), first.start, rest)
        }
        Mark::WriteTVar => write(alloc, levels, first.start, rest),
        Mark::Retry => placed(alloc, RawAction::Retry, first.start, rest),
        _ => Err(unexpected(toks)),
    }
}

// An action.
#[cycle(actions)]
#[tactic(auto, unfolding(crate::specs::Descent::action_at))]
fn boxed_action<'t>(
    alloc: Global,
    levels: u8,
    toks: &'t [Lexeme],
) -> Parsed<'t, (Box<RawAction>, usize)>
    requires { levels ≤ deepest }
    ensures gives { GivesReading placed_tree result (action_at levels toks.now) }
    ensures no_longer { IfOk result (λ r. length r.1.now ≤ length toks.now) }
{
    let Some((first, rest)) = toks.split_first() else {
        return Err(unexpected(toks));
    };
    let TokenKind::Mark(word) = first.sym else {
        return Err(unexpected(toks));
    };
    match word {
        Mark::Do => {
            let inner = one_level_deeper(levels, toks)?;
            block(alloc, inner, first.start, rest)
        }
        Mark::If => {
            let inner = one_level_deeper(levels, toks)?;
            if_then_else(alloc, inner, first.start, rest)
        }
        Mark::OrElse => {
            let inner = one_level_deeper(levels, toks)?;
            or_else(alloc, inner, first.start, rest)
        }
        Mark::Catch => {
            let inner = one_level_deeper(levels, toks)?;
            catch(alloc, inner, first.start, rest)
        }
        Mark::LParen => {
            let inner = one_level_deeper(levels, toks)?;
            closed(alloc, inner, rest)
        }
        _ => flat_action(alloc, levels, word, toks),
    }
}

// After writeTVar.
fn write<'t>(
    alloc: Global,
    levels: u8,
    place: usize,
    toks: &'t [Lexeme],
) -> Parsed<'t, (Box<RawAction>, usize)>
    requires { levels ≤ deepest }
    ensures gives { GivesReading placed_tree result (two_operands (atom_at levels) place toks.now) }
    ensures no_longer { IfOk result (λ r. length r.1.now ≤ length toks.now) }
{
    let (variable, rest) = atom(alloc, levels, toks)?;
    let (value, rest) = atom(alloc, levels, rest)?;
    placed(alloc, RawAction::Write(variable, value), place, rest)
}

// After "(".
#[cycle(actions)]
fn closed<'t>(alloc: Global, levels: u8, toks: &'t [Lexeme]) -> Parsed<'t, (Box<RawAction>, usize)>
    requires { levels ≤ deepest }
    ensures gives { GivesReading placed_tree result (closed (action_at levels) toks.now) }
    ensures no_longer { IfOk result (λ r. length r.1.now ≤ length toks.now) }
{
    let (inner, rest) = boxed_action(alloc, levels, toks)?;
    let rest = expect(Mark::RParen, rest)?;
    Ok((inner, rest))
}

// "(" action ")"
#[cycle(actions)]
#[tactic(auto, unfolding(crate::specs::Descent::paren_at))]
fn paren<'t>(alloc: Global, levels: u8, toks: &'t [Lexeme]) -> Parsed<'t, (Box<RawAction>, usize)>
    requires { levels ≤ deepest }
    ensures gives { GivesReading placed_tree result (paren_at levels toks.now) }
    ensures no_longer { IfOk result (λ r. length r.1.now ≤ length toks.now) }
{
    let Some((first, rest)) = toks.split_first() else {
        return Err(unexpected(toks));
    };
    if !first.sym.is(Mark::LParen) {
        return Err(unexpected(toks));
    }
    let inner = one_level_deeper(levels, toks)?;
    closed(alloc, inner, rest)
}

// After orElse.
#[cycle(actions)]
fn or_else<'t>(
    alloc: Global,
    levels: u8,
    place: usize,
    toks: &'t [Lexeme],
) -> Parsed<'t, (Box<RawAction>, usize)>
    requires { levels ≤ deepest }
    ensures gives { GivesReading placed_tree result (or_else_of (paren_at levels) place toks.now) }
    ensures no_longer { IfOk result (λ r. length r.1.now ≤ length toks.now) }
{
    let ((first, _), rest) = paren(alloc, levels, toks)?;
    let ((second, at), rest) = paren(alloc, levels, rest)?;
    placed(alloc, RawAction::OrElse { first, at, second }, place, rest)
}

// After catch.
#[cycle(actions)]
fn catch<'t>(
    alloc: Global,
    levels: u8,
    place: usize,
    toks: &'t [Lexeme],
) -> Parsed<'t, (Box<RawAction>, usize)>
    requires { levels ≤ deepest }
    ensures gives { GivesReading placed_tree result (catch_of (paren_at levels) place toks.now) }
    ensures no_longer { IfOk result (λ r. length r.1.now ≤ length toks.now) }
{
    let ((action, _), rest) = paren(alloc, levels, toks)?;
    let (name, rest) = expect_name(rest)?;
    let ((handler, at), rest) = paren(alloc, levels, rest)?;
    let name = name.span();
    let caught = RawAction::Catch {
        action,
        name,
        at,
        handler,
    };
    placed(alloc, caught, place, rest)
}

// After if.
#[cycle(actions)]
fn if_then_else<'t>(
    alloc: Global,
    levels: u8,
    place: usize,
    toks: &'t [Lexeme],
) -> Parsed<'t, (Box<RawAction>, usize)>
    requires { levels ≤ deepest }
    ensures gives { GivesReading placed_tree result
        (if_of (tier_at widest levels) (action_at levels) place toks.now) }
    ensures no_longer { IfOk result (λ r. length r.1.now ≤ length toks.now) }
{
    let (condition, rest) = expression(alloc, levels, toks)?;
    let rest = expect(Mark::Then, rest)?;
    let ((first, _), rest) = boxed_action(alloc, levels, rest)?;
    let rest = expect(Mark::Else, rest)?;
    let ((second, at), rest) = boxed_action(alloc, levels, rest)?;
    let choice = RawAction::If {
        condition,
        first,
        at,
        second,
    };
    placed(alloc, choice, place, rest)
}

// After "do".
#[cycle(actions)]
fn block<'t>(
    alloc: Global,
    levels: u8,
    place: usize,
    toks: &'t [Lexeme],
) -> Parsed<'t, (Box<RawAction>, usize)>
    requires { levels ≤ deepest }
    ensures gives { GivesReading placed_tree result (block (body_at levels) place toks.now) }
    ensures no_longer { IfOk result (λ r. length r.1.now ≤ length toks.now) }
{
    let rest = expect(Mark::LBrace, toks)?;
    let (inner, rest) = body(alloc, levels, rest)?;
    let rest = expect(Mark::RBrace, rest)?;
    Ok(((inner, place), rest))
}

// Statements and the last action.
#[cycle(actions)]
fn body<'t>(alloc: Global, levels: u8, toks: &'t [Lexeme]) -> Parsed<'t, Box<RawAction>>
    requires { levels ≤ deepest }
    ensures gives { GivesReading boxed_tree result (body_at levels toks.now) }
    ensures no_longer { IfOk result (λ r. length r.1.now ≤ length toks.now) }
{
    let Some((first, rest)) = toks.split_first() else {
        return Err(unexpected(toks));
    };
    if is_name_kind(first.sym) {
        return bound(alloc, levels, first.span(), rest);
    }
    if first.sym.is(Mark::Let) {
        return let_bound(alloc, levels, rest);
    }
    sequence(alloc, levels, toks)
}

// After a name that a statement binds.
#[cycle(actions)]
fn bound<'t>(
    alloc: Global,
    levels: u8,
    name: Span,
    toks: &'t [Lexeme],
) -> Parsed<'t, Box<RawAction>>
    requires { levels ≤ deepest }
    ensures gives { GivesReading boxed_tree result
        (bound (action_at levels) (body_at levels) name toks.now) }
    ensures no_longer { IfOk result (λ r. length r.1.now ≤ length toks.now) }
{
    let toks = expect(Mark::Arrow, toks)?;
    let ((bound, at), toks) = boxed_action(alloc, levels, toks)?;
    let toks = expect(Mark::Semicolon, toks)?;
    let (rest, toks) = body(alloc, levels, toks)?;
    let all = RawAction::Bind {
        name,
        at,
        bound,
        rest,
    };
    whole(alloc, all, toks)
}

// After let.
#[cycle(actions)]
fn let_bound<'t>(alloc: Global, levels: u8, toks: &'t [Lexeme]) -> Parsed<'t, Box<RawAction>>
    requires { levels ≤ deepest }
    ensures gives { GivesReading boxed_tree result
        (let_bound (tier_at widest levels) (body_at levels) toks.now) }
    ensures no_longer { IfOk result (λ r. length r.1.now ≤ length toks.now) }
{
    let (name, toks) = expect_name(toks)?;
    let toks = expect(Mark::Equals, toks)?;
    let (value, toks) = expression(alloc, levels, toks)?;
    let toks = expect(Mark::Semicolon, toks)?;
    let (rest, toks) = body(alloc, levels, toks)?;
    let name = name.span();
    let all = RawAction::Let { name, value, rest };
    whole(alloc, all, toks)
}

// An action, and the rest of the body after a semicolon.
#[cycle(actions)]
fn sequence<'t>(alloc: Global, levels: u8, toks: &'t [Lexeme]) -> Parsed<'t, Box<RawAction>>
    requires { levels ≤ deepest }
    ensures gives { GivesReading boxed_tree result
        (sequence (action_at levels) (body_at levels) toks.now) }
    ensures no_longer { IfOk result (λ r. length r.1.now ≤ length toks.now) }
{
    let ((first, _), rest) = boxed_action(alloc, levels, toks)?;
    let Some(rest) = accept(Mark::Semicolon, rest) else {
        return Ok((first, rest));
    };
    let (then, rest) = body(alloc, levels, rest)?;
    whole(alloc, RawAction::Seq(first, then), rest)
}
