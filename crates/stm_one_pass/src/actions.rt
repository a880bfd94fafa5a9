//! The pass through actions. An action is boxed as soon as it is whole.

ghost use Rattle.std.specs.Prelude.{◌≡◌, ◌≤◌, length, IfSome};
ghost use Rattle.stm_terms.specs.declared.kinds.Ty.{Ty};
ghost use Rattle.stm_terms.specs.Ast.{act_of};
ghost use Rattle.stm_terms.specs.ParsedAst.{return, read, make, throw};
ghost use Rattle.stm_terms.specs.Typing.{int_ty, result_type};
ghost use Rattle.stm_parse.specs.Grammar.{deepest, widest, span_of};
ghost use Rattle.stm_parse.specs.Descent.{atom_at, tier_at, action_at, paren_at, body_at, closed, block, if_of, or_else_of, catch_of, bound, let_bound, sequence, one_operand, two_operands, flat_action};
ghost use Rattle.stm_one_pass.specs.OnePass.{CanRead, ReadsAction, ReadsBody, ReadsInner};

use crate::expressions::{atom, expression};
use crate::names::{next_number, text_of};
use std::alloc::Global;
use stm_check::checker::Checker;
use stm_check::scope::{Scope, bits_with};
use stm_check::types::{BOOL, INT, UNIT, inside, join, reference_to, same};
use stm_parse::cursor::{accept, expect, expect_name, is_name_kind};
use stm_parse::token::{Lexeme, Mark, TokenKind};
use stm_terms::{Action, Ty};

/// An action with the type of its result, none for any, and the tokens after it.
pub(crate) type Part<'t> = Option<(Box<Action>, Option<Ty>, &'t [Lexeme])>;

// An action that is whole. An action is moved by value; a call that isn't inlined copies it.
#[inline(always)]
fn whole<'t>(alloc: Global, action: Action, kind: Option<Ty>, toks: &'t [Lexeme]) -> Part<'t>
    ensures tree { IfSome result (λ r. act_of r.0.value ≡ act_of action) }
    ensures kind { IfSome result (λ r. r.1 ≡ kind) }
    ensures rest { IfSome result (λ r. r.2.now ≡ toks.now) }
{
    let Ok(action) = Box::new(alloc, action) else {
        return None;
    };
    Some((action, kind, toks))
}

// After return.
fn returned<'t>(
    checker: &Checker,
    uses: &mut Vec<(u32, Ty)>,
    levels: u8,
    place: usize,
    toks: &'t [Lexeme],
) -> Part<'t>
    requires can { CanRead checker.now }
    requires low { levels ≤ deepest }
    ensures reads { IfSome result (λ r.
        ReadsAction checker.now (one_operand (atom_at levels) return place toks.now)
        (act_of r.0.value) (result_type r.1) r.2.now uses.old.items uses.new.items) }
    ensures no_longer { IfSome result (λ r. length r.2.now ≤ length toks.now) }
{
    let Some((value, kind, rest)) = atom(checker, uses, levels, toks) else {
        return None;
    };
    whole(checker.alloc, Action::Return(value), Some(kind), rest)
}

// After readTVar.
fn read<'t>(
    checker: &Checker,
    uses: &mut Vec<(u32, Ty)>,
    levels: u8,
    place: usize,
    toks: &'t [Lexeme],
) -> Part<'t>
    requires can { CanRead checker.now }
    requires low { levels ≤ deepest }
    ensures reads { IfSome result (λ r.
        ReadsAction checker.now (one_operand (atom_at levels) read place toks.now)
        (act_of r.0.value) (result_type r.1) r.2.now uses.old.items uses.new.items) }
    ensures no_longer { IfSome result (λ r. length r.2.now ≤ length toks.now) }
{
    let Some((variable, kind, rest)) = atom(checker, uses, levels, toks) else {
        return None;
    };
    let Some(cell) = inside(kind) else {
        return None;
    };
    whole(checker.alloc, Action::Read(variable), Some(cell), rest)
}

// After newTVar.
fn made<'t>(
    checker: &Checker,
    uses: &mut Vec<(u32, Ty)>,
    levels: u8,
    place: usize,
    toks: &'t [Lexeme],
) -> Part<'t>
    requires can { CanRead checker.now }
    requires low { levels ≤ deepest }
    ensures reads { IfSome result (λ r.
        ReadsAction checker.now (one_operand (atom_at levels) make place toks.now)
        (act_of r.0.value) (result_type r.1) r.2.now uses.old.items uses.new.items) }
    ensures no_longer { IfSome result (λ r. length r.2.now ≤ length toks.now) }
{
    let Some((value, kind, rest)) = atom(checker, uses, levels, toks) else {
        return None;
    };
    if kind.refs > Ty::MOST_REFS {
        return None;
    }
    whole(
        checker.alloc,
        Action::Make(kind, value),
        Some(reference_to(kind)),
        rest,
    )
}

// After throw.
fn thrown<'t>(
    checker: &Checker,
    uses: &mut Vec<(u32, Ty)>,
    levels: u8,
    place: usize,
    toks: &'t [Lexeme],
) -> Part<'t>
    requires can { CanRead checker.now }
    requires low { levels ≤ deepest }
    ensures reads { IfSome result (λ r.
        ReadsAction checker.now (one_operand (atom_at levels) throw place toks.now)
        (act_of r.0.value) (result_type r.1) r.2.now uses.old.items uses.new.items) }
    ensures no_longer { IfSome result (λ r. length r.2.now ≤ length toks.now) }
{
    let Some((number, kind, rest)) = atom(checker, uses, levels, toks) else {
        return None;
    };
    if !same(kind, INT) {
        return None;
    }
    whole(checker.alloc, Action::Throw(number), None, rest)
}

// After writeTVar.
fn write<'t>(
    checker: &Checker,
    uses: &mut Vec<(u32, Ty)>,
    levels: u8,
    place: usize,
    toks: &'t [Lexeme],
) -> Part<'t>
    requires can { CanRead checker.now }
    requires low { levels ≤ deepest }
    ensures reads { IfSome result (λ r.
        ReadsAction checker.now (two_operands (atom_at levels) place toks.now)
        (act_of r.0.value) (result_type r.1) r.2.now uses.old.items uses.new.items) }
    ensures no_longer { IfSome result (λ r. length r.2.now ≤ length toks.now) }
{
    let Some((variable, kind, rest)) = atom(checker, uses, levels, toks) else {
        return None;
    };
    let Some(cell) = inside(kind) else {
        return None;
    };
    let Some((value, given, rest)) = atom(checker, uses, levels, rest) else {
        return None;
    };
    if !same(given, cell) {
        return None;
    }
    whole(
        checker.alloc,
        Action::Write(variable, value),
        Some(UNIT),
        rest,
    )
}

// An action that opens no level, by its first word.
fn flat<'t>(
    checker: &Checker,
    uses: &mut Vec<(u32, Ty)>,
    levels: u8,
    word: Mark,
    toks: &'t [Lexeme],
) -> Part<'t>
    requires can { CanRead checker.now }
    requires low { levels ≤ deepest }
    ensures reads { IfSome result (λ r.
        ReadsAction checker.now (flat_action (atom_at levels) word toks.now)
        (act_of r.0.value) (result_type r.1) r.2.now uses.old.items uses.new.items) }
    ensures no_longer { IfSome result (λ r. length r.2.now ≤ length toks.now) }
{
    let Some((first, rest)) = toks.split_first() else {
        return None;
    };
    match word {
        Mark::Return => returned(checker, uses, levels, first.start, rest),
        Mark::ReadTVar => read(checker, uses, levels, first.start, rest),
        Mark::NewTVar => made(checker, uses, levels, first.start, rest),
        Mark::Throw => thrown(checker, uses, levels, first.start, rest),
        Mark::WriteTVar => write(checker, uses, levels, first.start, rest),
        Mark::Retry => whole(checker.alloc, Action::Retry, None, rest),
        _ => None,
    }
}

/// An action.
#[cycle(actions)]
#[tactic(auto, unfolding(stm_parse::specs::Descent::action_at))]
pub(crate) fn action<'t>(
    checker: &Checker,
    uses: &mut Vec<(u32, Ty)>,
    levels: u8,
    toks: &'t [Lexeme],
) -> Part<'t>
    requires can { CanRead checker.now }
    requires low { levels ≤ deepest }
    ensures reads { IfSome result (λ r. ReadsAction checker.now (action_at levels toks.now)
        (act_of r.0.value) (result_type r.1) r.2.now uses.old.items uses.new.items) }
    ensures no_longer { IfSome result (λ r. length r.2.now ≤ length toks.now) }
{
    let Some((first, rest)) = toks.split_first() else {
        return None;
    };
    let TokenKind::Mark(word) = first.sym else {
        return None;
    };
    match word {
        Mark::Do => {
            if levels == 0 {
                return None;
            }
            block(checker, uses, levels - 1, first.start, rest)
        }
        Mark::If => {
            if levels == 0 {
                return None;
            }
            if_then_else(checker, uses, levels - 1, first.start, rest)
        }
        Mark::OrElse => {
            if levels == 0 {
                return None;
            }
            or_else(checker, uses, levels - 1, first.start, rest)
        }
        Mark::Catch => {
            if levels == 0 {
                return None;
            }
            catch(checker, uses, levels - 1, first.start, rest)
        }
        Mark::LParen => {
            if levels == 0 {
                return None;
            }
            closed(checker, uses, levels - 1, rest)
        }
        _ => flat(checker, uses, levels, word, toks),
    }
}

// After "(".
#[cycle(actions)]
fn closed<'t>(
    checker: &Checker,
    uses: &mut Vec<(u32, Ty)>,
    levels: u8,
    toks: &'t [Lexeme],
) -> Part<'t>
    requires can { CanRead checker.now }
    requires low { levels ≤ deepest }
    ensures reads { IfSome result (λ r. ReadsAction checker.now (closed (action_at levels) toks.now)
        (act_of r.0.value) (result_type r.1) r.2.now uses.old.items uses.new.items) }
    ensures no_longer { IfSome result (λ r. length r.2.now ≤ length toks.now) }
{
    let Some((inner, kind, rest)) = action(checker, uses, levels, toks) else {
        return None;
    };
    let Ok(rest) = expect(Mark::RParen, rest) else {
        return None;
    };
    Some((inner, kind, rest))
}

// "(" action ")"
#[cycle(actions)]
#[tactic(auto, unfolding(stm_parse::specs::Descent::paren_at))]
fn paren<'t>(
    checker: &Checker,
    uses: &mut Vec<(u32, Ty)>,
    levels: u8,
    toks: &'t [Lexeme],
) -> Part<'t>
    requires can { CanRead checker.now }
    requires low { levels ≤ deepest }
    ensures reads { IfSome result (λ r. ReadsAction checker.now (paren_at levels toks.now)
        (act_of r.0.value) (result_type r.1) r.2.now uses.old.items uses.new.items) }
    ensures no_longer { IfSome result (λ r. length r.2.now ≤ length toks.now) }
{
    let Some((first, rest)) = toks.split_first() else {
        return None;
    };
    if !first.sym.is(Mark::LParen) || levels == 0 {
        return None;
    }
    closed(checker, uses, levels - 1, rest)
}

// After orElse.
#[cycle(actions)]
fn or_else<'t>(
    checker: &Checker,
    uses: &mut Vec<(u32, Ty)>,
    levels: u8,
    place: usize,
    toks: &'t [Lexeme],
) -> Part<'t>
    requires can { CanRead checker.now }
    requires low { levels ≤ deepest }
    ensures reads { IfSome result (λ r.
        ReadsAction checker.now (or_else_of (paren_at levels) place toks.now)
        (act_of r.0.value) (result_type r.1) r.2.now uses.old.items uses.new.items) }
    ensures no_longer { IfSome result (λ r. length r.2.now ≤ length toks.now) }
{
    let Some((first, one, rest)) = paren(checker, uses, levels, toks) else {
        return None;
    };
    let Some((second, other, rest)) = paren(checker, uses, levels, rest) else {
        return None;
    };
    let Some(kind) = join(one, other) else {
        return None;
    };
    whole(checker.alloc, Action::OrElse(first, second), kind, rest)
}

// After catch.
#[cycle(actions)]
fn catch<'t>(
    checker: &Checker,
    uses: &mut Vec<(u32, Ty)>,
    levels: u8,
    place: usize,
    toks: &'t [Lexeme],
) -> Part<'t>
    requires can { CanRead checker.now }
    requires low { levels ≤ deepest }
    ensures reads { IfSome result (λ r.
        ReadsAction checker.now (catch_of (paren_at levels) place toks.now)
        (act_of r.0.value) (result_type r.1) r.2.now uses.old.items uses.new.items) }
    ensures no_longer { IfSome result (λ r. length r.2.now ≤ length toks.now) }
{
    let Some((inner, returned, rest)) = paren(checker, uses, levels, toks) else {
        return None;
    };
    let Ok((name, rest)) = expect_name(rest) else {
        return None;
    };
    let Some((handler, handled, rest)) = handler(checker, uses, levels, &name, rest) else {
        return None;
    };
    let Some(kind) = join(returned, handled) else {
        return None;
    };
    whole(checker.alloc, Action::Catch(inner, handler), kind, rest)
}

// After if.
#[cycle(actions)]
fn if_then_else<'t>(
    checker: &Checker,
    uses: &mut Vec<(u32, Ty)>,
    levels: u8,
    place: usize,
    toks: &'t [Lexeme],
) -> Part<'t>
    requires can { CanRead checker.now }
    requires low { levels ≤ deepest }
    ensures reads { IfSome result (λ r.
        ReadsAction checker.now (if_of (tier_at widest levels) (action_at levels) place toks.now)
        (act_of r.0.value) (result_type r.1) r.2.now uses.old.items uses.new.items) }
    ensures no_longer { IfSome result (λ r. length r.2.now ≤ length toks.now) }
{
    let Some((condition, kind, rest)) = expression(checker, uses, levels, toks) else {
        return None;
    };
    if !same(kind, BOOL) {
        return None;
    }
    let Ok(rest) = expect(Mark::Then, rest) else {
        return None;
    };
    let Some((first, one, rest)) = action(checker, uses, levels, rest) else {
        return None;
    };
    let Ok(rest) = expect(Mark::Else, rest) else {
        return None;
    };
    let Some((second, other, rest)) = action(checker, uses, levels, rest) else {
        return None;
    };
    let Some(kind) = join(one, other) else {
        return None;
    };
    whole(
        checker.alloc,
        Action::If(condition, first, second),
        kind,
        rest,
    )
}

// After "do".
#[cycle(actions)]
fn block<'t>(
    checker: &Checker,
    uses: &mut Vec<(u32, Ty)>,
    levels: u8,
    place: usize,
    toks: &'t [Lexeme],
) -> Part<'t>
    requires can { CanRead checker.now }
    requires low { levels ≤ deepest }
    ensures reads { IfSome result (λ r.
        ReadsAction checker.now (block (body_at levels) place toks.now)
        (act_of r.0.value) (result_type r.1) r.2.now uses.old.items uses.new.items) }
    ensures no_longer { IfSome result (λ r. length r.2.now ≤ length toks.now) }
{
    let Ok(rest) = expect(Mark::LBrace, toks) else {
        return None;
    };
    let Some((inner, kind, rest)) = body(checker, uses, levels, rest) else {
        return None;
    };
    let Ok(rest) = expect(Mark::RBrace, rest) else {
        return None;
    };
    Some((inner, kind, rest))
}

// Statements and the last action.
#[cycle(actions)]
fn body<'t>(
    checker: &Checker,
    uses: &mut Vec<(u32, Ty)>,
    levels: u8,
    toks: &'t [Lexeme],
) -> Part<'t>
    requires can { CanRead checker.now }
    requires low { levels ≤ deepest }
    ensures reads { IfSome result (λ r. ReadsBody checker.now (body_at levels toks.now)
        (act_of r.0.value) (result_type r.1) r.2.now uses.old.items uses.new.items) }
    ensures no_longer { IfSome result (λ r. length r.2.now ≤ length toks.now) }
{
    let Some((first, rest)) = toks.split_first() else {
        return None;
    };
    if is_name_kind(first.sym) {
        return bound(checker, uses, levels, first, rest);
    }
    if first.sym.is(Mark::Let) {
        return let_bound(checker, uses, levels, rest);
    }
    sequence(checker, uses, levels, toks)
}

// After a name that a statement binds.
#[cycle(actions)]
fn bound<'t>(
    checker: &Checker,
    uses: &mut Vec<(u32, Ty)>,
    levels: u8,
    name: &Lexeme,
    toks: &'t [Lexeme],
) -> Part<'t>
    requires can { CanRead checker.now }
    requires low { levels ≤ deepest }
    ensures reads { IfSome result (λ r.
        ReadsBody checker.now
        (bound (action_at levels) (body_at levels) (span_of name.now) toks.now)
        (act_of r.0.value) (result_type r.1) r.2.now uses.old.items uses.new.items) }
    ensures no_longer { IfSome result (λ r. length r.2.now ≤ length toks.now) }
{
    let Ok(rest) = expect(Mark::Arrow, toks) else {
        return None;
    };
    let Some((first, kind, rest)) = action(checker, uses, levels, rest) else {
        return None;
    };
    let Some(kind) = kind else {
        return None;
    };
    let Ok(rest) = expect(Mark::Semicolon, rest) else {
        return None;
    };
    let Some((then, given, rest)) = inner(checker, uses, levels, name, kind, rest) else {
        return None;
    };
    whole(checker.alloc, Action::Bind(first, then), given, rest)
}

// After let.
#[cycle(actions)]
fn let_bound<'t>(
    checker: &Checker,
    uses: &mut Vec<(u32, Ty)>,
    levels: u8,
    toks: &'t [Lexeme],
) -> Part<'t>
    requires can { CanRead checker.now }
    requires low { levels ≤ deepest }
    ensures reads { IfSome result (λ r.
        ReadsBody checker.now
        (let_bound (tier_at widest levels) (body_at levels) toks.now)
        (act_of r.0.value) (result_type r.1) r.2.now uses.old.items uses.new.items) }
    ensures no_longer { IfSome result (λ r. length r.2.now ≤ length toks.now) }
{
    let Ok((name, rest)) = expect_name(toks) else {
        return None;
    };
    let Ok(rest) = expect(Mark::Equals, rest) else {
        return None;
    };
    let Some((value, kind, rest)) = expression(checker, uses, levels, rest) else {
        return None;
    };
    let Ok(rest) = expect(Mark::Semicolon, rest) else {
        return None;
    };
    let Some((then, given, rest)) = inner(checker, uses, levels, &name, kind, rest) else {
        return None;
    };
    whole(checker.alloc, Action::Let(value, then), given, rest)
}

// An action, and the rest of the body after a semicolon.
#[cycle(actions)]
fn sequence<'t>(
    checker: &Checker,
    uses: &mut Vec<(u32, Ty)>,
    levels: u8,
    toks: &'t [Lexeme],
) -> Part<'t>
    requires can { CanRead checker.now }
    requires low { levels ≤ deepest }
    ensures reads { IfSome result (λ r.
        ReadsBody checker.now (sequence (action_at levels) (body_at levels) toks.now)
        (act_of r.0.value) (result_type r.1) r.2.now uses.old.items uses.new.items) }
    ensures no_longer { IfSome result (λ r. length r.2.now ≤ length toks.now) }
{
    let Some((first, kind, rest)) = action(checker, uses, levels, toks) else {
        return None;
    };
    let Some(rest) = accept(Mark::Semicolon, rest) else {
        return Some((first, kind, rest));
    };
    let Some((then, given, rest)) = body(checker, uses, levels, rest) else {
        return None;
    };
    whole(checker.alloc, Action::Seq(first, then), given, rest)
}

// The handler of a catch, which has one more local.
#[cycle(actions)]
fn handler<'t>(
    checker: &Checker,
    uses: &mut Vec<(u32, Ty)>,
    levels: u8,
    name: &Lexeme,
    toks: &'t [Lexeme],
) -> Part<'t>
    requires can { CanRead checker.now }
    requires low { levels ≤ deepest }
    ensures reads { IfSome result (λ r.
        ReadsInner checker.now (span_of name.now) int_ty (λ p. p.0) (paren_at levels toks.now)
        (act_of r.0.value) (result_type r.1) r.2.now uses.old.items uses.new.items) }
    ensures no_longer { IfSome result (λ r. length r.2.now ≤ length toks.now) }
{
    let Some(local) = text_of(checker.text, name) else {
        return None;
    };
    let Some(number) = next_number(checker.locals) else {
        return None;
    };
    let inner = Checker {
        alloc: checker.alloc,
        known: checker.known,
        text: checker.text,
        locals: &Scope::Local {
            name: local,
            kind: INT,
            number,
            bits: bits_with(checker.locals, local),
            outer: checker.locals,
        },
    };
    paren(&inner, uses, levels, toks)
}

// The rest of a body, which has one more local.
#[cycle(actions)]
fn inner<'t>(
    checker: &Checker,
    uses: &mut Vec<(u32, Ty)>,
    levels: u8,
    name: &Lexeme,
    kind: Ty,
    toks: &'t [Lexeme],
) -> Part<'t>
    requires can { CanRead checker.now }
    requires low { levels ≤ deepest }
    ensures reads { IfSome result (λ r.
        ReadsInner checker.now (span_of name.now) kind (λ a. a) (body_at levels toks.now)
        (act_of r.0.value) (result_type r.1) r.2.now uses.old.items uses.new.items) }
    ensures no_longer { IfSome result (λ r. length r.2.now ≤ length toks.now) }
{
    if kind.refs > Ty::MOST_REFS + 1 {
        return None;
    }
    let Some(local) = text_of(checker.text, name) else {
        return None;
    };
    let Some(number) = next_number(checker.locals) else {
        return None;
    };
    let inner = Checker {
        alloc: checker.alloc,
        known: checker.known,
        text: checker.text,
        locals: &Scope::Local {
            name: local,
            kind,
            number,
            bits: bits_with(checker.locals, local),
            outer: checker.locals,
        },
    };
    body(&inner, uses, levels, toks)
}
