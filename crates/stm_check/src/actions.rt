//! The check of actions.

ghost use Rattle.stm_terms.specs.Ast.{act_of};
ghost use Rattle.stm_terms.specs.ParsedAst as raw;
ghost use Rattle.stm_terms.specs.ParsedAst.{raw_term_of, raw_act_of};
ghost use Rattle.stm_check.specs.CheckContext.{CanCheck, ChecksAction};

use crate::checker::Checker;
use crate::expressions::{name_at, place};
use crate::fault::TypeFault;
use crate::scope::{Scope, bits_with, count};
use crate::types::{BOOL, INT, UNIT, inside, join, reference_to, same};
use stm_terms::action::Action;
use stm_terms::kinds::Ty;
use stm_terms::raw::{RawAction, RawExpr, Span};

/// An action with its names resolved, and the type of its result, with none for any.
type Checked = Result<(Action, Option<Ty>), TypeFault>;

impl Checker<'_> {
    fn check_return(&self, uses: &mut Vec<(u32, Ty)>, value: &RawExpr) -> Checked
        requires { CanCheck self.now (raw.return (raw_term_of value.now)) }
        ensures { ChecksAction self.now (raw.return (raw_term_of value.now))
            act_of result uses.old.items uses.new.items }
    {
        let (value, kind) = self.check_expr(uses, value)?;
        Ok((Action::Return(value), Some(kind)))
    }

    fn check_read(&self, uses: &mut Vec<(u32, Ty)>, variable: &RawExpr) -> Checked
        requires { CanCheck self.now (raw.read (raw_term_of variable.now)) }
        ensures { ChecksAction self.now (raw.read (raw_term_of variable.now))
            act_of result uses.old.items uses.new.items }
    {
        let (reference, kind) = self.check_expr(uses, variable)?;
        match inside(kind) {
            Some(cell) => Ok((Action::Read(reference), Some(cell))),
            None => Err(TypeFault::NotAVariable(place(variable))),
        }
    }

    fn check_write(&self, uses: &mut Vec<(u32, Ty)>, variable: &RawExpr, value: &RawExpr) -> Checked
        requires { CanCheck self.now
            (raw.write (raw_term_of variable.now) (raw_term_of value.now)) }
        ensures { ChecksAction self.now
            (raw.write (raw_term_of variable.now) (raw_term_of value.now))
            act_of result uses.old.items uses.new.items }
    {
        let (reference, kind) = self.check_expr(uses, variable)?;
        let Some(cell) = inside(kind) else {
            return Err(TypeFault::NotAVariable(place(variable)));
        };
        let (written, given) = self.check_expr(uses, value)?;
        if !same(given, cell) {
            return Err(TypeFault::Mismatch(place(value)));
        }
        Ok((Action::Write(reference, written), Some(UNIT)))
    }

    fn check_make(&self, uses: &mut Vec<(u32, Ty)>, value: &RawExpr) -> Checked
        requires { CanCheck self.now (raw.make (raw_term_of value.now)) }
        ensures { ChecksAction self.now (raw.make (raw_term_of value.now))
            act_of result uses.old.items uses.new.items }
    {
        let (first, kind) = self.check_expr(uses, value)?;
        if kind.refs > Ty::MOST_REFS {
            return Err(TypeFault::TypeTooDeep(place(value)));
        }
        Ok((Action::Make(kind, first), Some(reference_to(kind))))
    }

    fn check_throw(&self, uses: &mut Vec<(u32, Ty)>, number: &RawExpr) -> Checked
        requires { CanCheck self.now (raw.throw (raw_term_of number.now)) }
        ensures { ChecksAction self.now (raw.throw (raw_term_of number.now))
            act_of result uses.old.items uses.new.items }
    {
        let (thrown, kind) = self.check_expr(uses, number)?;
        if !same(kind, INT) {
            return Err(TypeFault::Mismatch(place(number)));
        }
        Ok((Action::Throw(thrown), None))
    }

    #[cycle(actions)]
    fn check_if(
        &self,
        uses: &mut Vec<(u32, Ty)>,
        condition: &RawExpr,
        first: &RawAction,
        at: usize,
        second: &RawAction,
    ) -> Checked
        requires { CanCheck self.now
            (raw.if_else (raw_term_of condition.now) (raw_act_of first.now) at
            (raw_act_of second.now)) }
        ensures { ChecksAction self.now
            (raw.if_else (raw_term_of condition.now) (raw_act_of first.now) at
            (raw_act_of second.now))
            act_of result uses.old.items uses.new.items }
    {
        let (test, kind) = self.check_expr(uses, condition)?;
        if !same(kind, BOOL) {
            return Err(TypeFault::Mismatch(place(condition)));
        }
        let (a, one) = self.check_part(uses, first)?;
        let (b, other) = self.check_part(uses, second)?;
        let Some(kind) = join(one, other) else {
            return Err(TypeFault::Mismatch(at));
        };
        Ok((Action::If(test, a, b), kind))
    }

    #[cycle(actions)]
    fn check_or_else(
        &self,
        uses: &mut Vec<(u32, Ty)>,
        first: &RawAction,
        at: usize,
        second: &RawAction,
    ) -> Checked
        requires { CanCheck self.now
            (raw.or_else (raw_act_of first.now) at (raw_act_of second.now)) }
        ensures { ChecksAction self.now
            (raw.or_else (raw_act_of first.now) at (raw_act_of second.now))
            act_of result uses.old.items uses.new.items }
    {
        let (a, left) = self.check_part(uses, first)?;
        let (b, right) = self.check_part(uses, second)?;
        let Some(kind) = join(left, right) else {
            return Err(TypeFault::Mismatch(at));
        };
        Ok((Action::OrElse(a, b), kind))
    }

    #[cycle(actions)]
    fn check_catch(
        &self,
        uses: &mut Vec<(u32, Ty)>,
        action: &RawAction,
        name: Span,
        at: usize,
        handler: &RawAction,
    ) -> Checked
        requires { CanCheck self.now
            (raw.catch (raw_act_of action.now) name at (raw_act_of handler.now)) }
        ensures { ChecksAction self.now
            (raw.catch (raw_act_of action.now) name at (raw_act_of handler.now))
            act_of result uses.old.items uses.new.items }
    {
        let (a, returned) = self.check_part(uses, action)?;
        let local = name_at(self.text, name);
        let inner = Checker {
            alloc: self.alloc,
            known: self.known,
            text: self.text,
            locals: &Scope::Local {
                name: local,
                kind: INT,
                number: count(self.locals),
                bits: bits_with(self.locals, local),
                outer: self.locals,
            },
        };
        let (b, handled) = inner.check_part(uses, handler)?;
        let Some(kind) = join(returned, handled) else {
            return Err(TypeFault::Mismatch(at));
        };
        Ok((Action::Catch(a, b), kind))
    }

    #[cycle(actions)]
    fn check_bind(
        &self,
        uses: &mut Vec<(u32, Ty)>,
        name: Span,
        at: usize,
        bound: &RawAction,
        rest: &RawAction,
    ) -> Checked
        requires { CanCheck self.now
            (raw.bind name at (raw_act_of bound.now) (raw_act_of rest.now)) }
        ensures { ChecksAction self.now
            (raw.bind name at (raw_act_of bound.now) (raw_act_of rest.now))
            act_of result uses.old.items uses.new.items }
    {
        let (a, kind) = self.check_part(uses, bound)?;
        let Some(kind) = kind else {
            return Err(TypeFault::Untyped(at));
        };
        let local = name_at(self.text, name);
        let inner = Checker {
            alloc: self.alloc,
            known: self.known,
            text: self.text,
            locals: &Scope::Local {
                name: local,
                kind,
                number: count(self.locals),
                bits: bits_with(self.locals, local),
                outer: self.locals,
            },
        };
        let (b, kind) = inner.check_part(uses, rest)?;
        Ok((Action::Bind(a, b), kind))
    }

    #[cycle(actions)]
    fn check_let(
        &self,
        uses: &mut Vec<(u32, Ty)>,
        name: Span,
        value: &RawExpr,
        rest: &RawAction,
    ) -> Checked
        requires { CanCheck self.now
            (raw.let_in name (raw_term_of value.now) (raw_act_of rest.now)) }
        ensures { ChecksAction self.now
            (raw.let_in name (raw_term_of value.now) (raw_act_of rest.now))
            act_of result uses.old.items uses.new.items }
    {
        let (a, kind) = self.check_expr(uses, value)?;
        let local = name_at(self.text, name);
        let inner = Checker {
            alloc: self.alloc,
            known: self.known,
            text: self.text,
            locals: &Scope::Local {
                name: local,
                kind,
                number: count(self.locals),
                bits: bits_with(self.locals, local),
                outer: self.locals,
            },
        };
        let (b, kind) = inner.check_part(uses, rest)?;
        Ok((Action::Let(a, b), kind))
    }

    #[cycle(actions)]
    fn check_seq(
        &self,
        uses: &mut Vec<(u32, Ty)>,
        statement: &RawAction,
        rest: &RawAction,
    ) -> Checked
        requires { CanCheck self.now (raw.seq (raw_act_of statement.now) (raw_act_of rest.now)) }
        ensures { ChecksAction self.now (raw.seq (raw_act_of statement.now) (raw_act_of rest.now))
            act_of result uses.old.items uses.new.items }
    {
        let (a, _) = self.check_part(uses, statement)?;
        let (b, kind) = self.check_part(uses, rest)?;
        Ok((Action::Seq(a, b), kind))
    }

    /// The check of an action that is part of another. It is boxed here, so that no memory is asked for while parts wait for
    /// each other.
    #[cycle(actions)]
    fn check_part(
        &self,
        uses: &mut Vec<(u32, Ty)>,
        raw: &RawAction,
    ) -> Result<(Box<Action>, Option<Ty>), TypeFault>
        requires { CanCheck self.now (raw_act_of raw.now) }
        ensures { ChecksAction self.now (raw_act_of raw.now)
            (λ p. act_of p.value) result uses.old.items uses.new.items }
    {
        let (action, kind) = self.check_action(uses, raw)?;
        let part = Box::new(self.alloc, action)?;
        Ok((part, kind))
    }

    /// The action with its names resolved, and the type of its result, with none for any; or the first fault.
    // An action is moved by value; a call that isn't inlined copies it.
    #[cycle(actions)]
    #[inline(always)]
    pub(crate) fn check_action(&self, uses: &mut Vec<(u32, Ty)>, raw: &RawAction) -> Checked
        requires { CanCheck self.now (raw_act_of raw.now) }
        ensures { ChecksAction self.now (raw_act_of raw.now)
            act_of result uses.old.items uses.new.items }
    {
        match raw {
            RawAction::Return(value) => self.check_return(uses, value),
            RawAction::Read(variable) => self.check_read(uses, variable),
            RawAction::Write(variable, value) => self.check_write(uses, variable, value),
            RawAction::Make(value) => self.check_make(uses, value),
            RawAction::Retry => Ok((Action::Retry, None)),
            RawAction::Throw(number) => self.check_throw(uses, number),
            RawAction::If {
                condition,
                first,
                at,
                second,
            } => self.check_if(uses, condition, first, *at, second),
            RawAction::OrElse { first, at, second } => {
                self.check_or_else(uses, first, *at, second)
            }
            RawAction::Bind {
                name,
                at,
                bound,
                rest,
            } => self.check_bind(uses, *name, *at, bound, rest),
            RawAction::Let { name, value, rest } => { self.check_let(uses, *name, value, rest) }
            RawAction::Seq(statement, rest) => self.check_seq(uses, statement, rest),
            RawAction::Catch {
                action,
                name,
                at,
                handler,
            } => self.check_catch(uses, action, *name, *at, handler),
        }
    }
}
