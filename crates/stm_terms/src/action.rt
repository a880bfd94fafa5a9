//! Actions: what an atomic block does.

ghost use Rattle.std.specs.Prelude.{◌≡◌};
ghost use Rattle.stm_terms.specs.Ast.{act_of, has_catch};

use crate::expr::Expr;
use crate::kinds::Ty;

/// An action. A `do` is a chain of `Bind`, `Let` and `Seq` nested to the right; `Bind` and `Let` add a local.
///
/// `Make` has the type of the cell that it makes. `Catch` has the handler after the action; the handler has one more local,
/// the number that the action threw.
#[derive(Drop)]
pub enum Action {
    Return(Expr),
    Read(Expr),
    Write(Expr, Expr),
    Make(Ty, Expr),
    Retry,
    Throw(Expr),
    If(Expr, Box<Action>, Box<Action>),
    OrElse(Box<Action>, Box<Action>),
    Bind(Box<Action>, Box<Action>),
    Let(Expr, Box<Action>),
    Seq(Box<Action>, Box<Action>),
    Catch(Box<Action>, Box<Action>),
}

impl Action {
    /// Whether some part of the action is a `catch`.
    pub fn has_catch(&self) -> bool
        ensures { result ≡ has_catch (act_of self.now) }
    {
        match self {
            Action::Return(_) => false,
            Action::Read(_) => false,
            Action::Write(_, _) => false,
            Action::Make(_, _) => false,
            Action::Retry => false,
            Action::Throw(_) => false,
            Action::If(_, a, b) => a.has_catch() || b.has_catch(),
            Action::OrElse(a, b) => a.has_catch() || b.has_catch(),
            Action::Bind(a, b) => a.has_catch() || b.has_catch(),
            Action::Let(_, b) => b.has_catch(),
            Action::Seq(a, b) => a.has_catch() || b.has_catch(),
            Action::Catch(_, _) => true,
        }
    }
}
