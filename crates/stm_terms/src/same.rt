//! Equality of trees, wherever their parts lie in memory.

ghost use Rattle.std.specs.Prelude.{◌≡◌, ◌↔◌, IsTrue};
ghost use Rattle.stm_terms.specs.Ast.{act_of, term_of};

use crate::action::Action;
use crate::expr::Expr;

fn same_expr(a: &Expr, b: &Expr) -> bool
    ensures { IsTrue result ↔ (term_of a.now ≡ term_of b.now) }
{
    match (a, b) {
        (Expr::Lit(v), Expr::Lit(w)) => *v == *w,
        (Expr::Local(i), Expr::Local(j)) => *i == *j,
        (Expr::Global(i), Expr::Global(j)) => *i == *j,
        (Expr::Bin(op, a, b), Expr::Bin(or, c, d)) => {
            *op == *or && same_expr(a, c) && same_expr(b, d)
        }
        _ => false,
    }
}

impl Action {
    /// Whether the two actions are the same tree.
    pub fn same(&self, other: &Action) -> bool
        ensures { IsTrue result ↔ (act_of self.now ≡ act_of other.now) }
    {
        match (self, other) {
            (Action::Return(e), Action::Return(f)) => same_expr(e, f),
            (Action::Read(e), Action::Read(f)) => same_expr(e, f),
            (Action::Write(r, e), Action::Write(s, f)) => same_expr(r, s) && same_expr(e, f),
            (Action::Make(t, e), Action::Make(u, f)) => *t == *u && same_expr(e, f),
            (Action::Retry, Action::Retry) => true,
            (Action::Throw(e), Action::Throw(f)) => same_expr(e, f),
            (Action::If(e, a, b), Action::If(f, c, d)) => {
                same_expr(e, f) && a.same(c) && b.same(d)
            }
            (Action::OrElse(a, b), Action::OrElse(c, d)) => a.same(c) && b.same(d),
            (Action::Bind(a, b), Action::Bind(c, d)) => a.same(c) && b.same(d),
            (Action::Let(e, a), Action::Let(f, c)) => same_expr(e, f) && a.same(c),
            (Action::Seq(a, b), Action::Seq(c, d)) => a.same(c) && b.same(d),
            (Action::Catch(a, b), Action::Catch(c, d)) => a.same(c) && b.same(d),
            _ => false,
        }
    }
}
