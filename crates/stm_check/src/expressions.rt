//! The check of expressions.

ghost use Rattle.std.specs.Prelude.{◌≡◌, length};
ghost use Rattle.std.specs.Str.{IsAscii};
ghost use Rattle.stm_terms.specs.Ast.{term_of};
ghost use Rattle.stm_terms.specs.ParsedAst as raw;
ghost use Rattle.stm_terms.specs.ParsedAst.{IsSpan, raw_term_of, place};
ghost use Rattle.stm_check.specs.CheckContext.{CanLookUp, ChecksExpr};

use crate::checker::Checker;
use crate::fault::TypeFault;
use crate::scope::find_local;
use crate::types::{BOOL, INT, UNIT, as_wanted, given, reference_to, same, wanted};
use crate::uses::record_use;
use stm_terms::expr::{Expr, Op};
use stm_terms::kinds::Ty;
use stm_terms::raw::{RawExpr, Span};
use stm_terms::values::Value;

/// Where an expression begins.
pub(crate) fn place(raw: &RawExpr) -> usize
    ensures { result ≡ place (raw_term_of raw.now) }
{
    match raw {
        RawExpr::Int(_, at) => *at,
        RawExpr::Bool(_, at) => *at,
        RawExpr::Unit(at) => *at,
        RawExpr::Name(name) => name.start,
        RawExpr::Bin(_, left, _) => place(left),
    }
}

/// The text of a span.
pub(crate) fn name_at(text: &str, name: Span) -> &str
    requires ascii { IsAscii text.now }
    requires within { IsSpan (length text.now) name.start name.end }
    ensures { result.now ≡ raw.text_at text.now name }
{
    &text[name.start..name.end]
}

impl Checker<'_> {
    /// A name: the innermost local, else a declared variable, which is noted.
    #[tactic(auto, using(crate::proofs::CheckedTyped::kind_found))]
    fn check_name(&self, uses: &mut Vec<(u32, Ty)>, name: Span) -> Result<(Expr, Ty), TypeFault>
        requires { CanLookUp self.now (raw.name name) }
        ensures { ChecksExpr self.now (raw.name name)
            term_of result uses.old.items uses.new.items }
    {
        let text = name_at(self.text, name);
        if let Some((number, kind)) = find_local(self.locals, text) {
            return Ok((Expr::Local(number), kind));
        }
        match self.known.find(text) {
            Some((id, kind)) => {
                record_use(uses, id, kind)?;
                Ok((Expr::Global(id), reference_to(kind)))
            }
            None => Err(TypeFault::Unknown(name.start)),
        }
    }

    /// An operand, boxed as soon as it is whole.
    #[cycle(expressions)]
    fn check_operand(
        &self,
        uses: &mut Vec<(u32, Ty)>,
        raw: &RawExpr,
    ) -> Result<(Box<Expr>, Ty), TypeFault>
        requires { CanLookUp self.now (raw_term_of raw.now) }
        ensures { ChecksExpr self.now (raw_term_of raw.now)
            (λ p. term_of p.value) result uses.old.items uses.new.items }
    {
        let (operand, kind) = self.check_expr(uses, raw)?;
        let operand = Box::new(self.alloc, operand)?;
        Ok((operand, kind))
    }

    /// An operator with its operands.
    #[cycle(expressions)]
    fn check_operator(
        &self,
        uses: &mut Vec<(u32, Ty)>,
        op: Op,
        left: &RawExpr,
        right: &RawExpr,
    ) -> Result<(Expr, Ty), TypeFault>
        requires { CanLookUp self.now (raw.bin op (raw_term_of left.now) (raw_term_of right.now)) }
        ensures { ChecksExpr self.now (raw.bin op (raw_term_of left.now) (raw_term_of right.now))
            term_of result uses.old.items uses.new.items }
    {
        let (a, first) = self.check_operand(uses, left)?;
        if !as_wanted(wanted(op), first) {
            return Err(TypeFault::Mismatch(place(left)));
        }
        let (b, second) = self.check_operand(uses, right)?;
        if !same(second, wanted(op).unwrap_or(first)) {
            return Err(TypeFault::Mismatch(place(right)));
        }
        Ok((Expr::Bin(op, a, b), given(op)))
    }

    /// The expression with its names resolved, and its type.
    #[cycle(expressions)]
    pub(crate) fn check_expr(
        &self,
        uses: &mut Vec<(u32, Ty)>,
        raw: &RawExpr,
    ) -> Result<(Expr, Ty), TypeFault>
        requires { CanLookUp self.now (raw_term_of raw.now) }
        ensures { ChecksExpr self.now (raw_term_of raw.now)
            term_of result uses.old.items uses.new.items }
    {
        match raw {
            RawExpr::Int(n, _) => Ok((Expr::Lit(Value::Int(*n)), INT)),
            RawExpr::Bool(b, _) => Ok((Expr::Lit(Value::Bool(*b)), BOOL)),
            RawExpr::Unit(_) => Ok((Expr::Lit(Value::Unit), UNIT)),
            RawExpr::Name(name) => self.check_name(uses, *name),
            RawExpr::Bin(op, left, right) => self.check_operator(uses, *op, left, right),
        }
    }
}
