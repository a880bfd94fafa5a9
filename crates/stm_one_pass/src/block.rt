//! The block of a text in one pass.

ghost use Rattle.std.specs.Prelude.{◌≡◌, [], IfSome, Ok};
ghost use Rattle.std.specs.Str.{IsAscii};
ghost use Rattle.stm_terms.specs.Ast.{act_of};
ghost use Rattle.stm_terms.specs.Typing.{result_type, uses_of};
ghost use Rattle.stm_store.specs.Naming.{known_kinds};
ghost use Rattle.stm_parse.specs.NameTokens.{NamesOf};
ghost use Rattle.stm_parse.specs.ParseResult.{LexesWithinLimits};
ghost use Rattle.stm_one_pass.specs.OnePass.{ReadsTree, IsReadFrom};

use crate::actions::action;
use std::alloc::Global;
use stm_check::Typed;
use stm_check::checker::Checker;
use stm_check::scope::Scope;
use stm_parse::limits::DEEPEST;
use stm_parse::token::Lexeme;
use stm_store::Names;
use stm_terms::{Action, Ty};

// The tree of all of the tokens, and the type of its result, none for any.
fn whole_action(
    alloc: Global,
    known: &Names,
    text: &str,
    uses: &mut Vec<(u32, Ty)>,
    toks: &[Lexeme],
) -> Option<(Action, Option<Ty>)>
    requires ascii { IsAscii text.now }
    requires none { uses.old.items ≡ [] }
    ensures tree { IfSome result (λ r.
        ReadsTree known.now text.now toks.now (act_of r.0) (result_type r.1)) }
    ensures uses { IfSome result (λ r. uses.new.items ≡ uses_of (known_kinds known.now) (act_of r.0)) }
{
    let checker = Checker {
        alloc,
        known,
        text,
        locals: &Scope::Empty,
    };
    let Some((action, kind, rest)) = action(&checker, uses, DEEPEST, toks) else {
        return None;
    };
    if !rest.is_empty() {
        return None;
    }
    Some((Box::into_inner(action), kind))
}

/// The block of a text over these names, from the tokens that `stm_parse::lexed` makes of the text; none if the text is refused, or if
/// memory ran out.
///
/// No clause says when there is none: whoever gets none has to parse the tokens and check the tree.
pub fn block_in_one_pass(alloc: Global, known: &Names, text: &str, toks: &[Lexeme]) -> Option<Typed>
    requires right { LexesWithinLimits text.now toks.now }
    requires ascii { IsAscii text.now }
    requires names { NamesOf text.now toks.now }
    ensures { IfSome result (IsReadFrom known.now text.now) }
{
    let mut uses = Vec::new(alloc);
    let Some((action, kind)) = whole_action(alloc, known, text, &mut uses, toks) else {
        return None;
    };
    let Ok(own) = String::from_str(alloc, text) else {
        return None;
    };
    Some(Typed::of_checked(action, own, kind, uses))
}
