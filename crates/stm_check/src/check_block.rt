//! The check of a whole block.

ghost use Rattle.std.specs.Prelude.{◌≡◌, ◌≤◌, ◌^◌, [], IfOk, string_bytes, length};
ghost use Rattle.std.specs.Str.{IsAscii};
ghost use Rattle.stm_terms.specs.ParsedAst.{raw_act_of, SpansWithin, actions};
ghost use Rattle.stm_terms.specs.Ast.{act_of};
ghost use Rattle.stm_terms.specs.Typing.{result_type, uses_of};
ghost use Rattle.stm_terms.specs.UnlessNoMemory.{AnswersUnless};
ghost use Rattle.stm_check.specs.CheckFunction.{checked};
ghost use Rattle.stm_check.specs.CheckedBlock.{checked_block};
ghost use Rattle.stm_store.specs.Naming.{known_kinds};

use crate::checker::Checker;
use crate::fault::TypeFault;
use crate::scope::Scope;
use crate::typed::Typed;
use std::alloc::Global;
use stm_store::Names;
use stm_terms::action::Action;
use stm_terms::kinds::Ty;
use stm_terms::raw::RawAction;
use stm_terms::raw_block::Raw;

/// The check of the tree of a text: the tree, the type of its result, and the variables that it names.
fn check_tree(
    alloc: Global,
    known: &Names,
    text: &str,
    raw: &RawAction,
) -> Result<(Action, Option<Ty>, Vec<(u32, Ty)>), TypeFault>
    requires ascii { IsAscii text.now }
    requires spans { SpansWithin (length text.now) (raw_act_of raw.now) }
    requires few { actions (raw_act_of raw.now) ≤ 2 ^ 32 }
    ensures says { AnswersUnless TypeFault.NoMemory (λ r. (act_of r.0, result_type r.1)) result
        (checked known.now text.now [] (raw_act_of raw.now)) }
    ensures uses { IfOk result (λ r. r.2.items ≡ uses_of (known_kinds known.now) (act_of r.0)) }
{
    let mut uses = Vec::new(alloc);
    let checker = Checker {
        alloc,
        known,
        text,
        locals: &Scope::Empty,
    };
    let (action, kind) = checker.check_action(&mut uses, raw)?;
    Ok((action, kind, uses))
}

/// The check of a text, which the block keeps, and its tree.
pub(crate) fn check_raw(
    alloc: Global,
    known: &Names,
    text: String,
    raw: &RawAction,
) -> Result<Typed, TypeFault>
    requires ascii { IsAscii (string_bytes text) }
    requires spans { SpansWithin (length (string_bytes text)) (raw_act_of raw.now) }
    requires few { actions (raw_act_of raw.now) ≤ 2 ^ 32 }
    ensures { AnswersUnless TypeFault.NoMemory (λ b. b) result
        (checked_block known.now (string_bytes text) (raw_act_of raw.now)) }
{
    let (action, kind, uses) = check_tree(alloc, known, text.as_str(), raw)?;
    Ok(Typed::of_checked(action, text, kind, uses))
}

/// The block of a parsed text, well typed, or the first fault from left to right.
///
/// Names are resolved: a local has its number, counted from 0 and from the outermost, and a declared variable its number
/// among the names. Where locals have one name, the innermost is meant; a local hides a declared variable (docs/LANGUAGE.md,
/// "Types"). The fault is the one of docs/LANGUAGE.md, "Type errors", or `NoMemory` if memory ran out before it was found.
pub fn check(alloc: Global, known: &Names, raw: Raw) -> Result<Typed, TypeFault>
    ensures { AnswersUnless TypeFault.NoMemory (λ b. b) result
        (checked_block known.now raw.text raw.tree) }
{
    let (text, action) = raw.into_parts();
    check_raw(alloc, known, text, &action)
}
