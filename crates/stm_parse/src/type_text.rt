//! A text as a type.

ghost use Rattle.std.specs.Prelude.{◌≤◌, IfOk};
ghost use Rattle.stm_terms.specs.Limits.{most_refs};
ghost use Rattle.stm_terms.specs.UnlessNoMemory.{AnswersUnless};
ghost use Rattle.stm_parse.specs.Descent.{whole};
ghost use Rattle.stm_parse.specs.DescentResults.{GivesResult};
ghost use Rattle.stm_parse.specs.ParseResult.{ReadsTreeByGrammar, ReadsEachTree};
ghost use Rattle.stm_parse.specs.TypeFunction.{IsWholeType, type_reader, parsed_type};

use crate::block::{fault_of_failure, lexed};
use crate::cursor::unexpected;
use crate::fault::ParseFault;
use crate::limits::DEEPEST;
use crate::token::{Failure, Lexeme};
use crate::types::type_within;
use std::alloc::Global;
use stm_terms::Ty;

fn whole_type(toks: &[Lexeme]) -> Result<Ty, Failure>
    ensures gives { GivesResult (λ t. t) result (whole type_reader toks.now) }
    ensures few { IfOk result (λ t. t.refs ≤ most_refs) }
{
    let (ty, rest) = type_within(DEEPEST, 0, toks)?;
    if rest.is_empty() {
        Ok(ty)
    } else {
        Err(unexpected(rest))
    }
}

/// The type that a text writes, read as after the colon of a declaration.
///
/// docs/LANGUAGE.md, "Grammar", has the productions, and "Which grammar error is reported" the order of the faults.
pub fn parse_type(alloc: Global, text: &str) -> Result<Ty, ParseFault>
    // What is read is a text of the type, and a fault is the one to be reported.
    ensures right { ReadsTreeByGrammar IsWholeType (λ t. t) text.now result }
    // Each text is read, with its one type, unless memory runs out.
    ensures only { ReadsEachTree IsWholeType (λ t. t) text.now result }
    // The answer is a function of the text.
    ensures answer { AnswersUnless ParseFault.NoMemory (λ t. t) result (parsed_type text.now) }
    ensures few { IfOk result (λ t. t.refs ≤ most_refs) }
{
    let toks = lexed(alloc, text)?;
    match whole_type(&toks) {
        Ok(ty) => Ok(ty),
        Err(stop) => Err(fault_of_failure(&toks, stop)),
    }
}
