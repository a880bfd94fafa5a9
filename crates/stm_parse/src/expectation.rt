//! A text as what a variable is expected to hold.

ghost use Rattle.std.specs.Prelude.{◌≡◌, length, true, IfOk, string_bytes};
ghost use Rattle.std.specs.Str.{IsAscii};
ghost use Rattle.stm_terms.specs.Names.{is_name_text};
ghost use Rattle.stm_terms.specs.ParsedAst.{IsSpan, NamesWithin, raw_term_of};
ghost use Rattle.stm_terms.specs.UnlessNoMemory.{AnswersUnless};
ghost use Rattle.stm_parse.specs.Descent.{whole};
ghost use Rattle.stm_parse.specs.DescentResults.{GivesResult};
ghost use Rattle.stm_parse.specs.ExpectationFunction.{expectation_reader, parsed_expectation};
ghost use Rattle.stm_parse.specs.Expectations.{IsExpectation, expectation_tree_of, expectation_in, expectation_of};
ghost use Rattle.stm_parse.specs.ParseResult.{ReadsByGrammar, ReadsEachText};

use crate::block::{fault_of_failure, lexed};
use crate::cursor::{expect_name, unexpected};
use crate::declaration::{Init, init_of};
use crate::expression::init;
use crate::fault::ParseFault;
use crate::token::{Failure, Lexeme};
use std::alloc::Global;
use stm_terms::{NoMemory, RawExpr, Span};

/// What a variable is expected to hold: its name, and a value or a reference to the variable of a name.
#[derive(Drop)]
pub struct Expectation {
    pub name: String,
    pub value: Init,
}

// A variable's name by its span, and what it is expected to hold.
#[derive(Drop)]
struct RawExpectation {
    name: Span,
    init: RawExpr,
}

fn owned(alloc: Global, text: &str, raw: RawExpectation) -> Result<Expectation, NoMemory>
    requires ascii { IsAscii text.now }
    requires name { IsSpan (length text.now) raw.name.start raw.name.end }
    requires spans { NamesWithin (length text.now) (raw_term_of raw.init) }
    ensures { IfOk result
        (λ d. expectation_of d ≡ expectation_in text.now (expectation_tree_of raw)) }
{
    let name = String::from_str(alloc, &text[raw.name.start..raw.name.end])?;
    let value = init_of(alloc, text, raw.init)?;
    Ok(Expectation { name, value })
}

fn whole_expectation(toks: &[Lexeme]) -> Result<RawExpectation, Failure>
    ensures { GivesResult expectation_tree_of result
        (whole expectation_reader toks.now) }
{
    let (name, rest) = expect_name(toks)?;
    let (init, rest) = init(rest)?;
    if rest.is_empty() {
        Ok(RawExpectation {
            name: name.span(),
            init,
        })
    } else {
        Err(unexpected(rest))
    }
}

/// What a text expects of a variable.
///
/// docs/LANGUAGE.md, "Grammar", has the productions, and "Which grammar error is reported" the order of the faults.
pub fn parse_expectation(alloc: Global, text: &str) -> Result<Expectation, ParseFault>
    // What is read is what a tree of the text stands for, and a fault is the one to be reported.
    ensures right { ReadsByGrammar IsExpectation expectation_in expectation_of text.now result }
    // Each text is read, as what its one tree stands for, unless memory runs out.
    ensures only { ReadsEachText IsExpectation expectation_in expectation_of text.now result }
    // The answer is a function of the text.
    ensures answer { AnswersUnless ParseFault.NoMemory expectation_of result
        (parsed_expectation text.now) }
    ensures name { IfOk result (λ d. is_name_text (string_bytes d.name) ≡ true) }
{
    let toks = lexed(alloc, text)?;
    match whole_expectation(&toks) {
        Ok(raw) => Ok(owned(alloc, text, raw)?),
        Err(stop) => Err(fault_of_failure(&toks, stop)),
    }
}
