//! A text as the declaration of a variable.

ghost use Rattle.std.specs.Prelude.{◌≡◌, ◌≤◌, length, true, IfOk, string_bytes};
ghost use Rattle.std.specs.Str.{IsAscii};
ghost use Rattle.stm_terms.specs.Names.{is_name_text};
ghost use Rattle.stm_terms.specs.ParsedAst.{IsSpan, NamesWithin, raw_term_of};
ghost use Rattle.stm_parse.specs.Declarations.{declaration_tree_of, init_of, declaration_in, declaration_of, parsed_initial};
ghost use Rattle.stm_terms.specs.Limits.{most_refs};
ghost use Rattle.stm_terms.specs.UnlessNoMemory.{AnswersUnless};
ghost use Rattle.stm_parse.specs.Grammar.{IsDeclaration};
ghost use Rattle.stm_parse.specs.ParseFunction.{parsed_declaration};
ghost use Rattle.stm_parse.specs.ParseResult.{ReadsByGrammar, ReadsEachText};
ghost use Rattle.stm_parse.specs.Descent.{declaration_reader, whole};
ghost use Rattle.stm_parse.specs.DescentResults.{GivesResult};

use crate::block::{fault_of_failure, lexed};
use crate::cursor::unexpected;
use crate::fault::ParseFault;
use crate::token::{Failure, Lexeme};
use crate::types::{RawDeclaration, declaration};
use std::alloc::Global;
use stm_terms::{NoMemory, RawExpr, Ty, Value};

/// What a declared variable holds at first: a value, or a reference to the variable of a name, with the place of the name.
#[derive(Drop)]
pub enum Init {
    Literal(Value),
    Name(String, usize),
}

/// The declaration of a variable.
#[derive(Drop)]
pub struct Declaration {
    pub name: String,
    pub ty: Ty,
    pub init: Init,
}

pub(crate) fn init_of(alloc: Global, text: &str, raw: RawExpr) -> Result<Init, NoMemory>
    requires ascii { IsAscii text.now }
    requires spans { NamesWithin (length text.now) (raw_term_of raw) }
    ensures { IfOk result (λ i. parsed_initial i ≡ init_of text.now (raw_term_of raw)) }
{
    match raw {
        RawExpr::Int(n, _) => Ok(Init::Literal(Value::Int(n))),
        RawExpr::Bool(b, _) => Ok(Init::Literal(Value::Bool(b))),
        RawExpr::Unit(_) => Ok(Init::Literal(Value::Unit)),
        RawExpr::Name(name) => Ok(Init::Name(
            String::from_str(alloc, &text[name.start..name.end])?,
            name.start,
        )),
        // No declaration has an operator.
        RawExpr::Bin(_, _, _) => Ok(Init::Literal(Value::Unit)),
    }
}

fn owned(alloc: Global, text: &str, raw: RawDeclaration) -> Result<Declaration, NoMemory>
    requires ascii { IsAscii text.now }
    requires name { IsSpan (length text.now) raw.name.start raw.name.end }
    requires spans { NamesWithin (length text.now) (raw_term_of raw.init) }
    ensures { IfOk result
        (λ d. declaration_of d ≡ declaration_in text.now (declaration_tree_of raw)) }
{
    let name = String::from_str(alloc, &text[raw.name.start..raw.name.end])?;
    let init = init_of(alloc, text, raw.init)?;
    Ok(Declaration {
        name,
        ty: raw.ty,
        init,
    })
}

fn whole_declaration(toks: &[Lexeme]) -> Result<RawDeclaration, Failure>
    ensures gives { GivesResult declaration_tree_of result
        (whole declaration_reader toks.now) }
    ensures few { IfOk result (λ d. d.ty.refs ≤ most_refs) }
{
    let (declared, rest) = declaration(toks)?;
    if rest.is_empty() {
        Ok(declared)
    } else {
        Err(unexpected(rest))
    }
}

/// The declaration that a text writes.
///
/// docs/LANGUAGE.md, "Grammar", has the productions, and "Which grammar error is reported" the order of the faults.
pub fn parse_declare(alloc: Global, text: &str) -> Result<Declaration, ParseFault>
    // What is read is what a tree of the text stands for, and a fault is the one to be reported.
    ensures right { ReadsByGrammar IsDeclaration declaration_in declaration_of text.now result }
    // Each text is read, as what its one tree stands for, unless memory runs out.
    ensures only { ReadsEachText IsDeclaration declaration_in declaration_of text.now result }
    // The answer is a function of the text.
    ensures answer { AnswersUnless ParseFault.NoMemory declaration_of result
        (parsed_declaration text.now) }
    ensures name { IfOk result (λ d. is_name_text (string_bytes d.name) ≡ true) }
    ensures few { IfOk result (λ d. d.ty.refs ≤ most_refs) }
{
    let toks = lexed(alloc, text)?;
    match whole_declaration(&toks) {
        Ok(raw) => Ok(owned(alloc, text, raw)?),
        Err(stop) => Err(fault_of_failure(&toks, stop)),
    }
}
