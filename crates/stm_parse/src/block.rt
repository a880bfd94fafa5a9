//! A text as a block.

ghost use Rattle.std.specs.Prelude.{◌≡◌, ◌≢◌, MatchResult, IfOk, IfErr, Err};
ghost use Rattle.std.specs.Str.{IsAscii};
ghost use Rattle.stm_terms.specs.ParsedAst.{raw_act_of};
ghost use Rattle.stm_terms.specs.UnlessNoMemory.{AnswersUnless};
ghost use Rattle.stm_parse.specs.Grammar.{IsBlock};
ghost use Rattle.stm_parse.specs.NameTokens.{NamesOf};
ghost use Rattle.stm_parse.specs.ParseFunction.{parsed_block, parsed_declaration};
ghost use Rattle.stm_parse.specs.ParseResult.{LexesWithinLimits, IsEarly, ReadsTreeByGrammar, ReadsEachTree, fault_of_failure};
ghost use Rattle.stm_parse.specs.Descent.{block_reader, whole};
ghost use Rattle.stm_parse.specs.DescentResults.{GivesResult};

use crate::action::action;
use crate::cursor::unexpected;
use crate::fault::ParseFault;
use crate::lexer::lexemes;
use crate::limits::{DEEPEST, MOST_BYTES, MOST_TOKENS};
use crate::token::{ErrorKind, Failure, Lexeme};
use std::alloc::Global;
use stm_terms::{Raw, RawAction};

/// The tokens of a text that is not too large.
#[tactic(auto, unfolding(crate::specs::ParseResult::most_bytes, crate::specs::ParseResult::most_tokens))]
pub fn lexed(alloc: Global, text: &str) -> Result<Vec<Lexeme>, ParseFault>
    ensures right { MatchResult result (λ v. LexesWithinLimits text.now v.items)
        (λ e. IsEarly text.now e) }
    ensures ascii { IfOk result (λ v. IsAscii text.now) }
    ensures names { IfOk result (λ v. NamesOf text.now v.items) }
    ensures block { IfErr result
        (λ e. e ≢ ParseFault.NoMemory → parsed_block text.now ≡ Err e) }
    ensures declaration { IfErr result
        (λ e. e ≢ ParseFault.NoMemory → parsed_declaration text.now ≡ Err e) }
{
    if text.len() > MOST_BYTES {
        return Err(ParseFault::TooLarge);
    }
    let toks = match lexemes(alloc, text) {
        Ok(toks) => toks,
        Err(fault) => return Err(fault),
    };
    if toks.len() > MOST_TOKENS {
        return Err(ParseFault::TooLarge);
    }
    Ok(toks)
}

// What is reported of the place where the descent stopped.
pub(crate) fn fault_of_failure(toks: &[Lexeme], stop: Failure) -> ParseFault
    ensures { result ≡ fault_of_failure toks.now stop }
{
    let fault = match stop {
        Failure::Memory => return ParseFault::NoMemory,
        Failure::At(fault) => fault,
    };
    match toks.get(toks.len().saturating_sub(fault.left)) {
        None => ParseFault::EndOfText,
        Some(first) => match fault.cause {
            ErrorKind::Unexpected => ParseFault::Unexpected(first.start),
            ErrorKind::TooDeep => ParseFault::TooDeep,
            ErrorKind::BadNumber => ParseFault::BadNumber(first.start),
        },
    }
}

fn whole_block(alloc: Global, toks: &[Lexeme]) -> Result<RawAction, Failure>
    ensures { GivesResult raw_act_of result (whole block_reader toks.now) }
{
    let ((tree, _), rest) = action(alloc, DEEPEST, toks)?;
    if rest.is_empty() {
        Ok(tree)
    } else {
        Err(unexpected(rest))
    }
}

/// The block that a text writes, from the tokens that `lexed` makes of the text.
///
/// docs/LANGUAGE.md, "Grammar", has the productions, and "Which grammar error is reported" the order of the faults.
pub fn parse_tokens(alloc: Global, text: &str, toks: &[Lexeme]) -> Result<Raw, ParseFault>
    requires right { LexesWithinLimits text.now toks.now }
    requires ascii { IsAscii text.now }
    requires names { NamesOf text.now toks.now }
    // What is read is a text of the tree, and a fault is the one to be reported.
    ensures right { ReadsTreeByGrammar IsBlock (λ r. r.tree) text.now result }
    // Each text is read, with its one tree, unless memory runs out.
    ensures only { ReadsEachTree IsBlock (λ r. r.tree) text.now result }
    ensures text { IfOk result (λ r. r.text ≡ text.now) }
    // The answer is a function of the text.
    ensures answer { AnswersUnless ParseFault.NoMemory (λ r. r.tree) result (parsed_block text.now) }
{
    match whole_block(alloc, toks) {
        Ok(action) => {
            let own = String::from_str(alloc, text)?;
            Ok(Raw::of_parts(own, action))
        }
        Err(stop) => Err(fault_of_failure(toks, stop)),
    }
}

/// The block that a text writes.
///
/// docs/LANGUAGE.md, "Grammar", has the productions, and "Which grammar error is reported" the order of the faults.
pub fn parse_block(alloc: Global, text: &str) -> Result<Raw, ParseFault>
    // What is read is a text of the tree, and a fault is the one to be reported.
    ensures right { ReadsTreeByGrammar IsBlock (λ r. r.tree) text.now result }
    // Each text is read, with its one tree, unless memory runs out.
    ensures only { ReadsEachTree IsBlock (λ r. r.tree) text.now result }
    ensures text { IfOk result (λ r. r.text ≡ text.now) }
    // The answer is a function of the text.
    ensures answer { AnswersUnless ParseFault.NoMemory (λ r. r.tree) result (parsed_block text.now) }
{
    let toks = lexed(alloc, text)?;
    parse_tokens(alloc, text, &toks)
}
