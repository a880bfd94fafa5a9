//! The tokens of a text (docs/LANGUAGE.md, "Tokens").

ghost use Rattle.std.specs.Prelude.{◌≡◌, length, map, IfOk, IfErr, Ok};
ghost use Rattle.std.specs.Str.{IsAscii};
ghost use Rattle.stm_terms.specs.UnlessNoMemory.{AnswersUnless};
ghost use Rattle.stm_parse.specs.Lexing.{class_of, token_of};
ghost use Rattle.stm_parse.specs.Tokenizer.{tokens_of, SpansRise, IsTokenFault};

use crate::fault::ParseFault;
use crate::lexer::lexemes;
use crate::token::{Lexeme, TokenKind};
use std::alloc::Global;

/// What a token is written with: letters first, digits, or a symbol.
#[derive(Clone, Copy, PartialEq, Eq, Debug)]
pub enum TokenClass {
    Word,
    Number,
    Symbol,
}

/// A token, by its span in the text.
#[derive(Clone, Copy, PartialEq, Eq, Debug)]
pub struct Token {
    pub kind: TokenClass,
    pub start: usize,
    pub end: usize,
}

// The class of a token that the grammar sees as this.
#[tactic(auto, unfolding(crate::specs::Lexing::class_of))]
fn class_of(sym: TokenKind) -> TokenClass
    ensures { result ≡ class_of sym }
{
    match sym {
        TokenKind::Mark(mark) => {
            if mark.is_word() {
                TokenClass::Word
            } else {
                TokenClass::Symbol
            }
        }
        TokenKind::Number(_) => TokenClass::Number,
        TokenKind::Name => TokenClass::Word,
        TokenKind::Other => TokenClass::Word,
    }
}

// The tokens as callers see them.
fn with_classes(alloc: Global, toks: &[Lexeme]) -> Result<Vec<Token>, ParseFault>
    ensures { AnswersUnless ParseFault.NoMemory (λ v. v.items) result (Ok (map token_of toks.now)) }
{
    let mut out = Vec::with_capacity(alloc, toks.len())?;
    for tok in toks {
        out.push(Token {
            kind: class_of(tok.sym),
            start: tok.start,
            end: tok.end,
        })?;
    }
    Ok(out)
}

/// The tokens of a text, or the first fault by place.
///
/// The faults are `BadByte`, `BadNumber`, `NameTooLong` and `NoMemory`.
pub fn tokens(alloc: Global, text: &str) -> Result<Vec<Token>, ParseFault>
    ensures cuts { AnswersUnless ParseFault.NoMemory (λ v. v.items) result (tokens_of text.now) }
    // So each place of the text is between characters.
    ensures ascii { IfOk result (λ v. IsAscii text.now) }
    ensures rising { IfOk result (λ v. SpansRise 0 (length text.now) v.items) }
    ensures faults { IfErr result IsTokenFault }
{
    let toks = lexemes(alloc, text)?;
    with_classes(alloc, &toks)
}
