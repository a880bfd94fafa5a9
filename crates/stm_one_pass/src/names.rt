//! Names, and the locals.

ghost use Rattle.std.specs.Prelude.{◌≡◌, length, IfSome};
ghost use Rattle.std.specs.Str.{IsAscii};
ghost use Rattle.stm_terms.specs.ParsedAst.{text_at};
ghost use Rattle.stm_parse.specs.Grammar.{span_of};
ghost use Rattle.stm_check.specs.Scopes.{scope, ScopeIsConsistent};

use stm_check::scope::Scope;
use stm_parse::token::Lexeme;

/// The text of a token.
pub(crate) fn text_of<'a>(text: &'a str, token: &Lexeme) -> Option<&'a str>
    requires { IsAscii text.now }
    ensures { IfSome result (λ name. name.now ≡ text_at text.now (span_of token.now)) }
{
    if token.start <= token.end && token.end <= text.len() {
        Some(&text[token.start..token.end])
    } else {
        None
    }
}

/// The number of the next local.
pub(crate) fn next_number(locals: &Scope) -> Option<u32>
    requires { ScopeIsConsistent locals.now }
    ensures { IfSome result (λ n. n ≡ length (scope locals.now)) }
{
    match locals {
        Scope::Empty => Some(0),
        Scope::Local { number, .. } => number.checked_add(1),
    }
}
