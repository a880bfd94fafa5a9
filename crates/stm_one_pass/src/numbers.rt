//! The numbers of literals.

ghost use Rattle.std.specs.Prelude.{◌≡◌, ◌-◌, ◌<◌, ◌≤◌, length, IfSome, Ok, pos, neg_ℤ, true};
ghost use Rattle.stm_terms.specs.ParsedAst.{int};
ghost use Rattle.stm_parse.specs.Grammar.{greatest};
ghost use Rattle.stm_parse.specs.Descent.{in_reach, literal};

use stm_parse::cursor::expect;
use stm_parse::limits::GREATEST_WRITTEN;
use stm_parse::token::{Lexeme, Mark, TokenKind};

/// The number, if it is an `Int`.
#[tactic(auto, unfolding(stm_parse::specs::Grammar::greatest))]
pub(crate) fn whole_number(n: u64) -> Option<i64>
    ensures { IfSome result (λ i. (i ≡ pos n) × (in_reach n ≡ true)) }
{
    if n < GREATEST_WRITTEN {
        Some(n as i64)
    } else {
        None
    }
}

/// The number with a minus, if that is an `Int`.
#[tactic(auto, unfolding(stm_parse::specs::Grammar::greatest))]
fn negated(n: u64) -> Option<i64>
    ensures { IfSome result (λ i. (i ≡ neg_ℤ (pos n)) × (in_reach (n - 1) ≡ true)) }
{
    if n == 0 {
        Some(0)
    } else if n - 1 < GREATEST_WRITTEN {
        Some(-1 - ((n - 1) as i64))
    } else {
        None
    }
}

/// After "(" and a minus: a number and ")".
pub(crate) fn negative(at: usize, toks: &[Lexeme]) -> Option<(i64, &[Lexeme])>
    ensures reads { IfSome result (λ r. literal at toks.now ≡ Ok (int r.0 at, r.1.now)) }
    ensures no_longer { IfSome result (λ r. length r.1.now ≤ length toks.now) }
{
    let Some((first, rest)) = toks.split_first() else {
        return None;
    };
    let TokenKind::Number(n) = first.sym else {
        return None;
    };
    let Some(number) = negated(n) else {
        return None;
    };
    let Ok(after) = expect(Mark::RParen, rest) else {
        return None;
    };
    Some((number, after))
}
