//! The arguments of commands that take a number.

ghost use Rattle.std.specs.Prelude.{◌≡◌};
ghost use Rattle.std.specs.List.{list_all};
ghost use Rattle.stm_parse.specs.Bytes.{is_blank};
ghost use Rattle.stm_lines.specs.NumberArgument.{number_argument};

use stm_parse::bytes::{decimal, is_blank, number_len};

/// The most digits of a number.
const MAX_DIGITS: usize = 10;

fn are_blank(text: &[u8]) -> bool
    ensures { result ≡ list_all is_blank text.now }
{
    text.iter().all(|byte| is_blank(*byte))
}

/// The number that a text is: from one to ten digits, at most 4,294,967,295, followed only by blanks.
#[tactic(auto, unfolding(crate::specs::NumberArgument::number_argument))]
pub fn number_of(text: &[u8]) -> Option<u32>
    ensures { result ≡ number_argument text.now }
{
    let len = number_len(text);
    if len == 0 || len > MAX_DIGITS {
        return None;
    }
    let number = decimal(&text[..len]);
    if number > u32::MAX as u64 || !are_blank(&text[len..]) {
        return None;
    }
    Some(number as u32)
}
