//! Why a text is refused.

use std::alloc::{AllocError, AllocFailed};

/// Why a text is no block, no declaration, no expectation, or has no tokens. Places are byte offsets from 0.
///
/// docs/LANGUAGE.md, "Which grammar error is reported", says which one is reported first.
#[derive(Clone, Copy, PartialEq, Eq, Debug)]
pub enum ParseFault {
    /// A byte that begins no token.
    BadByte(usize),
    /// A number of more than 19 digits or greater than 9223372036854775808, or that one outside `(-n)`.
    BadNumber(usize),
    /// A word of more than 32 bytes.
    NameTooLong(usize),
    /// A token with which no text goes on.
    Unexpected(usize),
    /// The tokens end before the text is whole.
    EndOfText,
    /// A token at depth 65, or the ninth `TVar` of a type.
    TooDeep,
    /// A text of more than 65,536 bytes or 4,096 tokens.
    TooLarge,
    /// An allocation was refused.
    NoMemory,
}

impl<T: Drop> From<AllocFailed<T>> for ParseFault {
    ghost use Rattle.std.specs.Prelude.{◌≡◌};
    ghost use Rattle.stm_parse.specs.declared.fault.ParseFault.TheVariants.{NoMemory};

    ghost from_gives = { λ _ e. e ≡ NoMemory };

    fn from(_refused: AllocFailed<T>) -> ParseFault {
        ParseFault::NoMemory
    }
}

impl From<AllocError> for ParseFault {
    ghost use Rattle.std.specs.Prelude.{◌≡◌};
    ghost use Rattle.stm_parse.specs.declared.fault.ParseFault.TheVariants.{NoMemory};

    ghost from_gives = { λ _ e. e ≡ NoMemory };

    fn from(_refused: AllocError) -> ParseFault {
        ParseFault::NoMemory
    }
}
