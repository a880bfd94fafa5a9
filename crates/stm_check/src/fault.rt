//! What is wrong with a block's names and types.

use std::alloc::AllocFailed;
use stm_terms::NoMemory;

/// The first fault of a block, with its place in the text, in bytes from 0 (docs/LANGUAGE.md, "Type errors").
///
/// Parts are checked from left to right, each before the judgement on it.
#[derive(Clone, Copy, PartialEq, Eq, Debug)]
pub enum TypeFault {
    /// A name that is neither a local in scope nor a declared variable.
    Unknown(usize),
    /// An operand, a written value, a thrown value, a condition or a second branch of a wrong type.
    Mismatch(usize),
    /// What is read or written isn't a reference to a variable.
    NotAVariable(usize),
    /// What is bound never returns.
    Untyped(usize),
    /// A new variable would hold values of a type with more than 8 `TVar`.
    TypeTooDeep(usize),
    NoMemory,
}

impl<T: Drop> From<AllocFailed<T>> for TypeFault {
    ghost use Rattle.std.specs.Prelude.{◌≡◌};
    ghost use Rattle.stm_check.specs.declared.fault.TypeFault.TheVariants.{NoMemory};

    ghost from_gives = { λ _ e. e ≡ NoMemory };

    fn from(_refused: AllocFailed<T>) -> TypeFault {
        TypeFault::NoMemory
    }
}

impl From<NoMemory> for TypeFault {
    ghost use Rattle.std.specs.Prelude.{◌≡◌};
    ghost use Rattle.stm_check.specs.declared.fault.TypeFault.TheVariants.{NoMemory};

    ghost from_gives = { λ _ e. e ≡ NoMemory };

    fn from(_refused: NoMemory) -> TypeFault {
        TypeFault::NoMemory
    }
}
