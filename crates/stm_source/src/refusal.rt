//! Why the text of a block or of a declaration is refused.

use stm_check::TypeFault;
use stm_parse::ParseFault;
use stm_store::DeclareError;

/// Why a block or a declaration is refused. Places are in bytes from 0 in the argument.
#[derive(Clone, Copy, PartialEq, Eq, Debug)]
pub enum Refusal {
    Parsing(ParseFault),
    Typing(TypeFault),
    /// The first value of a declaration is a name that isn't declared; its place.
    Unknown(usize),
    Declaring(DeclareError),
}

impl From<ParseFault> for Refusal {
    ghost use Rattle.std.specs.Prelude.{◌≡◌};
    ghost use Rattle.stm_source.specs.declared.refusal.Refusal.TheVariants.{Parsing};

    ghost from_gives = { λ f e. e ≡ Parsing f };

    fn from(fault: ParseFault) -> Refusal {
        Refusal::Parsing(fault)
    }
}

impl From<TypeFault> for Refusal {
    ghost use Rattle.std.specs.Prelude.{◌≡◌};
    ghost use Rattle.stm_source.specs.declared.refusal.Refusal.TheVariants.{Typing};

    ghost from_gives = { λ f e. e ≡ Typing f };

    fn from(fault: TypeFault) -> Refusal {
        Refusal::Typing(fault)
    }
}

impl From<DeclareError> for Refusal {
    ghost use Rattle.std.specs.Prelude.{◌≡◌};
    ghost use Rattle.stm_source.specs.declared.refusal.Refusal.TheVariants.{Declaring};

    ghost from_gives = { λ f e. e ≡ Declaring f };

    fn from(error: DeclareError) -> Refusal {
        Refusal::Declaring(error)
    }
}
