//! Why a script wasn't read.

use crate::script_fault::ScriptFault;
use stm_lines::RunFault;
use thiserror::Error;

/// Why a script wasn't read.
#[derive(Clone, Copy, Debug, PartialEq, Eq, Error)]
pub enum ReadingFault {
    /// The reader failed, or memory ran out.
    #[error("{0}")]
    Run(RunFault),
    /// The first faulty line, and why it is faulty.
    #[error("{0}")]
    Script(ScriptFault),
}

impl From<RunFault> for ReadingFault {
    ghost use Rattle.std.specs.Prelude.{◌≡◌};
    ghost use Rattle.stm_script.specs.declared.reading_fault.ReadingFault.TheVariants.{Run};

    ghost from_gives = { λ f e. e ≡ Run f };

    fn from(fault: RunFault) -> ReadingFault {
        ReadingFault::Run(fault)
    }
}
