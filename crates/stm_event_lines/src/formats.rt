//! The formats of histories: which are read, which is written, and what may be in each.

ghost use Rattle.std.specs.Prelude.{◌≡◌, ◌↔◌, IsTrue};
ghost use Rattle.stm_event_lines.specs.CheckpointFields.{is_checkpoint_format};
ghost use Rattle.stm_event_lines.specs.CheckpointLines.{IsCheckpointFormat};
ghost use Rattle.stm_event_lines.specs.Fits.{FitsFormat};
ghost use Rattle.stm_event_lines.specs.Lines.{IsFormat, rule_of};

use stm_events::event::{Event, What};
use stm_events::staleness::StalenessRule;

/// The first format, in which no block has a `catch`.
pub const FIRST_FORMAT: u32 = 1;

/// The format that is written of histories that begin with the first values of their variables, declare no variable late and label no
/// block.
pub const TABLE_FORMAT: u32 = 3;

/// The format of histories that begin from a checkpoint, if no variable is declared late, none was before the checkpoint, no block is
/// labelled, and of no block in the checkpoint it is known why it is stale.
pub const CHECKPOINT_FORMAT: u32 = 4;

/// The format of histories in which a variable is declared late, or was before their checkpoint, or a block is labelled, or of a block in
/// the checkpoint it is known why it is stale.
pub const DECLARING_FORMAT: u32 = 5;

/// Whether histories of the format that begin with the first values of their variables are read.
pub(crate) fn is_format(format: u32) -> bool
    ensures { IsTrue result ↔ IsFormat format }
{
    FIRST_FORMAT <= format && format <= TABLE_FORMAT || format == DECLARING_FORMAT
}

/// Whether histories of the format that begin from a checkpoint are read.
pub(crate) fn is_checkpoint_format(format: u32) -> bool
    ensures test { result ≡ is_checkpoint_format format }
    ensures says { IsTrue result ↔ IsCheckpointFormat format }
{
    format == CHECKPOINT_FORMAT || format == DECLARING_FORMAT
}

/// The first format whose histories go by what blocks changed.
const FIRST_BY_CHANGES: u32 = 3;

/// The rule by which the blocks of a history become stale.
pub fn staleness_rule(format: u32) -> StalenessRule
    ensures { result ≡ rule_of format }
{
    if format >= FIRST_BY_CHANGES {
        StalenessRule::Changed
    } else {
        StalenessRule::Written
    }
}

/// Whether the event may be in a history of the format.
pub fn fits_format(format: u32, event: &Event) -> bool
    ensures { IsTrue result ↔ FitsFormat format event.now }
{
    match &event.what {
        What::Submitted { block, .. } => {
            format != FIRST_FORMAT || !block.block().action().has_catch()
        }
        What::Installed { .. } => true,
        What::Finished { .. } => true,
        What::Cancelled { .. } => true,
        What::Declared { .. } => format == DECLARING_FORMAT,
        What::Labelled { .. } => format == DECLARING_FORMAT,
    }
}
