//! What holds of the events that a console adds, and of its checkpoints.

ghost use Rattle.stm_journaled_run.specs.NewEvents.{CheckpointsFit, LastEventsFit};

/// The last events can be in lines of a history if their values are in range, which reading them shows.
pub(crate) fn last_events_fit()
    ensures { LastEventsFit }
{
    stm_history::laws::checked_are_well_typed();
}

/// So can a checkpoint.
pub(crate) fn checkpoints_fit()
    ensures { CheckpointsFit }
{}
