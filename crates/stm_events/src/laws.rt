//! What holds after every legal history, as laws of the definitions: each function's contract is one, and its body is
//! empty.

ghost use Rattle.stm_events.specs.declared.staleness.StalenessRule.{StalenessRule as AnyRule};
ghost use Rattle.stm_events.specs.Headline.{Headline, HeadlineBy};
ghost use Rattle.stm_events.specs.HeadlineFrom.{HeadlineFrom};
ghost use Rattle.stm_events.specs.Declaring.{DeclarationsChangeNothing, NamesStay};
ghost use Rattle.stm_events.specs.Labelling.{LabelsChangeNothing, LabelsAreOfWaiting};
ghost use Rattle.stm_events.specs.Ready.{ReadyFinishesNext};
ghost use Rattle.stm_events.specs.Rounds.{SettlingIsRounds};
ghost use Rattle.stm_events.specs.SlowDrain.{DrainsAsSettling};
ghost use Rattle.stm_events.specs.DrainCounts.{DrainingRunsWhatIsDue};
ghost use Rattle.stm_events.specs.Laws.{TicketsRise, BlocksAreCovered, CurrentHolds, StoreIsSerial, WeakIsPresent};
ghost use Rattle.stm_events.specs.Laws.{DeclaredAreCovered, BlocksStay};
ghost use Rattle.stm_events.specs.States.{PossibleStatesStay, VariablesStayCovered, TicketsStay, TypedStatesStay, ObservationsDecide};
ghost use Rattle.stm_events.specs.Answers.{ObservedAnswerAlike};
ghost use Rattle.stm_events.specs.Laws.{WaitingAreWellTyped, StoresAreTyped, BlocksHaveVerdicts};

/// Waiting tickets rise, and are below the next one.
pub fn tickets_rise()
    ensures { TicketsRise }
{}

/// The variables that a waiting block names are there.
pub fn blocks_are_covered()
    ensures { BlocksAreCovered }
{}

/// What a current block did at its delivery, it does on the present store.
pub fn current_holds()
    ensures { CurrentHolds }
{}

/// The store is that of running the finished blocks alone and of making the declared variables, one after another.
pub fn store_is_serial()
    ensures { StoreIsSerial }
{}

/// After every legal history, each waiting block to which something was delivered is marked stale exactly if a block that
/// finished since its last delivery changed a variable that its evaluation read; if it isn't marked so, the verdict of that
/// delivery is the one that running it from scratch on the present store gives; and the store is that of running the
/// finished blocks alone and of making the declared variables, one after another. By the rule of earlier histories the same
/// holds with "wrote" for "changed".
pub fn headline()
    ensures present { Headline }
    ensures by_rule { (R : AnyRule) → HeadlineBy R }
{}

/// A current block's verdict on the present store is that of its last delivery.
pub fn weak_is_present()
    ensures { WeakIsPresent }
{}

/// Settling begins with a round, so it is rounds: all that is new or stale is installed in the order of the tickets, and then
/// the lowest block that doesn't block is finished.
pub fn settling_is_rounds()
    ensures { SettlingIsRounds }
{}

/// Draining finishes the same blocks in the same order with the same verdicts as settling, leads to the same store, and runs no
/// more blocks. What can be observed at the end is the same.
pub fn drains_as_settling()
    ensures { DrainsAsSettling }
{}

/// Draining that comes to rest runs the blocks that are new or stale, and those that its finishes make stale, once each.
pub fn draining_runs_what_is_due()
    ensures { DrainingRunsWhatIsDue }
{}

/// While no block is new or stale, the lowest block that could finish now is the lowest that doesn't block on the present
/// store: the one that settling finishes next.
pub fn ready_finishes_next()
    ensures { ReadyFinishesNext }
{}

/// What the declared variables cover stays covered.
pub fn declared_are_covered()
    ensures { DeclaredAreCovered }
{}

/// A block stays the same as long as it waits under its ticket, and no later one waits under it.
pub fn blocks_stay()
    ensures { BlocksStay }
{}

/// If each block that is submitted is well typed, so is each that waits.
pub fn waiting_are_well_typed()
    ensures { WaitingAreWellTyped }
{}

/// If each block that is submitted is well typed, the store stays well typed.
pub fn stores_are_typed()
    ensures { StoresAreTyped }
{}

/// A well typed block that waits has a verdict on a well typed present store, and the verdict fits it.
pub fn blocks_have_verdicts()
    ensures { BlocksHaveVerdicts }
{}

/// The state in which nothing has happened is one that events may go on from, and so is each that an allowed event leads to.
pub fn possible_states_stay()
    ensures { PossibleStatesStay }
{}

/// The variables that a state covers stay covered.
pub fn covered_stay()
    ensures { VariablesStayCovered }
{}

/// A ticket stays that of its block, over every event.
pub fn tickets_stay()
    ensures { TicketsStay }
{}

/// The store and the waiting blocks stay well typed if each block that is submitted is well typed.
pub fn typed_states_stay()
    ensures { TypedStatesStay }
{}

/// Two states of which the same can be observed allow the same events, and after them the same can be observed.
pub fn observations_decide()
    ensures { ObservationsDecide }
{}

/// Two states of which the same can be observed give the same answers.
pub fn observed_answer_alike()
    ensures { ObservedAnswerAlike }
{}

/// The headline over a history that begins from any state that events may go on from.
pub fn headline_from()
    ensures { HeadlineFrom }
{}

/// A variable that is declared makes no block stale and changes no verdict.
pub fn declarations_change_nothing()
    ensures { DeclarationsChangeNothing }
{}

/// A name keeps its number, and a text that the check accepts stays the same block, over every event.
pub fn names_stay()
    ensures { NamesStay }
{}

/// A label changes nothing of the state.
pub fn labels_change_nothing()
    ensures { LabelsChangeNothing }
{}

/// Only waiting blocks have labels: a label goes when its block finishes or is cancelled.
pub fn labels_are_of_waiting()
    ensures { LabelsAreOfWaiting }
{}
