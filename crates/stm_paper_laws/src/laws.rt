//! What the transitions of a block have to do with `run`, as laws of the definitions: the body of each function is empty.

ghost use Rattle.stm_paper_laws.specs.Atomic.{VerdictsAreAtomic, AtomicIsRun};
ghost use Rattle.stm_paper_laws.specs.AtomicRuns.{RunsAreHistories};
ghost use Rattle.stm_paper_laws.specs.Histories.{FinishesAreAtomic, BlockedWait, HistoriesAreAtomic};
ghost use Rattle.stm_paper_laws.specs.Laws.{RunIsReached, ReachedIsRun, EndsOnce, EndsAreSame};

/// The transitions of a well typed block lead to what `run` says.
pub fn run_is_reached()
    ensures { RunIsReached }
{}

/// What the transitions of a well typed block lead to is what `run` says, but for the names of new cells.
pub fn reached_is_run()
    ensures { ReachedIsRun }
{}

/// The transitions of a well typed block come to exactly one end, but for the names of new cells: a return, a throw or a retry.
pub fn ends_once()
    ensures { EndsOnce }
{}

/// Any two ends that the transitions of a well typed block come to are the same but for these names, whatever `run` says.
pub fn ends_are_same()
    ensures { EndsAreSame }
{}

/// A verdict of a well typed block on a well typed store is what `atomic` does with it there: by ARET it leads to the store after the
/// verdict, by ATHROW it leaves the store, and if the block blocks there is no step.
pub fn verdicts_are_atomic()
    ensures { VerdictsAreAtomic }
{}

/// And `atomic` does nothing else with it: each step is to the end that `run` says, but for the names of new cells.
pub fn atomic_is_run()
    ensures { AtomicIsRun }
{}

/// Each block that finishes in a legal history makes one step of `atomic` on the store of that moment, to the store after its event.
pub fn finishes_are_atomic()
    ensures { FinishesAreAtomic }
{}

/// A waiting block whose verdict on the present store is that it blocks has no step of `atomic` there.
pub fn blocked_wait()
    ensures { BlockedWait }
{}

/// A legal history does to the store what its blocks do by `atomic`, one after another in the order in which they finish.
pub fn histories_are_atomic()
    ensures { HistoriesAreAtomic }
{}

/// And what blocks do that run by `atomic`, one after another, a legal history does, whichever names the new cells get: it submits them and
/// finishes them in their order, with the same results and the same stores.
pub fn runs_are_histories()
    ensures { RunsAreHistories }
{}
