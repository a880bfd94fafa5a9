//! What holds of a desk over all its checkpoints, and of the integers in its history, as laws of the definitions: the body of each
//! function is empty.

ghost use Rattle.stm_desk_laws.specs.IntegerRange.{HistoriesStay64Bit, VerdictsAre64Bit};
ghost use Rattle.stm_desk_laws.specs.Lives.{LivesAreHistories};

/// Over any number of checkpoints and restarts the events of a desk are one legal history, the same can be observed of the desk as if there
/// had been no checkpoint, and its store is that of running all blocks that ever finished alone and of making all declared variables,
/// one after another.
pub fn lives_are_histories()
    ensures { LivesAreHistories }
{}

/// Each value that a verdict returns, writes or throws, and that its new variables have, is in the range of the language, if the literals
/// of its block and the values of the store are.
pub fn verdicts_are_in_range()
    ensures { VerdictsAre64Bit }
{}

/// If the literals of submitted blocks and the first values of variables are in the range of the language, so is each value of a legal
/// history's verdicts and of the stores that it leads to.
pub fn histories_stay_in_range()
    ensures { HistoriesStay64Bit }
{}
