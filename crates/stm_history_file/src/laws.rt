//! What holds of files and crashes: each function's contract is a law of the definitions, and its body is empty.

ghost use Rattle.stm_history_file.specs.Durable.{AllOrNoneIsResumed, FirstAreResumed, StartIsResumed, OwnStaysOwn};

/// What a crash leaves while events are recorded is loaded again: with `Full` and `Sector`, and with `Append` on a device that fills with
/// zeros. So is a file with just the lines before the events. What a crash leaves while a file is opened isn't foreign, if that one
/// wasn't.
pub fn crashes_are_resumed()
    ensures full { AllOrNoneIsResumed }
    ensures append { FirstAreResumed }
    ensures start { StartIsResumed }
    ensures own { OwnStaysOwn }
{}
