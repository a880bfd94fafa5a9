//! What typing promises, as laws of the definitions: each function's contract is one, and its body is empty.

ghost use Rattle.stm_check.specs.Laws.{Progress, Preservation, Weakening, VerdictFits, CheckIsExact, CheckErrsExactly, CheckNeverSaysNoMemory, Strengthening, UsesAreDistinct, LaterNamesChangeUnknown, CheckedStay};

/// A well typed action has an outcome in every well typed view that has its variables.
pub fn progress()
    ensures { Progress }
{}

/// What a well typed action returns has its type, and the view that it leaves is well typed.
pub fn preservation()
    ensures { Preservation }
{}

/// Typing is kept when more variables are known.
pub fn weakening()
    ensures { Weakening }
{}

/// A well typed block has a verdict on every well typed store that covers its variables, and it fits that store.
pub fn verdict_fits()
    ensures { VerdictFits }
{}

/// The check accepts a parsed tree exactly if it resolves to a tree that has a type, and gives that tree and type.
pub fn check_is_exact()
    ensures { CheckIsExact }
{}

/// The check reports a fault exactly if no tree that the parsed one resolves to has a type.
pub fn check_errs_exactly()
    ensures { CheckErrsExactly }
{}

/// A block keeps its type if only the variables that it names are known.
pub fn strengthening()
    ensures { Strengthening }
{}

/// The variables that a block names, as the check lists them, are distinct: none is listed twice.
pub fn uses_are_distinct()
    ensures { UsesAreDistinct }
{}

/// A fault that the definition of the check reports is one of the text, and never an out-of-memory error.
pub fn check_never_says_no_memory()
    ensures { CheckNeverSaysNoMemory }
{}

/// Names that are declared later change what the check finds only if it stopped at an unknown name.
pub fn later_names_change_unknown()
    ensures { LaterNamesChangeUnknown }
{}

/// A block that the check accepts stays what it is if more names are known.
pub fn checked_stay()
    ensures { CheckedStay }
{}
