//! What applying a verdict keeps, as laws of the definitions: the body of each function is empty.

ghost use Rattle.stm_store.specs.Laws.{TypesStay, CoveredStay, UnwrittenStay, FittingAreApplied, FittingKeepTypes, FittingKeepStores, OpenedAreDeclared, ChangedDiffer, UnchangedStay};

/// Every verdict leaves the variables that are there, with their types; what was covered stays covered.
pub fn types_stay()
    ensures types { TypesStay }
    ensures covered { CoveredStay }
{}

/// A variable that a verdict doesn't write keeps its value and its count.
pub fn unwritten_stay()
    ensures { UnwrittenStay }
{}

/// A variable that a verdict that fits changes is one whose value is another one afterwards; one that a verdict doesn't
/// change keeps its value and its count.
pub fn changed_differ()
    ensures differ { ChangedDiffer }
    ensures unchanged { UnchangedStay }
{}

/// What a verdict that fits leaves, variable by variable.
pub fn fitting_are_applied()
    ensures { FittingAreApplied }
{}

/// A verdict that fits keeps a store well typed; with room for its new variables, it keeps all that holds of every store.
pub fn fitting_keep_stores()
    ensures types { FittingKeepTypes }
    ensures stores { FittingKeepStores }
{}

/// A store opens with the types and values of its table.
pub fn opened_are_declared()
    ensures { OpenedAreDeclared }
{}
