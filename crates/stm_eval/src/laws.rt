//! Laws of what blocks do and read: each function's contract is one, and its body is empty.

ghost use Rattle.stm_eval.specs.Laws.{ReadSetIndependence, StoreToFragment, FragmentToStore, VerdictIsStable, ReadsAgreeWithStore, ReadSetIsExact, OrElseIsAssociative, RetryIsLeftUnit, RetryIsRightUnit, CatchOfThrow, CatchOfReturn, CatchOfRetry, HandlerSeesNoWrites};

/// What an action does depends on the variables that it reads, and on no others. What a discarded left branch read is
/// among them, and what an action read before it threw to its handler.
pub fn read_set_independence()
    ensures { ReadSetIndependence }
{}

/// A block's verdict on a store is its verdict on the fragment of what it read there.
pub fn store_to_fragment()
    ensures { StoreToFragment }
{}

/// A block's verdict on the fragment of what it read is its verdict on each store with these values.
pub fn fragment_to_store()
    ensures { FragmentToStore }
{}

/// A block's verdict and reads on a store are those on each other store that has the values which it read. So a verdict
/// stays right through every change of other variables.
pub fn verdict_is_stable()
    ensures { VerdictIsStable }
{}

/// The reads of a block have the values of the store, and if it has a verdict they are of exactly the variables that it looks at.
pub fn read_set_is_exact()
    ensures values { ReadsAgreeWithStore }
    ensures variables { ReadSetIsExact }
{}

/// `orElse` is associative, in outcome, returned view and reads.
pub fn or_else_is_associative()
    ensures { OrElseIsAssociative }
{}

/// `retry` is the unit of `orElse` on both sides, in outcome, returned view and reads.
pub fn retry_is_unit_of_or_else()
    ensures left { RetryIsLeftUnit }
    ensures right { RetryIsRightUnit }
{}

/// The `catch` of a `throw` is its handler, with the thrown number as its local, in outcome, returned view and reads.
pub fn catch_of_throw()
    ensures { CatchOfThrow }
{}

/// The `catch` of a `return` is the `return`: an overflow in its value passes the handler.
pub fn catch_of_return()
    ensures { CatchOfReturn }
{}

/// The `catch` of a `retry` is the `retry`: a handler doesn't run if the action blocks.
pub fn catch_of_retry()
    ensures { CatchOfRetry }
{}

/// A handler runs in the view from before the action: it sees nothing that the action wrote or made.
pub fn handler_sees_no_writes()
    ensures { HandlerSeesNoWrites }
{}
