//! The status of a waiting block.

use stm_terms::verdicts::Verdict;

/// It is new, or its verdict is stale, or it is current.
#[derive(Clone, Copy)]
pub enum Status<'a> {
    New,
    Stale(&'a Verdict),
    Current(&'a Verdict),
}
