//! What an evaluation returns, and what may be relied on wherever it came from.

ghost use Rattle.std.specs.Prelude.{◌≡◌, Some};
ghost use Rattle.std.proofs.Props.{props};
ghost use Rattle.stm_terms.specs.ReadSet.{reads_of};
ghost use Rattle.stm_terms.specs.Verdict.{verdict as verdict_on};
ghost use Rattle.stm_terms.specs.Changes.{of_fragment};

use stm_check::SharedBlock;
use stm_log::Reads;
use stm_terms::verdicts::Verdict;

/// A block under its ticket, what it read, and its verdict.
///
/// Its type keeps that the message is true: on the fragment of what it read, alone, the block has this verdict, and it
/// reads all of that fragment. So it doesn't matter who evaluated the block, nor when, nor on which store.
#[derive(Drop)]
pub struct Evaluated {
    pub(crate) ticket: u32,
    pub(crate) block: SharedBlock,
    pub(crate) reads: Reads,
    pub(crate) verdict: Verdict,
    pub ghost defined: { verdict_on (of_fragment reads) block.tree
        ≡ Some verdict } by { Prim.hlevel props },
    pub ghost all_read: { reads_of (of_fragment reads) block.tree
        ≡ reads } by { Prim.hlevel props },
}
