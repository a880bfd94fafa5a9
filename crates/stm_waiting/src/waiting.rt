//! The blocks that wait, by their tickets.

ghost use Rattle.std.specs.Prelude.{◌≡◌, ◌≢◌, ℕ, ◌++◌, ◌∷◌, [], None, length, IfOk, OnOk, OnErr};
ghost use Rattle.std.specs.Option.{option_copied};
ghost use Rattle.stm_waiting.specs.Entries.{kept_at, kept, lose, with_held, AllBelow, held_reads, first_above};
ghost use Rattle.stm_waiting.specs.FreshReads.{AreFresh, AreFreshFor};

use crate::places::{Slot, fresh_at, held_at, hold_at, hold_reads_at, put, take_at};
use crate::table::Table;
use std::alloc::{AllocError as NoMemory, Global};
use std::marker::Model;
use stm_check::SharedBlock;
use stm_eval::Scratch;
use stm_events::shared_verdict::SharedVerdict;
use stm_log::Reads;
use stm_terms::values::Value;
use stm_terms::verdicts::Verdict;

/// What the last accepted delivery brought.
#[derive(Drop)]
pub struct Held {
    pub reads: Reads,
    pub verdict: SharedVerdict,
}

/// A block that waits, with what its last accepted delivery brought.
#[derive(Drop)]
pub struct Waiting {
    pub block: SharedBlock,
    pub held: Option<Held>,
}

impl Waiting {
    /// What the block read at its last delivery; nothing before there was one.
    pub fn reads(&self) -> &[(u32, Value)]
        ensures { result.now ≡ held_reads self.now.held }
    {
        match &self.held {
            Some(held) => held.reads.as_slice(),
            None => &[],
        }
    }
}

/// The waiting blocks. Each is in a slot, and a table has the place of each ticket's slot. A slot that is left is used again.
/// The memory that they take grows with the most blocks that ever waited at once, and not with the number of tickets.
#[derive(Drop)]
pub struct WaitingBlocks {
    table: Table,
    slots: Vec<Slot>,
    // A place that may be unused; its slot has the next such place.
    free: u32,
    count: usize,
    // Lent for each verdict `Blocks` that is held.
    blocks: Verdict,
}

impl Model for WaitingBlocks {
    ghost use Rattle.std.specs.Prelude.{◌≡◌, List, ℕ};
    ghost use Rattle.std.specs.Coded.{codes};
    ghost use Rattle.stm_terms.specs.TreeEncoding.{act_code};
    ghost use Rattle.stm_terms.specs.declared.verdicts.Verdict.TheVariants.{Blocks};
    ghost use Rattle.stm_waiting.specs.declared.waiting.Waiting.{Waiting as AnyWaiting};
    ghost use Rattle.stm_waiting.specs.Places.{entries_at, AreInPlace};

    ghost Value = { List (ℕ × AnyWaiting) };

    ghost coded = { Prim.hlevel (codes, act_code) };

    ghost view = { λ w. entries_at w.table.places.items w.slots.items };

    ghost invariant = { λ w. AreInPlace w.table.places.items w.slots.items w.count w.blocks };
}

impl WaitingBlocks {
    /// No block waits.
    pub fn empty(alloc: Global) -> WaitingBlocks
        ensures { result ≡ [] }
    {
        WaitingBlocks {
            table: Table::empty(alloc),
            slots: Vec::new(alloc),
            free: 0,
            count: 0,
            blocks: Verdict::Blocks,
        }
    }

    /// How many blocks wait.
    pub fn len(&self) -> usize
        ensures { result ≡ length self.now }
    {
        self.count
    }

    /// The block that waits under a ticket.
    pub fn get(&self, ticket: u32) -> Option<&Waiting>
        ensures { option_copied result ≡ kept_at ticket self.now }
    {
        held_at(&self.slots, self.table.place_of(ticket), ticket)
    }

    /// The verdict that a delivery to one of the blocks brought.
    pub fn verdict<'a>(&'a self, held: &'a Held) -> &'a Verdict
        ensures { result.now ≡ held.now.verdict }
    {
        held.verdict.get(&self.blocks)
    }

    /// The least ticket above this one.
    pub fn first_above(&self, after: u32) -> Option<u32>
        ensures { result ≡ first_above after self.now }
    {
        self.table.next_held(&self.slots, after)
    }

    /// One block more, after the others.
    pub fn insert(&mut self, ticket: u32, block: SharedBlock) -> Result<(), NoMemory>
        requires { AllBelow ticket self.old }
        ensures done { OnOk result (self.new
            ≡ self.old ++ (ticket, record { block = block; held = None }) ∷ []) }
        ensures unchanged { OnErr result (self.new ≡ self.old) }
    {
        self.table.make_room(&self.slots, ticket)?;
        let waiting = Waiting { block, held: None };
        let (place, free) = put(&mut self.slots, self.free, ticket, waiting)?;
        self.table.push(ticket, place);
        self.free = free;
        self.count += 1;
        Ok(())
    }

    /// What a delivery brings to a block that waits.
    // A message is moved by value; a call that isn't inlined copies it.
    #[inline(always)]
    pub fn hold(&mut self, ticket: u32, held: Held)
        requires { kept_at ticket self.old ≢ None }
        ensures { self.new ≡ with_held ticket held self.old }
    {
        let place = self.table.place_of(ticket);
        hold_at(&mut self.slots, place, ticket, held);
    }

    /// The list for `hold_reads` of what was read: none only if the block under the ticket has one of as many reads.
    pub fn fresh_reads(&self, ticket: u32, scratch: &Scratch) -> Result<Option<Reads>, NoMemory>
        ensures { IfOk result (λ fresh. AreFreshFor fresh (kept_at ticket self.now) scratch.now) }
    {
        fresh_at(&self.slots, self.table.place_of(ticket), ticket, scratch)
    }

    /// A verdict of a block that waits, and what was read for it. It takes no memory.
    pub fn hold_reads(
        &mut self,
        ticket: u32,
        fresh: Option<Reads>,
        scratch: &Scratch,
        verdict: SharedVerdict,
    )
        requires waits { kept_at ticket self.old ≢ None }
        requires fresh { AreFreshFor fresh (kept_at ticket self.old) scratch.now }
        ensures { self.new
            ≡ with_held ticket (record { reads = scratch.now; verdict = verdict }) self.old }
    {
        let place = self.table.place_of(ticket);
        hold_reads_at(&mut self.slots, place, ticket, fresh, scratch, verdict);
    }

    /// The block waits no more.
    pub fn remove(&mut self, ticket: u32) -> Option<Waiting>
        ensures was { result ≡ kept_at ticket self.old }
        ensures gone { self.new ≡ lose ticket self.old }
    {
        let place = self.table.place_of(ticket);
        match take_at(&mut self.slots, place, ticket, self.free) {
            Some(waiting) => {
                self.free = place;
                self.count -= 1;
                self.table.shorten(&self.slots, self.count);
                Some(waiting)
            }
            None => None,
        }
    }
}

pub(crate) fn keep(waiting: &mut Waiting, held: Held)
    ensures { waiting.new ≡ kept held waiting.old }
{
    waiting.held = Some(held);
}

/// Keeps a verdict, and what was read: in a fresh list, or in the memory of the list that was kept.
pub(crate) fn keep_reads(
    waiting: &mut Waiting,
    fresh: Option<Reads>,
    scratch: &Scratch,
    verdict: SharedVerdict,
)
    requires { AreFresh fresh waiting.old.held scratch.now }
    ensures { waiting.new
        ≡ kept (record { reads = scratch.now; verdict = verdict }) waiting.old }
{
    match fresh {
        Some(reads) => keep(waiting, Held { reads, verdict }),
        None => match &mut waiting.held {
            Some(held) => keep_in(held, scratch, verdict),
            None => unreachable!(),
        },
    }
}

fn keep_in(held: &mut Held, scratch: &Scratch, verdict: SharedVerdict)
    requires { length held.old.reads ≡ length scratch.now }
    ensures { held.new ≡ record { reads = scratch.now; verdict = verdict } }
{
    scratch.overwrite(&mut held.reads);
    held.verdict = verdict;
}
