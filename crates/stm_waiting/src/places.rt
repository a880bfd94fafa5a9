//! Slots for the waiting blocks.
//!
//! A place is the number of a slot, counted from 1; 0 is none. A slot belongs to a ticket only if the ticket's number is in it, so
//! the table of tickets may hold a place that was given to another ticket since, and no invariant has to rule that out.

ghost use Rattle.std.specs.Prelude.{◌≡◌, ℕ, ◌<◌, ◌≤◌, Some, None, false, nat_eq, length, option_map, IsTrue, IfOk, OnOk, OnErr};
ghost use Rattle.std.specs.Option.{option_copied};
ghost use Rattle.std.specs.Vec.{vec_len};
ghost use Rattle.stm_waiting.specs.Entries.{kept};
ghost use Rattle.stm_waiting.specs.FreshReads.{AreFresh, AreFreshFor};
ghost use Rattle.stm_waiting.specs.Places.{waiting_in, with_owned, held_at, OtherTicketsStay};
ghost use Rattle.stm_waiting.specs.declared.places.Slot.{Slot};

use crate::waiting::{Held, Waiting, keep, keep_reads};
use std::alloc::AllocError as NoMemory;
use stm_check::SharedBlock;
use stm_eval::Scratch;
use stm_events::shared_verdict::SharedVerdict;
use stm_log::Reads;

/// A slot. `number` is the ticket of the block in it; in an unused slot it is a place that may be unused too.
#[derive(Drop)]
pub(crate) struct Slot {
    pub(crate) number: u32,
    pub(crate) waiting: Option<Waiting>,
}

/// What the slot holds for this ticket.
fn waiting_in(slot: &Slot, ticket: u32) -> Option<&Waiting>
    ensures { option_copied result ≡ waiting_in ticket slot.now }
{
    if slot.number == ticket {
        slot.waiting.as_ref()
    } else {
        None
    }
}

/// What the slot at this place holds for a ticket.
pub(crate) fn held_at(slots: &[Slot], place: u32, ticket: u32) -> Option<&Waiting>
    ensures { option_copied result ≡ held_at ticket place slots.now }
{
    if place == 0 {
        return None;
    }
    match slots.get(place as usize - 1) {
        Some(slot) => waiting_in(slot, ticket),
        None => None,
    }
}

fn hold_in(slot: &mut Slot, ticket: u32, held: Held)
    ensures number { slot.new.number ≡ slot.old.number }
    ensures waiting { slot.new.waiting ≡ with_owned ticket held slot.old }
{
    if slot.number == ticket {
        match &mut slot.waiting {
            Some(waiting) => keep(waiting, held),
            None => {}
        }
    }
}

/// Keeps what a delivery brought with the block of a ticket at this place.
#[inline(always)]
pub(crate) fn hold_at(slots: &mut Vec<Slot>, place: u32, ticket: u32, held: Held)
    ensures held { held_at ticket place slots.new.items
        ≡ option_map (kept held) (held_at ticket place slots.old.items) }
    ensures others { OtherTicketsStay ticket slots.old.items slots.new.items }
{
    if place != 0 {
        let at = place as usize - 1;
        if at < slots.len() {
            hold_in(&mut slots[at], ticket, held);
        }
    }
}

/// The reads that `keep_reads` is to put into a block: none if it has a list of as many, which is to be used again.
fn fresh_in(waiting: &Waiting, scratch: &Scratch) -> Result<Option<Reads>, NoMemory>
    ensures { IfOk result (λ fresh. AreFresh fresh waiting.now.held scratch.now) }
{
    match &waiting.held {
        Some(held) => {
            if held.reads.len() == scratch.as_slice().len() {
                Ok(None)
            } else {
                Ok(Some(scratch.copy()?))
            }
        }
        None => Ok(Some(scratch.copy()?)),
    }
}

/// The reads that `keep_reads` is to put into the block of a ticket at this place.
pub(crate) fn fresh_at(
    slots: &[Slot],
    place: u32,
    ticket: u32,
    scratch: &Scratch,
) -> Result<Option<Reads>, NoMemory>
    ensures { IfOk result (λ fresh. AreFreshFor fresh (held_at ticket place slots.now) scratch.now) }
{
    match held_at(slots, place, ticket) {
        Some(waiting) => fresh_in(waiting, scratch),
        None => Ok(None),
    }
}

/// Keeps a verdict, and what was read, with the block of a ticket at this place.
pub(crate) fn hold_reads_at(
    slots: &mut Vec<Slot>,
    place: u32,
    ticket: u32,
    fresh: Option<Reads>,
    scratch: &Scratch,
    verdict: SharedVerdict,
)
    requires { AreFreshFor fresh (held_at ticket place slots.old.items) scratch.now }
    ensures held { held_at ticket place slots.new.items
        ≡ option_map (kept (record { reads = scratch.now; verdict = verdict }))
        (held_at ticket place slots.old.items) }
    ensures others { OtherTicketsStay ticket slots.old.items slots.new.items }
{
    if place != 0 {
        let at = place as usize - 1;
        if at < slots.len() {
            hold_reads_in(&mut slots[at], ticket, fresh, scratch, verdict);
        }
    }
}

fn hold_reads_in(
    slot: &mut Slot,
    ticket: u32,
    fresh: Option<Reads>,
    scratch: &Scratch,
    verdict: SharedVerdict,
)
    requires { AreFreshFor fresh (waiting_in ticket slot.old) scratch.now }
    ensures number { slot.new.number ≡ slot.old.number }
    ensures waiting { slot.new.waiting
        ≡ with_owned ticket (record { reads = scratch.now; verdict = verdict }) slot.old }
{
    if slot.number == ticket {
        match &mut slot.waiting {
            Some(waiting) => keep_reads(waiting, fresh, scratch, verdict),
            None => {}
        }
    }
}

fn take_from(slot: &mut Slot, ticket: u32, next: u32) -> Option<Waiting>
    ensures was { result ≡ waiting_in ticket slot.old }
    ensures gone { waiting_in ticket slot.new ≡ None }
    ensures others { (t : ℕ) → nat_eq t ticket ≡ false → waiting_in t slot.new ≡ waiting_in t slot.old }
{
    if slot.number == ticket {
        slot.number = next;
        slot.waiting.take()
    } else {
        None
    }
}

/// Removes and returns the block of a ticket at this place. The unused slot then has the number `next`.
pub(crate) fn take_at(slots: &mut Vec<Slot>, place: u32, ticket: u32, next: u32) -> Option<Waiting>
    ensures was { result ≡ held_at ticket place slots.old.items }
    ensures gone { held_at ticket place slots.new.items ≡ None }
    ensures others { OtherTicketsStay ticket slots.old.items slots.new.items }
{
    if place == 0 {
        return None;
    }
    let at = place as usize - 1;
    if at < slots.len() {
        take_from(&mut slots[at], ticket, next)
    } else {
        None
    }
}

/// Whether the place has a slot, and nothing is in it.
fn is_unused(slots: &[Slot], place: u32) -> bool
    ensures within { IsTrue result → (0 < place) × (place ≤ length slots.now) }
    ensures unused { IsTrue result → (t : ℕ) → held_at t place slots.now ≡ None }
{
    if place == 0 {
        return false;
    }
    match slots.get(place as usize - 1) {
        Some(slot) => slot.waiting.is_none(),
        None => false,
    }
}

/// Puts a block into the unused slot at this place. Returns the number that the slot had.
fn put_at(slots: &mut Vec<Slot>, place: u32, ticket: u32, waiting: Waiting) -> u32
    requires within { (0 < place) × (place ≤ vec_len slots.old) }
    requires unused { (t : ℕ) → held_at t place slots.old.items ≡ None }
    ensures held { held_at ticket place slots.new.items ≡ Some waiting }
    ensures others { OtherTicketsStay ticket slots.old.items slots.new.items }
{
    let slot = Slot {
        number: ticket,
        waiting: Some(waiting),
    };
    let at = place as usize - 1;
    let next = slots[at].number;
    slots[at] = slot;
    next
}

/// Puts a block into a new slot after the others. Returns its place.
fn put_last(slots: &mut Vec<Slot>, ticket: u32, waiting: Waiting) -> Result<u32, NoMemory>
    ensures held { IfOk result (λ p. held_at ticket p slots.new.items ≡ Some waiting) }
    ensures others { OnOk result (OtherTicketsStay ticket slots.old.items slots.new.items) }
    ensures err { OnErr result (slots.new.items ≡ slots.old.items) }
{
    let len = slots.len();
    if len >= u32::MAX as usize {
        return Err(NoMemory);
    }
    slots.push(Slot {
        number: ticket,
        waiting: Some(waiting),
    })?;
    Ok(len as u32 + 1)
}

/// Puts a block into an unused slot: the one at `free` if it is unused, else a new one. Returns its place, and a place that may be
/// unused.
pub(crate) fn put(
    slots: &mut Vec<Slot>,
    free: u32,
    ticket: u32,
    waiting: Waiting,
) -> Result<(u32, u32), NoMemory>
    ensures held { IfOk result (λ r. held_at ticket r.0 slots.new.items ≡ Some waiting) }
    ensures others { OnOk result (OtherTicketsStay ticket slots.old.items slots.new.items) }
    ensures err { OnErr result (slots.new.items ≡ slots.old.items) }
{
    if is_unused(slots, free) {
        let next = put_at(slots, free, ticket, waiting);
        return Ok((free, next));
    }
    let place = put_last(slots, ticket, waiting)?;
    Ok((place, 0))
}
