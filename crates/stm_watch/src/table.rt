//! Slots for the tickets that watch a variable, and a table from variables to slots.
//!
//! A place is the number of a slot, counted from 1; 0 is none. A slot belongs to a variable only if the variable's number is in it,
//! so the table may hold a place that was given to another variable since.

ghost use Rattle.std.specs.Prelude.{◌≡◌, ℕ, ◌<◌, ◌≤◌, ◌&&◌, ◌||◌, ◌++◌, ◌∷◌, [], Some, false, not, nat_eq, length, slice_index_or, IsTrue, IfOk, OnOk, OnErr};
ghost use Rattle.std.specs.Vec.{vec_len};
ghost use Rattle.stm_queue.specs.SortedTickets.{IsRising, member};
ghost use Rattle.stm_watch.specs.Tabled.{watchers_in, tickets_at, number_at, OtherVariablesStay};

use crate::watchers::Watchers;
use std::alloc::{AllocError as NoMemory, Global};

/// A slot. `number` is the variable whose tickets are in it; in an unused slot it is a place that may be unused too.
#[derive(Drop)]
pub(crate) struct Slot {
    pub(crate) number: u32,
    pub(crate) watchers: Watchers,
}

/// The tickets of each variable. Those of a watched variable are in a slot, and a table has the place of each variable's slot. A
/// slot that is left is used again.
#[derive(Drop)]
pub(crate) struct Table {
    // By variable: the place of its slot, or 0. The slot is the variable's only if it has the variable's number.
    pub(crate) places: Vec<u32>,
    pub(crate) slots: Vec<Slot>,
    // A place that may be unused; its slot has the next such place.
    pub(crate) free: u32,
}

/// The place that the table has for a variable.
pub(crate) fn place_of(places: &[u32], variable: u32) -> u32
    ensures { result ≡ slice_index_or places.now variable 0 }
{
    match places.get(variable as usize) {
        Some(place) => *place,
        None => 0,
    }
}

/// Whether the place has a slot with tickets of this variable.
pub(crate) fn is_place(slots: &[Slot], place: u32, variable: u32) -> bool
    ensures within { IsTrue result → (0 < place) × (place ≤ length slots.now) }
    ensures number { IsTrue result → number_at place slots.now ≡ Some variable }
    ensures none { result ≡ false → tickets_at variable place slots.now ≡ [] }
{
    if place == 0 {
        return false;
    }
    match slots.get(place as usize - 1) {
        Some(slot) => slot.number == variable && !slot.watchers.is_empty(),
        None => false,
    }
}

/// Whether the place has a slot, and nothing is in it.
fn is_unused(slots: &[Slot], place: u32) -> bool
    ensures within { IsTrue result → (0 < place) × (place ≤ length slots.now) }
    ensures unused { IsTrue result → (v : ℕ) → tickets_at v place slots.now ≡ [] }
{
    if place == 0 {
        return false;
    }
    match slots.get(place as usize - 1) {
        Some(slot) => slot.watchers.is_empty(),
        None => false,
    }
}

/// Whether the ticket is one of the variable's at this place.
pub(crate) fn has_at(slots: &[Slot], place: u32, variable: u32, ticket: u32) -> bool
    ensures { result ≡ member ticket (tickets_at variable place slots.now) }
{
    if place == 0 {
        return false;
    }
    match slots.get(place as usize - 1) {
        Some(slot) => slot.number == variable && slot.watchers.has(ticket),
        None => false,
    }
}

fn add_in(slot: &mut Slot, alloc: Global, ticket: u32) -> Result<(), NoMemory>
    ensures number { slot.new.number ≡ slot.old.number }
    ensures ok { OnOk result ((u : ℕ)
        → member u slot.new.watchers ≡ (nat_eq u ticket || member u slot.old.watchers)) }
    ensures err { OnErr result (slot.new.watchers ≡ slot.old.watchers) }
{
    slot.watchers.add(alloc, ticket)
}

/// Adds a ticket to those of the variable at this place.
pub(crate) fn add_at(
    slots: &mut Vec<Slot>,
    alloc: Global,
    place: u32,
    variable: u32,
    ticket: u32,
) -> Result<(), NoMemory>
    requires within { (0 < place) × (place ≤ vec_len slots.old) }
    requires number { number_at place slots.old.items ≡ Some variable }
    ensures ok { OnOk result ((u : ℕ)
        → member u (tickets_at variable place slots.new.items)
        ≡ (nat_eq u ticket || member u (tickets_at variable place slots.old.items))) }
    ensures others { OtherVariablesStay variable slots.old.items slots.new.items }
    ensures err { OnErr result (tickets_at variable place slots.new.items
        ≡ tickets_at variable place slots.old.items) }
{
    add_in(&mut slots[place as usize - 1], alloc, ticket)
}

/// Puts a variable's first ticket into the unused slot at this place. Returns the number that the slot had.
fn put_at(slots: &mut Vec<Slot>, place: u32, variable: u32, ticket: u32) -> u32
    requires within { (0 < place) × (place ≤ vec_len slots.old) }
    requires unused { (v : ℕ) → tickets_at v place slots.old.items ≡ [] }
    ensures there { tickets_at variable place slots.new.items ≡ ticket ∷ [] }
    ensures others { OtherVariablesStay variable slots.old.items slots.new.items }
{
    let slot = Slot {
        number: variable,
        watchers: Watchers::one(ticket),
    };
    let at = place as usize - 1;
    let next = slots[at].number;
    slots[at] = slot;
    next
}

/// Puts a variable's first ticket into a new slot after the others. Returns its place.
fn put_last(slots: &mut Vec<Slot>, variable: u32, ticket: u32) -> Result<u32, NoMemory>
    ensures there { IfOk result (λ p. tickets_at variable p slots.new.items ≡ ticket ∷ []) }
    ensures others { OnOk result (OtherVariablesStay variable slots.old.items slots.new.items) }
    ensures err { OnErr result (slots.new.items ≡ slots.old.items) }
{
    let len = slots.len();
    if len >= u32::MAX as usize {
        return Err(NoMemory);
    }
    slots.push(Slot {
        number: variable,
        watchers: Watchers::one(ticket),
    })?;
    Ok(len as u32 + 1)
}

/// Puts a variable's first ticket into an unused slot: the one at `free` if it is unused, else a new one. Returns its place, and a
/// place that may be unused.
pub(crate) fn put(
    slots: &mut Vec<Slot>,
    free: u32,
    variable: u32,
    ticket: u32,
) -> Result<(u32, u32), NoMemory>
    ensures there { IfOk result (λ r. tickets_at variable r.0 slots.new.items ≡ ticket ∷ []) }
    ensures others { OnOk result (OtherVariablesStay variable slots.old.items slots.new.items) }
    ensures err { OnErr result (slots.new.items ≡ slots.old.items) }
{
    if is_unused(slots, free) {
        let next = put_at(slots, free, variable, ticket);
        return Ok((free, next));
    }
    let place = put_last(slots, variable, ticket)?;
    Ok((place, 0))
}

/// Makes the table long enough for a variable.
pub(crate) fn reach(places: &mut Vec<u32>, variable: u32) -> Result<(), NoMemory>
    ensures reached { OnOk result (variable < vec_len places.new) }
    ensures same { (v : ℕ) → slice_index_or places.new.items v 0 ≡ slice_index_or places.old.items v 0 }
{
    let len = variable as usize + 1;
    if places.len() < len {
        places.resize(len, 0)?;
    }
    Ok(())
}

fn remove_in(slot: &mut Slot, variable: u32, ticket: u32, next: u32) -> bool
    ensures removed { (u : ℕ) → member u (watchers_in variable slot.new)
        ≡ (member u (watchers_in variable slot.old) && not (nat_eq u ticket)) }
    ensures others { (v : ℕ) → nat_eq v variable ≡ false → watchers_in v slot.new ≡ watchers_in v slot.old }
{
    if slot.number != variable {
        return false;
    }
    if !slot.watchers.remove(ticket) {
        return false;
    }
    if slot.watchers.is_empty() {
        slot.number = next;
        return true;
    }
    false
}

/// Removes a ticket from those of a variable at this place. Returns whether it was the last one; the unused slot then has the number
/// `next`.
pub(crate) fn remove_at(
    slots: &mut Vec<Slot>,
    place: u32,
    variable: u32,
    ticket: u32,
    next: u32,
) -> bool
    ensures removed { (u : ℕ) → member u (tickets_at variable place slots.new.items)
        ≡ (member u (tickets_at variable place slots.old.items) && not (nat_eq u ticket)) }
    ensures others { OtherVariablesStay variable slots.old.items slots.new.items }
{
    if place == 0 {
        return false;
    }
    let at = place as usize - 1;
    if at < slots.len() {
        remove_in(&mut slots[at], variable, ticket, next)
    } else {
        false
    }
}

fn take_from(slot: &mut Slot, variable: u32, next: u32) -> Watchers
    ensures was { result ≡ watchers_in variable slot.old }
    ensures gone { watchers_in variable slot.new ≡ [] }
    ensures others { (v : ℕ) → nat_eq v variable ≡ false → watchers_in v slot.new ≡ watchers_in v slot.old }
{
    if slot.number != variable || slot.watchers.is_empty() {
        return Watchers::nobody();
    }
    slot.number = next;
    std::mem::replace(&mut slot.watchers, Watchers::nobody())
}

/// Removes and returns all tickets of a variable at this place. The unused slot then has the number `next`.
pub(crate) fn take_at(slots: &mut Vec<Slot>, place: u32, variable: u32, next: u32) -> Watchers
    ensures was { result ≡ tickets_at variable place slots.old.items }
    ensures gone { tickets_at variable place slots.new.items ≡ [] }
    ensures others { OtherVariablesStay variable slots.old.items slots.new.items }
{
    if place == 0 {
        return Watchers::nobody();
    }
    let at = place as usize - 1;
    if at < slots.len() {
        take_from(&mut slots[at], variable, next)
    } else {
        Watchers::nobody()
    }
}

/// Appends the tickets of a variable at this place to others.
pub(crate) fn push_at(
    slots: &[Slot],
    place: u32,
    variable: u32,
    others: &mut Vec<u32>,
) -> Result<(), NoMemory>
    ensures pushed { OnOk result (others.new.items
        ≡ others.old.items ++ tickets_at variable place slots.now) }
    ensures rising { IsRising (tickets_at variable place slots.now) }
{
    if place == 0 {
        return Ok(());
    }
    match slots.get(place as usize - 1) {
        Some(slot) => {
            if slot.number == variable {
                slot.watchers.push_to(others)
            } else {
                Ok(())
            }
        }
        None => Ok(()),
    }
}
