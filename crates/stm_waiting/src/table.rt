//! The table from tickets to the places of their slots.
//!
//! A ticket is listed when its block is inserted. When the block leaves, it stays listed, and its slot has no block or another ticket's.
//! `shorten` drops such tickets when they are many. So the table grows with the number of blocks that wait, and not with the number of
//! tickets that were ever given.

ghost use Rattle.std.specs.Prelude.{◌≡◌, ◌+◌, ◌*◌, ◌<◌, ◌≤◌, [], ◌++◌, ◌∷◌, length, IfSome, IsTrue, OnOk};
ghost use Rattle.std.specs.List.{filter};
ghost use Rattle.std.specs.Vec.{vec_len, vec_capacity};
ghost use Rattle.stm_waiting.specs.Entries.{AllBelow, first_above};
ghost use Rattle.stm_waiting.specs.Places.{AscendFrom, PlacesAreBelow, IsCountUpTo, place_in, entries_at, ticket_at, first_listed, is_used};

use crate::places::{Slot, held_at};
use std::alloc::{AllocError as NoMemory, Global};

/// A ticket, and the place of its slot. The slot is the ticket's only if it has the ticket's number.
#[derive(Clone, Copy)]
pub(crate) struct TicketPlace {
    pub(crate) ticket: u32,
    pub(crate) place: u32,
}

/// The places of the tickets under which blocks wait, in ascending order of the tickets, and of some whose blocks have left.
#[derive(Drop)]
pub(crate) struct Table {
    pub(crate) places: Vec<TicketPlace>,
    // By how much the last ticket exceeds its index, and each ticket before it up to one that is missing. It is only a guess: if it is
    // wrong, a ticket is searched for.
    pub(crate) shift: usize,
}

/// The table lists at most this many tickets whose blocks have left, beside as many as blocks wait.
const SPARE: usize = 1_024;

/// How many of the tickets are at most this one.
fn searched_count(places: &[TicketPlace], ticket: u32) -> usize
    requires { AscendFrom 0 places.now }
    ensures { IsCountUpTo ticket places.now result }
{
    places.partition_point(|one| one.ticket <= ticket)
}

/// The place of a ticket, or 0.
fn searched_place(places: &[TicketPlace], ticket: u32) -> u32
    requires { AscendFrom 0 places.now }
    ensures { result ≡ place_in ticket places.now }
{
    let count = searched_count(places, ticket);
    if count == 0 {
        return 0;
    }
    let one = places[count - 1];
    if one.ticket == ticket { one.place } else { 0 }
}

/// Whether the ticket is above all in the table.
fn is_above_all(places: &[TicketPlace], ticket: u32) -> bool
    requires { AscendFrom 0 places.now }
    ensures { IsTrue result → PlacesAreBelow ticket places.now }
{
    match places.last() {
        Some(last) => last.ticket < ticket,
        None => true,
    }
}

/// Whether a block waits under the ticket.
fn is_used(one: &TicketPlace, slots: &[Slot]) -> bool
    ensures { result ≡ is_used slots.now one.now }
{
    held_at(slots, one.place, one.ticket).is_some()
}

/// Drops the tickets whose blocks have left.
fn drop_unused(places: &mut Vec<TicketPlace>, slots: &[Slot])
    ensures { places.new.items ≡ filter (is_used slots.now) places.old.items }
{
    places.retain(|one| is_used(one, slots));
}

/// Drops the tickets whose blocks have left, unless this ticket is above all.
fn drop_unused_above(places: &mut Vec<TicketPlace>, slots: &[Slot], ticket: u32)
    requires ascend { AscendFrom 0 places.old.items }
    requires last { AllBelow ticket (entries_at places.old.items slots.now) }
    ensures ascend { AscendFrom 0 places.new.items }
    ensures last { PlacesAreBelow ticket places.new.items }
    ensures same { entries_at places.new.items slots.now ≡ entries_at places.old.items slots.now }
    ensures short { length places.new.items ≤ length places.old.items }
{
    if !is_above_all(places, ticket) {
        drop_unused(places, slots);
    }
}

impl Table {
    /// No ticket.
    pub(crate) fn empty(alloc: Global) -> Table
        ensures { result.places.items ≡ [] }
    {
        Table {
            places: Vec::new(alloc),
            shift: 0,
        }
    }

    /// The index of a ticket if `shift` leads to it.
    #[inline(always)]
    fn recent(&self, ticket: u32) -> Option<usize>
        ensures { IfSome result (λ i. (i < length self.now.places.items)
            × (ticket_at i self.now.places.items ≡ ticket)) }
    {
        let guess = (ticket as usize).wrapping_sub(self.shift);
        if guess < self.places.len() && self.places[guess].ticket == ticket {
            Some(guess)
        } else {
            None
        }
    }

    /// The place of a ticket, or 0.
    #[inline(always)]
    pub(crate) fn place_of(&self, ticket: u32) -> u32
        requires { AscendFrom 0 self.now.places.items }
        ensures { result ≡ place_in ticket self.now.places.items }
    {
        match self.recent(ticket) {
            Some(at) => self.places[at].place,
            None => searched_place(&self.places, ticket),
        }
    }

    /// The least ticket above `after` under which a block waits.
    pub(crate) fn next_held(&self, slots: &[Slot], after: u32) -> Option<u32>
        requires { AscendFrom 0 self.now.places.items }
        ensures { result ≡ first_above after (entries_at self.now.places.items slots.now) }
    {
        let start = self.count_up_to(after);
        first_used(&self.places[start..], slots)
    }

    /// How many of the tickets are at most this one.
    fn count_up_to(&self, ticket: u32) -> usize
        requires { AscendFrom 0 self.now.places.items }
        ensures { IsCountUpTo ticket self.now.places.items result }
    {
        match self.recent(ticket) {
            Some(at) => at + 1,
            None => searched_count(&self.places, ticket),
        }
    }

    /// Makes room for a ticket after the others.
    pub(crate) fn make_room(&mut self, slots: &[Slot], ticket: u32) -> Result<(), NoMemory>
        requires ascend { AscendFrom 0 self.old.places.items }
        requires last { AllBelow ticket (entries_at self.old.places.items slots.now) }
        ensures ascend { AscendFrom 0 self.new.places.items }
        ensures last { PlacesAreBelow ticket self.new.places.items }
        ensures same { entries_at self.new.places.items slots.now ≡ entries_at self.old.places.items slots.now }
        ensures short { length self.new.places.items ≤ length self.old.places.items }
        ensures room { OnOk result (vec_len self.new.places < vec_capacity self.new.places) }
    {
        drop_unused_above(&mut self.places, slots, ticket);
        self.places.reserve(1)
    }

    /// Lists a ticket after the others. The caller has made room for it.
    pub(crate) fn push(&mut self, ticket: u32, place: u32)
        requires { vec_len self.old.places < vec_capacity self.old.places }
        ensures { self.new.places.items ≡ self.old.places.items ++ record { ticket = ticket; place = place } ∷ [] }
    {
        self.shift = (ticket as usize).wrapping_sub(self.places.len());
        self.places.push_reserved(TicketPlace { ticket, place });
    }

    /// Drops the tickets whose blocks have left if they are more than the blocks that wait and `SPARE` together: then they are more than
    /// half of those listed.
    pub(crate) fn shorten(&mut self, slots: &[Slot], count: usize)
        requires ascend { AscendFrom 0 self.old.places.items }
        requires counted { count ≡ length (entries_at self.old.places.items slots.now) }
        ensures ascend { AscendFrom 0 self.new.places.items }
        ensures same { entries_at self.new.places.items slots.now ≡ entries_at self.old.places.items slots.now }
        ensures short { length self.new.places.items ≤ 2 * count + 1024 }
    {
        let unused = self.places.len().saturating_sub(count);
        if unused > count.saturating_add(SPARE) {
            drop_unused(&mut self.places, slots);
            self.shift = shift_of(&self.places);
        }
    }
}

/// By how much the last ticket exceeds its index.
fn shift_of(places: &[TicketPlace]) -> usize {
    match places.last() {
        Some(last) => (last.ticket as usize + 1).wrapping_sub(places.len()),
        None => 0,
    }
}

/// The first of these tickets under which a block waits.
fn first_used(places: &[TicketPlace], slots: &[Slot]) -> Option<u32>
    ensures { result ≡ first_listed (entries_at places.now slots.now) }
{
    for one in places {
        if is_used(one, slots) {
            return Some(one.ticket);
        }
    }
    None
}
