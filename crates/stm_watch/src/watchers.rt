//! The tickets that watch one variable.

ghost use Rattle.std.specs.Prelude.{◌≡◌, ℕ, ◌+◌, ◌<◌, ◌&&◌, ◌||◌, ◌++◌, ◌∷◌, [], not, nat_eq, IsTrue, ◌↔◌, IfOk, OnOk, OnErr};
ghost use Rattle.std.specs.Vec.{vec_len, vec_capacity};
ghost use Rattle.stm_queue.specs.SortedTickets.{IsRising, member};

use std::alloc::{AllocError as NoMemory, Global};
use std::collections::VecDeque;
use std::marker::Model;
use stm_queue::sorted::{has_ticket_in, is_above_all, put_in, take_out};

/// No ticket, one, which takes no memory of its own, or any number.
#[derive(Drop)]
pub(crate) enum TicketList {
    Nobody,
    One(u32),
    // Boxed, so that a slot with one ticket is small.
    Many(Box<VecDeque<u32>>),
}

/// Tickets in ascending order.
#[derive(Drop)]
pub(crate) struct Watchers {
    list: TicketList,
}

impl Model for Watchers {
    ghost use Rattle.std.specs.Prelude.{List, ℕ};
    ghost use Rattle.stm_queue.specs.SortedTickets.{IsRising};
    ghost use Rattle.stm_watch.specs.TicketLists.{listed_tickets};

    ghost Value = { List ℕ };

    ghost view = { λ w. listed_tickets w.list };

    ghost invariant = { λ w. IsRising (listed_tickets w.list) };
}

/// A list of two tickets, in ascending order.
fn two(alloc: Global, low: u32, high: u32) -> Result<VecDeque<u32>, NoMemory>
    ensures { IfOk result (λ d. d.items ≡ low ∷ high ∷ []) }
{
    let mut tickets = VecDeque::with_capacity(alloc, 2)?;
    tickets.push_back(low)?;
    tickets.push_back(high)?;
    Ok(tickets)
}

/// Puts a ticket into an ascending list, unless the list has it.
fn put(tickets: &mut VecDeque<u32>, ticket: u32) -> Result<(), NoMemory>
    requires { IsRising tickets.old.items }
    ensures rising { IsRising tickets.new.items }
    ensures ok { OnOk result ((u : ℕ)
        → member u tickets.new.items ≡ (nat_eq u ticket || member u tickets.old.items)) }
    ensures err { OnErr result (tickets.new.items ≡ tickets.old.items) }
{
    if is_above_all(tickets, ticket) {
        tickets.push_back(ticket)?;
        return Ok(());
    }
    if has_ticket_in(tickets, ticket) {
        return Ok(());
    }
    tickets.reserve(1)?;
    put_in(tickets, ticket);
    Ok(())
}

impl Watchers {
    /// No ticket.
    pub(crate) fn nobody() -> Watchers
        ensures { result ≡ [] }
    {
        Watchers {
            list: TicketList::Nobody,
        }
    }

    /// One ticket.
    pub(crate) fn one(ticket: u32) -> Watchers
        ensures { result ≡ ticket ∷ [] }
    {
        Watchers {
            list: TicketList::One(ticket),
        }
    }

    /// Whether there is no ticket.
    pub(crate) fn is_empty(&self) -> bool
        ensures { IsTrue result ↔ (self.now ≡ []) }
    {
        match &self.list {
            TicketList::Nobody => true,
            TicketList::One(_) => false,
            TicketList::Many(tickets) => tickets.is_empty(),
        }
    }

    /// Whether the ticket is among them.
    pub(crate) fn has(&self, ticket: u32) -> bool
        ensures { result ≡ member ticket self.now }
    {
        match &self.list {
            TicketList::Nobody => false,
            TicketList::One(other) => *other == ticket,
            TicketList::Many(tickets) => has_ticket_in(tickets, ticket),
        }
    }

    /// Adds a ticket, unless it is among them.
    pub(crate) fn add(&mut self, alloc: Global, ticket: u32) -> Result<(), NoMemory>
        ensures ok { OnOk result ((u : ℕ)
            → member u self.new ≡ (nat_eq u ticket || member u self.old)) }
        ensures err { OnErr result (self.new ≡ self.old) }
    {
        match &mut self.list {
            TicketList::Nobody => {
                self.list = TicketList::One(ticket);
                Ok(())
            }
            TicketList::One(other) => {
                let other = *other;
                if other == ticket {
                    return Ok(());
                }
                let (low, high) = if other < ticket {
                    (other, ticket)
                } else {
                    (ticket, other)
                };
                self.list = TicketList::Many(Box::new(alloc, two(alloc, low, high)?)?);
                Ok(())
            }
            TicketList::Many(tickets) => put(tickets, ticket),
        }
    }

    /// Removes a ticket. Returns whether it was among them.
    pub(crate) fn remove(&mut self, ticket: u32) -> bool
        ensures was { result ≡ member ticket self.old }
        ensures others { (u : ℕ) → member u self.new ≡ (member u self.old && not (nat_eq u ticket)) }
    {
        match &mut self.list {
            TicketList::Nobody => false,
            TicketList::One(other) => {
                if *other == ticket {
                    self.list = TicketList::Nobody;
                    true
                } else {
                    false
                }
            }
            TicketList::Many(tickets) => take_out(tickets, ticket),
        }
    }

    /// The tickets as a list. `room` holds a single ticket, so that no memory is needed.
    pub(crate) fn into_vec(self, room: Vec<u32>) -> Vec<u32>
        requires empty { room.items ≡ [] }
        requires room { vec_len room < vec_capacity room }
        ensures items { result.items ≡ self }
        ensures rising { IsRising self }
    {
        match self.list {
            TicketList::Nobody => room,
            TicketList::One(ticket) => {
                let mut tickets = room;
                match tickets.push(ticket) {
                    Ok(()) => tickets,
                    Err(_) => unreachable!(),
                }
            }
            TicketList::Many(tickets) => Box::into_inner(tickets).into_vec(),
        }
    }

    /// Appends the tickets to others.
    pub(crate) fn push_to(&self, others: &mut Vec<u32>) -> Result<(), NoMemory>
        ensures pushed { OnOk result (others.new.items ≡ others.old.items ++ self.now) }
        ensures rising { IsRising self.now }
    {
        match &self.list {
            TicketList::Nobody => Ok(()),
            TicketList::One(ticket) => {
                others.push(*ticket)?;
                Ok(())
            }
            TicketList::Many(tickets) => push_all(tickets, others),
        }
    }
}

fn push_all(tickets: &VecDeque<u32>, others: &mut Vec<u32>) -> Result<(), NoMemory>
    ensures { OnOk result (others.new.items ≡ others.old.items ++ tickets.now.items) }
{
    let (front, back) = tickets.as_slices();
    others.extend_from_slice(front)?;
    others.extend_from_slice(back)?;
    Ok(())
}
