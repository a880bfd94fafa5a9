//! A set of tickets. The machine keeps in one the blocks that could finish now.

ghost use Rattle.std.specs.Prelude.{◌≡◌, ◌<◌, [], false, OnOk};
ghost use Rattle.stm_queue.specs.SortedTickets.{member, delete, next_after, IsRising};
ghost use Rattle.stm_waiting.specs.TicketSets.{with_if, without_all};

use std::alloc::{AllocError as NoMemory, Global};
use std::collections::VecDeque;
use std::marker::Model;
use stm_queue::sorted::{has_ticket_in, next_in, put_in, take_out};

/// Tickets, ascending. Beside them it keeps room for more: room is got by `make_room` and used by `add_if`, and no other call
/// takes memory.
#[derive(Drop)]
pub struct TicketSet {
    tickets: VecDeque<u32>,
}

impl Model for TicketSet {
    ghost use Rattle.std.specs.Prelude.{◌-◌};
    ghost use Rattle.std.specs.VecDeque.{deque_len, deque_capacity};
    ghost use Rattle.stm_queue.specs.SortedTickets.{IsRising};
    ghost use Rattle.stm_waiting.specs.TicketSets.{TicketsAndRoom};

    ghost Value = { TicketsAndRoom };

    ghost view = { λ s. record {
      tickets = s.tickets.items;
      room = deque_capacity s.tickets - deque_len s.tickets;
    } };

    ghost invariant = { λ s. IsRising s.tickets.items };
}

impl TicketSet {
    /// No ticket.
    pub fn empty(alloc: Global) -> TicketSet
        ensures { result.tickets ≡ [] }
    {
        TicketSet {
            tickets: VecDeque::new(alloc),
        }
    }

    /// The lowest ticket above this one.
    pub fn next_above(&self, after: u32) -> Option<u32>
        ensures next { result ≡ next_after after self.now.tickets }
        ensures rising { IsRising self.now.tickets }
    {
        next_in(&self.tickets, after)
    }

    /// Reserves room for one ticket more.
    pub fn make_room(&mut self) -> Result<(), NoMemory>
        ensures same { self.new.tickets ≡ self.old.tickets }
        ensures room { OnOk result (0 < self.new.room) }
    {
        self.tickets.reserve(1)
    }

    /// One ticket more, if it is wanted.
    pub fn add_if(&mut self, wanted: bool, ticket: u32)
        requires absent { member ticket self.old.tickets ≡ false }
        requires room { 0 < self.old.room }
        ensures { self.new.tickets ≡ with_if wanted ticket self.old.tickets }
    {
        if wanted {
            put_in(&mut self.tickets, ticket);
        }
    }

    /// The ticket isn't in the set any more.
    pub fn remove(&mut self, ticket: u32)
        ensures { self.new.tickets ≡ delete ticket self.old.tickets }
    {
        if has_ticket_in(&self.tickets, ticket) {
            let _ = take_out(&mut self.tickets, ticket);
        }
    }

    /// These tickets aren't in the set any more.
    pub fn remove_all(&mut self, tickets: &[u32])
        ensures { self.new.tickets ≡ without_all tickets.now self.old.tickets }
    {
        // In a herd that becomes stale no block could finish.
        if self.tickets.is_empty() {
            return;
        }
        for ticket in tickets {
            self.remove(*ticket);
        }
    }
}
