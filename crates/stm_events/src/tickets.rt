//! Lists of tickets that many may hold.

ghost use Rattle.std.specs.Prelude.{◌≡◌, IfOk};

use std::alloc::Global;
use std::marker::Model;
use std::sync::Arc;
use stm_terms::{NoMemory, PlainList};

/// Tickets, in their order. Many may hold one list: it is in memory once, and one of no ticket takes none. Contracts see
/// the list.
#[derive(Drop)]
pub struct Tickets {
    // None is the list of no ticket.
    some: Option<Arc<PlainList<u32>, Global>>,
}

impl Model for Tickets {
    ghost use Rattle.std.specs.Prelude.{List, ℕ};
    ghost use Rattle.stm_events.specs.Sharing.{tickets_in};

    ghost Value = { List ℕ };

    ghost view = { λ t. tickets_in t.some };
}

impl Tickets {
    /// Puts a list where many may hold it.
    pub fn new(alloc: Global, tickets: Vec<u32>) -> Result<Tickets, NoMemory>
        ensures { IfOk result (λ t. t ≡ tickets.items) }
    {
        if tickets.is_empty() {
            return Ok(Tickets { some: None });
        }
        Ok(Tickets {
            some: Some(Arc::new(alloc, PlainList::from_vec(tickets))?),
        })
    }

    /// One more hold on the same list.
    pub fn share(&self) -> Result<Tickets, NoMemory>
        ensures { IfOk result (λ t. t ≡ self.now) }
    {
        match &self.some {
            None => Ok(Tickets { some: None }),
            Some(tickets) => Ok(Tickets {
                some: Some(Arc::try_clone(tickets)?),
            }),
        }
    }

    /// The tickets.
    pub fn as_slice(&self) -> &[u32]
        ensures { result.now ≡ self.now }
    {
        match &self.some {
            None => &[],
            Some(tickets) => (**tickets).as_slice(),
        }
    }
}
