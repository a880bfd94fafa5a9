//! Equality of events.

ghost use Rattle.std.specs.Prelude.{◌≡◌, ◌↔◌, ◌&&◌, IsTrue};

use crate::event::{Event, What};
use crate::tickets::Tickets;
use stm_check::SharedBlock;

/// Whether two lists of numbers are equal.
pub fn same_numbers(one: &[u32], other: &[u32]) -> bool
    ensures { IsTrue result ↔ (one.now ≡ other.now) }
{
    one == other
}

fn same_tickets(one: &Tickets, other: &Tickets) -> bool
    ensures { IsTrue result ↔ (one.now ≡ other.now) }
{
    same_numbers(one.as_slice(), other.as_slice())
}

fn same_block(one: &SharedBlock, other: &SharedBlock) -> bool
    ensures { IsTrue result ↔ (one.now ≡ other.now) }
{
    one.block().same(other.block())
}

fn same_what(one: &What, other: &What) -> bool
    ensures { IsTrue result ↔ (one.now ≡ other.now) }
{
    match (one, other) {
        (
            What::Submitted { ticket, block },
            What::Submitted {
                ticket: other_ticket,
                block: other_block,
            },
        ) => *ticket == *other_ticket && same_block(block, other_block),
        (
            What::Installed { ticket, verdict },
            What::Installed {
                ticket: other_ticket,
                verdict: other_verdict,
            },
        ) => *ticket == *other_ticket && verdict.same(other_verdict),
        (
            What::Finished {
                ticket,
                verdict,
                first_new,
                stale,
            },
            What::Finished {
                ticket: other_ticket,
                verdict: other_verdict,
                first_new: other_first,
                stale: other_stale,
            },
        ) => {
            *ticket == *other_ticket
                && *first_new == *other_first
                && verdict.same(other_verdict)
                && same_tickets(stale, other_stale)
        }
        (
            What::Cancelled { ticket },
            What::Cancelled {
                ticket: other_ticket,
            },
        ) => *ticket == *other_ticket,
        (
            What::Declared { name, kind, value },
            What::Declared {
                name: other_name,
                kind: other_kind,
                value: other_value,
            },
        ) => *kind == *other_kind && *value == *other_value && name.same(other_name),
        (
            What::Labelled { ticket, label },
            What::Labelled {
                ticket: other_ticket,
                label: other_label,
            },
        ) => *ticket == *other_ticket && label.same(other_label),
        _ => false,
    }
}

impl Event {
    /// Whether two events are one: of the same client, with the same fields. Blocks are compared by tree, text, type of the
    /// result, and the variables that they name.
    pub fn same(&self, other: &Event) -> bool
        ensures { IsTrue result ↔ (self.now ≡ other.now) }
    {
        self.client == other.client && same_what(&self.what, &other.what)
    }
}
