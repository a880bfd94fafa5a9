//! The history that ended at the last checkpoint.

ghost use Rattle.std.specs.Prelude.{◌≡◌, ◌-◌, [], take, length};

use std::alloc::Global;
use std::mem::replace;
use stm_events::Event;

/// How many events `let_few_go` drops: more than are added with each call of it.
const FEW: usize = 4;

/// How many places the list may have more than events before their room is given back.
const MOST_SPARE: usize = 65_536;

/// The events of the history that ended at the last checkpoint, as far as they aren't dropped yet. No call reads them. Each call that
/// adds events to the history drops a few of them, the last ones first: a checkpoint that dropped a long list at once would hold up the
/// next answer for tens of milliseconds.
#[derive(Drop)]
pub(crate) struct Past {
    events: Vec<Event>,
}

impl Past {
    /// No events.
    pub(crate) fn none(alloc: Global) -> Past
        ensures { result.events.items ≡ [] }
    {
        Past {
            events: Vec::new(alloc),
        }
    }

    /// Takes all events of a list, and drops those that are left of an earlier one.
    pub(crate) fn take_events(&mut self, events: &mut Vec<Event>)
        ensures all { self.new.events.items ≡ events.old.items }
        ensures none { events.new.items ≡ [] }
    {
        let alloc = *events.allocator();
        self.events = replace(events, Vec::new(alloc));
    }

    /// Drops the last few events, and gives room back from time to time, so that memory is free long before the first events go.
    pub(crate) fn let_few_go(&mut self)
        ensures { self.new.events.items
            ≡ take (length self.old.events.items - FEW) self.old.events.items }
    {
        let events = self.events.len();
        if events > FEW {
            self.events.truncate(events - FEW);
            if self.events.capacity().saturating_sub(events) > MOST_SPARE {
                self.events.shrink_to_fit();
            }
        } else if events > 0 {
            self.events = Vec::new(*self.events.allocator());
        }
    }
}
