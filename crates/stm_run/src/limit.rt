//! How many events a desk takes.

ghost use Rattle.std.specs.Prelude.{◌≡◌, ◌≤◌};
ghost use Rattle.stm_terms.specs.Limits.{max_events};

use std::marker::Model;

/// How many events a desk takes, at most `stm_desk::Desk::MAX_EVENTS`. Contracts see the number.
#[derive(Drop)]
pub struct EventLimit {
    events: u32,
}

impl Model for EventLimit {
    ghost use Rattle.std.specs.Prelude.{ℕ, ◌≤◌};
    ghost use Rattle.stm_terms.specs.Limits.{max_events};

    ghost Value = { ℕ };

    ghost view = { λ l. l.events };

    ghost invariant = { λ l. l.events ≤ max_events };
}

impl EventLimit {
    /// A limit of this many events.
    pub fn new(events: u32) -> EventLimit
        requires { events ≤ max_events }
        ensures { result ≡ events }
    {
        EventLimit { events }
    }

    /// How many events there may be.
    pub fn events(&self) -> u32
        ensures events { result ≡ self.now }
        ensures few { self.now ≤ max_events }
    {
        self.events
    }
}
