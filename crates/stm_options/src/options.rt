//! The options of a run and of a storm.

ghost use Rattle.std.specs.Prelude.{◌≡◌};
ghost use Rattle.stm_options.specs.Options.{default_options};

use stm_terms::limits;

/// How a run works: how many threads evaluate blocks (1 to 64), how deep the branches of `orElse` are evaluated on threads
/// of their own (0 to 8), how many events the desk takes (at most 1,048,576), and at how many events a run with a file makes a
/// checkpoint by itself (1 to 1,048,576). Only the last two change what a run writes.
#[derive(Clone, Copy, PartialEq, Eq, Debug)]
pub struct Options {
    pub workers: u32,
    pub levels: u32,
    pub max_events: u32,
    pub checkpoint_every: u32,
}

impl Options {
    /// The most threads that may evaluate blocks.
    pub const MAX_WORKERS: u32 = limits::MAX_WORKERS;

    /// The deepest branches of `orElse` that may be evaluated on threads of their own.
    pub const MAX_LEVELS: u32 = limits::MAX_LEVELS;

    /// The most events that a desk may take.
    pub const MAX_EVENTS: u32 = limits::MAX_EVENTS;

    /// At how many events a checkpoint is made by default.
    pub const CHECKPOINT_EVERY: u32 = 500_000;

    /// The default options: two threads, no branches on threads of their own, as many events as there may be, and a checkpoint at
    /// 500,000 events.
    pub fn standard() -> Options
        ensures { result ≡ default_options }
    {
        Options {
            workers: 2,
            levels: 0,
            max_events: Options::MAX_EVENTS,
            checkpoint_every: Options::CHECKPOINT_EVERY,
        }
    }
}
