//! The limits of evaluations and desks, as numbers.

/// How many levels of `orElse` may be evaluated with both branches at once.
pub const MAX_LEVELS: u32 = 8;

/// How many threads may evaluate blocks.
pub const MAX_WORKERS: u32 = 64;

/// How many clients there may be: the number of each is below it.
pub const MAX_CLIENTS: u32 = 128;

/// How many blocks may wait.
pub const MAX_WAITING: usize = 65_536;

/// How many events a history may have.
pub const MAX_EVENTS: u32 = 1_048_576;
