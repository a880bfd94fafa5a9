//! How many threads evaluate blocks.

ghost use Rattle.std.specs.Prelude.{◌≡◌, ◌≤◌, ◌<◌};
ghost use Rattle.stm_options.specs.declared.options.TheConstants.Options.{MAX_WORKERS, MAX_LEVELS};

/// How many threads evaluate blocks, from 1 to 64, and how deep the branches of `orElse` are evaluated at once, at most 8. No
/// answer depends on either.
#[derive(Clone, Copy)]
pub struct Threading {
    workers: u32,
    levels: u32,
    ghost some_worker: { 0 < workers },
    ghost few_workers: { workers ≤ MAX_WORKERS },
    ghost few_levels: { levels ≤ MAX_LEVELS },
}

impl Threading {
    /// `workers` threads evaluate blocks, with branches evaluated at once to the depth `levels`.
    pub fn new(workers: u32, levels: u32) -> Threading
        requires some_worker { 0 < workers }
        requires few_workers { workers ≤ MAX_WORKERS }
        requires few_levels { levels ≤ MAX_LEVELS }
        ensures workers { result.workers ≡ workers }
        ensures levels { result.levels ≡ levels }
    {
        Threading { workers, levels }
    }

    /// How many threads evaluate blocks.
    pub fn workers(&self) -> u32
        ensures some { 0 < result }
        ensures few { result ≤ MAX_WORKERS }
        ensures value { result ≡ self.now.workers }
    {
        self.workers
    }

    /// How deep the branches of `orElse` are evaluated at once.
    pub fn levels(&self) -> u32
        ensures few { result ≤ MAX_LEVELS }
        ensures value { result ≡ self.now.levels }
    {
        self.levels
    }
}
