//! The limits that the system sets to the program.

use std::fs::File;
use std::os::unix::fs::FileExt;

/// Where the system says them, one a line: name, soft limit, hard limit, unit.
const LIMITS: &str = "/proc/self/limits";

/// The name of the limit of the stack, which is in bytes.
const STACK: &str = "Max stack size";

/// How many bytes of the limits are read.
const MOST: usize = 4_096;

/// How many KiB of stack a legal block may need.
pub const NEEDED: u64 = 2_048;

/// The limit of the stack in KiB if it is less than `NEEDED`, as far as the system says.
pub fn low_stack_limit(rt: &HostRuntime) -> Option<u64> {
    let mut buffer = [0u8; MOST];
    let count = File::open(rt, LIMITS).ok()?.read_at(&mut buffer, 0).ok()?;
    let limits = str::from_utf8(&buffer[..count]).ok()?;
    let line = limits.lines().find(|line| line.starts_with(STACK))?;
    let bytes = line[STACK.len()..].split_ascii_whitespace().next()?;
    let kib = bytes.parse::<u64>().ok()? / 1_024;
    (kib < NEEDED).then_some(kib)
}
