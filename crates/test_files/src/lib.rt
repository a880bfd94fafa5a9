//! Tests of the crates of lines, journals and journaled runs, by calls.
//!
//! What is shown here no program does by a script, and no contract says: that calls succeed, and what files and devices in memory have
//! after them. Each module tests one crate: `journal` `stm_journal`, `lines` `stm_event_lines`, `history_file` `stm_history_file`,
//! `journaled_run` `stm_journaled_run`, and `program` `stm_console`. `disk` is a device that runs out of space.
#![tactic(auto)]

#[cfg(test)]
mod disk;
#[cfg(test)]
mod history_file;
#[cfg(test)]
mod journal;
#[cfg(test)]
mod journaled_run;
#[cfg(test)]
mod lines;
#[cfg(test)]
mod program;
