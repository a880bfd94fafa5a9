//! Lines from a reader and texts to a writer, as runs and scripts share them.
//!
//! `line_reader` pulls lines from a reader, by the bytes of a `chunk`; the reader is called by `calls`, which counts each call
//! (`steps`) and bounds how many there are. `command_lines` are the lines of runs and scripts: without a carriage return, and of
//! one that is too long the first bytes. `judging` judges a line before its word is looked at, and `arguments` reads a number.
//! `output` writes a text to its end, or a part from its front. `run_fault` says why reading and writing fail.
//!
//! What a reader has to believe is in these modules of specs/: `Lines` has how an input is cut into lines, `LineClass` how a line
//! is judged, `NumberArgument` which arguments are numbers, and `RunStatus` the exit status of a fault.
#![tactic(auto)]

pub mod arguments;
pub mod calls;
pub mod chunk;
pub mod command_lines;
pub mod judging;
pub mod line_reader;
pub mod output;
pub mod run_fault;
pub mod steps;

pub use line_reader::LineReader;
pub use run_fault::RunFault;
pub use steps::Steps;
