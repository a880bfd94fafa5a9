//! The program's words.
//!
//! `command_line` judges the words, `file_name` is the name of a file among them, `version` has the version and its line, and
//! `laws` says what holds of the words.
//!
//! What a reader has to believe is in these modules of specs/: `CommandLine` has what words ask for, and `WordLaws` which words
//! are taken and which are refused.
#![tactic(auto)]

pub mod command_line;
pub mod file_name;
pub mod laws;
pub mod version;

pub use command_line::{Request, read_words};
pub use file_name::FileName;
