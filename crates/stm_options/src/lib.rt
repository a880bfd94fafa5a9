//! The options of a run, of a storm and of an exploration.
//!
//! `options` has those of a run and of a storm, and their defaults; `explore_options` has those of an exploration.
//!
//! What a reader has to believe is in `specs/Options`: the ranges and the defaults of the options of a run and of a storm.
#![tactic(auto)]

pub mod explore_options;
pub mod options;

pub use explore_options::ExploreOptions;
pub use options::Options;
