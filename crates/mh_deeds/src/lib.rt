//! Deeds as they are kept while they are done.
//!
//! The crate stands on the model alone, so that all who place, mark, sweep and move can tell their deeds.
#![tactic(auto)]

pub mod account;
pub mod log;
