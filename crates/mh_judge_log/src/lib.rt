//! Logs of threads, with an order of their commands that is judged.
//!
//! The order is one that some search has found. Nothing is asked of that search: the order is judged as it stands.
#![tactic(auto)]

pub mod fault;
mod judge;
pub mod judgement;
mod late;
pub mod laws;
pub mod log;
mod order;
mod pending;
pub mod reason;
mod reasons;
pub mod tally;
pub mod texts;
pub mod timed;
