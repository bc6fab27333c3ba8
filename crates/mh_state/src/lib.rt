//! The state with its history, and whole runs, which keep the promise.
//!
//! By a law of `mh_promise`, a machine that goes through its events one by one is at each of them the replay of its
//! history, and keeps the promise. `mh_machine` has such a step. `State` keeps beside the machine the history of which
//! it is the replay. `run` cites the law of the promise for its outcome, and for what it did before it stopped. That
//! promise is one record of eleven clauses, so `run`, `State::apply` and a run that stopped early name the same words.
#![tactic(auto)]

pub use mh_machine::{judge, machine};

pub mod copies;
pub mod run;
pub mod state;
