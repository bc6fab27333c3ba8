//! The service: one state that nine seats call, one at a time, each with a log of its own calls.
//!
//! It puts a state into the lock of `mh_lock`. The type of what is locked says that it is the replay of its own
//! history. So whatever nine threads do, what comes back at the close is the replay of a legal history. The origin of
//! the lock's value is the configuration of the state. So a service knows at its close that this is the one that it was
//! opened with (`ClosedServices`).
#![tactic(auto)]

mod job;
pub mod seat;
pub mod service;
