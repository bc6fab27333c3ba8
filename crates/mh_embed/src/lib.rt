//! A machine for programs that keep one behind a handle: an event in, as a line or as numbers, and its reply out. In
//! its place a handle may have a world, the heap that never collects, moves or is full.
//!
//! It answers as the model says, by a line or by numbers: the reply is the machine's, or the world's. Calls on a machine
//! keep the promise of `mh_promise`, by a law of `laws`. It knows of C only how its numbers lie and which number a status
//! has; `metroheap_c` has the handle.
#![tactic(auto)]

pub mod collecting;
pub mod configs;
pub mod deeds;
pub mod driver;
pub mod embedded;
pub mod events;
mod judging;
pub mod laws;
pub mod numbers;
pub mod reasons;
pub mod replied;
pub mod shown;
pub mod status;
