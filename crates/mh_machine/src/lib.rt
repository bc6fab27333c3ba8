//! The machine that runs, and the judging of histories by it.
//!
//! What answers events has to prove only that its step is that of the model's machine. `perform` on the heap of pages is
//! the model's step on the pages. The trace gets the letters of the event, and a quantum that is due is the model's.
//! Nothing here knows the promise: `mh_state` cites it for whole runs, by the laws of machines that go on.
#![tactic(auto)]

mod engine;
pub mod entry;
mod executor;
pub mod judge;
pub mod machine;
pub mod reserved;
pub mod same;
