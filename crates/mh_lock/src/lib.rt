//! A lock over a value that is seen as its list of entries and an origin, which no call changes. Each seat of it has a
//! log: the entries of its own calls, in order.
//!
//! It keeps the rule of `mh_seat_laws`, and knows nothing of heaps. Each of its steps at the word needs one fact about
//! plain lists (`LockSteps`). At its close the logs are what their seats own (`ClosedLocks`).
#![tactic(auto)]

pub mod entries;
pub mod lock;
pub mod seat;
