//! What the program does on an order or without one, what standard error gets, and the exit statuses.
//!
//! The program `metroheap` has a `main`, which calls `launch`. Neither has a clause. That the program reads standard
//! input and writes standard output is wiring, in both.
//!
//! Standard input and output show no bytes to a contract. Over them the contract of `program`, and those of the calls
//! that it makes, say nothing of what was read or written. They say only that a device failed exactly when it is
//! blamed. The exit status is that of an end which some text has. Over memory they are exact.
#![tactic(auto)]

mod complaints;
pub mod ending;
pub mod errors;
pub mod launch;
mod made;
pub mod program;
pub mod progress;
pub mod prompt;
