//! A line for each cycle of a run: when it ran and why, what it spent and did, and what was in the heap before and after
//! it. That its numbers add up is a law of `mh_tell_laws`.
#![tactic(auto)]

mod line;
pub mod run;
mod tally;
mod underway;
mod watch;
