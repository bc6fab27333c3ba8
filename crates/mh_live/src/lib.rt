//! Scripts whose lines are answered one by one, as they come.
//!
//! `live` answers a line, and `feed` takes lines from a source and writes their answers to a sink. Lines are answered
//! as the model says. A configuration is answered with nothing, as in a run. So the answers to the lines of a script
//! are the output of its run, if its history has room. In place of a machine the lines may drive a world, the heap that
//! never collects, moves or is full (`growing`).
#![tactic(auto)]

mod answer;
pub mod client;
pub mod feed;
pub mod growing;
pub mod laws;
pub mod listener;
pub mod live;
pub mod names;
