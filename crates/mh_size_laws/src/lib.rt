//! The laws of room: what keeps a heap from ever being full: numbers that a runtime can count, or a rate at which its
//! sessions ask for blocks. Each is what a function with nothing to do ensures. They speak of the machine of the model, and not yet of code.
#![tactic(auto)]

pub mod room;
pub mod worlds;
