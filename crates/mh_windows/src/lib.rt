//! Windows of a trace: where each has its least, and what is promised of all.
#![tactic(auto)]

pub mod always;
pub mod floor;
pub mod lowest;
pub mod pause;
pub mod pauses;
pub mod share;
