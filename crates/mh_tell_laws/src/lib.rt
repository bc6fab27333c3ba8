//! The laws of deeds: those of a run draw the picture of its heap, and the numbers of its cycles add up.
//! Each is what a function with nothing to do ensures.
#![tactic(auto)]

pub mod cycles;
pub mod picture;
