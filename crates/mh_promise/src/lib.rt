//! What a run promises of its replies, its heap and its trace, and the laws by which it keeps that once they are the machine's.
#![tactic(auto)]

pub mod promise;
pub mod replays;
