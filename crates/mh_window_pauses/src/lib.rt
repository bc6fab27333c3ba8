//! Logs of pauses of any collector, and the traces that they mean.
#![tactic(auto)]

pub mod line;
pub mod log;
pub mod reason;
pub mod reasons;
