//! The laws of the collector and of the commands: each is what a function with nothing to do ensures.
//! They speak of the machine of the model, and not yet of code.
#![tactic(auto)]

pub mod barriers;
pub mod batches;
pub mod bounds;
pub mod commands;
pub mod costs;
pub mod fields;
pub mod forwarders;
pub mod snapshots;
pub mod tables;
