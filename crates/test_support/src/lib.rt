//! What tests share: hooks that hold and count, graphs to mark, devices that fail, the words of a command line, and a process without memory.
#![tactic(auto)]

pub mod environment;
pub mod famine;
pub mod gates;
pub mod graph;
pub mod troubled;
