//! What the program can be asked for: its orders, with their options.
//!
//! The crate knows neither `clap` nor a heap. So the crates of texts take their options without loading `clap`, and
//! `mh_command_line`, which reads words, loads no heap.
#![tactic(auto)]

pub mod curve;
pub mod generate_options;
pub mod order;
pub mod profile;
pub mod promises;
pub mod range;
pub mod rates;
pub mod room_options;
pub mod steps;
pub mod target_options;
