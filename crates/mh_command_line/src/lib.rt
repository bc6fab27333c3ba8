//! The command line: from its words to an order, by `clap`.
//!
//! The crate knows `clap` and no heap. Orders and their options are in `mh_orders`, which knows neither. So the
//! crates of texts take their options without loading `clap`.
#![tactic(auto)]

pub mod arguments;
mod asked;
mod command;
mod curve_options;
pub mod fault;
mod generate_options;
mod options;
pub mod order;
pub mod quoted;
mod rates;
mod share;
mod size_options;
mod table;
pub mod version;
pub mod words;
