//! The heap of pages: the commands of sessions over the table and the roots of the collector.
//!
//! `kept` is the heap in terms of pages: each call is the model's step, with its barriers before its write. `paged` is
//! the same heap in terms of what sessions see, as the trait `Heap` asks.
#![tactic(auto)]

mod commands;
mod dump;
pub mod kept;
mod lent;
pub mod paged;
pub mod told;
