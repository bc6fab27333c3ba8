//! The rules of the claim word and of the lock as tables of `atomic_table` keep them, and the laws of the model's rules.
//! Each law is what a function with nothing to do ensures.
#![tactic(auto)]

pub mod lock;
mod seat_view;

pub use seat_view::{FoundValue, SeatView};
