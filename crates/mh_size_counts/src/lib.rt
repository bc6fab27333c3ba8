//! Sizes by counts and by a share: numbers that are found without a script.
//!
//! `room` has the fewest pages, with their trigger, in which no program is full that keeps to a rate, whose cycles take
//! so many quanta at most and leave so many pages in use at most. It stands on the law of room. `targets` has the
//! quantum that leaves the mutator a share of each window of a length or longer. `target_text` and `room_text` write
//! these numbers.
#![tactic(auto)]

mod rates;
pub mod room;
pub mod target;
pub mod targets;
pub mod text;
