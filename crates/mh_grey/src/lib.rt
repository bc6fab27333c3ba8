//! The grey list: the places of blocks that are marked and whose references aren't looked through yet.
//!
//! Shading is by the place of a block. That no place is in the list twice is kept, so the list never lacks room.
#![tactic(auto)]

pub mod grey;
mod order;
