//! Objects of one block or of many: all their parts are made or none, and their fields are read and written where they
//! lie.
//!
//! An object is made by one loop over its parts. `MadeLemmas` says what is left of the model's making after so many
//! parts. It also says that taking them back, from the last to the first and each with the page that it took, gives the
//! table before. `LinkLemmas`: writing children's places one by one is the model's linking. `RoomLemmas`: each full
//! arraylet takes a place of the largest class, so an object with more of them than places is refused.
#![tactic(auto)]

pub mod field;
pub mod group;
mod position;
