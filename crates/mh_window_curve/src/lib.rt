//! The minimum mutator utilisation of runs: the least share of the mutator in windows of each length, as a table and
//! as a picture.
//!
//! `points` reads the points of a curve off a trace, and `form` makes a text of them. `script` draws the run of a
//! script, `text` a history of version 2 or a log of pauses. What either writes is exact, and what is promised of all
//! windows is judged beside it.
#![tactic(auto)]

mod drawing;
pub mod end;
pub mod form;
pub mod kind;
mod parts;
pub mod pause_table;
mod picture;
pub mod places;
pub mod point;
pub mod points;
pub mod promises;
pub mod script;
mod skeleton;
mod table;
pub mod tally;
pub mod text;
