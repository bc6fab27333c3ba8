//! Sizes from text to text: a script is run in heaps of other sizes, and what was seen is written, each number exactly.
//!
//! `script` reads the script and writes its sizes, `sizes` makes them, and `lines` writes the lines.
#![tactic(auto)]

pub mod end;
mod lines;
pub mod progress;
pub mod script;
pub mod sizes;
mod text;
