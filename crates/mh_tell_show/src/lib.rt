//! The page that shows a run in a browser: its numbers, between the texts that draw them.
//!
//! A page is one file, the numbers of the run between texts that never change. So what is proved of it is what the
//! numbers are. What a browser makes of the texts no clause says: `scripts/check-show` tests it.
//!
//! What deeds don't say is in no picture. Laws say that deeds draw the map of the heap and its dump. Root slots, the
//! cursor and what fields hold are left out. The page writes the roots of an event beside its deeds. Where a quantum
//! leaves the cursor is read off its deeds, by a law of its own.
#![tactic(auto)]

mod before;
pub mod controls;
pub mod drawing;
pub mod event;
mod events;
pub mod laws;
mod names;
mod numbers;
pub mod page;
pub mod rows;
pub mod run;
