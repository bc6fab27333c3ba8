//! What a run does in heaps of other sizes, found by running it: the fewest pages in which no reply is a full heap, what is
//! live, and what is seen of a run in one heap. Each is exactly that of the model's run, and no law is behind it but
//! the law of room, which says what is so of other programs too.
//!
//! `full` has the first event that is answered by a full heap, `tried` tries five triggers in so many pages, `fewest`
//! searches for pages by them, `live` looks at what is live, `seen` at a run in one heap, and `rows` chooses the trigger
//! with which it is looked at.
#![tactic(auto)]

mod class_counts;
pub mod edge;
pub mod fewest;
pub mod full;
mod in_a_row;
pub mod live;
pub mod rows;
mod sample;
pub mod seen;
pub mod tried;
mod watched;
