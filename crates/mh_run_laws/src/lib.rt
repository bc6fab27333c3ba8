//! The laws of runs, beside the world of their commands and what the heap shows of it. They are laws of traces too: of the
//! windows of a trace, and of one whose beginning was forgotten.
//! Each is what a function with nothing to do ensures. They speak of the machine of the model, and not yet of code.
#![tactic(auto)]

pub mod beside_the_world;
pub mod bounds;
pub mod following;
pub mod forgetting;
pub mod forwarders;
pub mod grey_room;
pub mod replays;
pub mod showing;
pub mod utilisation;
pub mod windows;
pub mod worlds;
