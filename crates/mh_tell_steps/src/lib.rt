//! What each event of a run did, told deed by deed.
//!
//! A deed is finer than a step. A block that is marked through is one deed, and each of its references one more, of
//! one unit each. The first move of a quantum is a deed of 1 and the class, and the forwarding of the roots is one of
//! 144. So each unit stands where the work is. The phase that a step enters is a deed without units, since phases
//! follow at once. A cycle that starts has two, `start` and then `enter phase roots`.
#![tactic(auto)]

pub mod deed_fields;
pub mod entry;
pub mod fields;
pub mod figures;
mod lines;
mod names;
pub mod run;
