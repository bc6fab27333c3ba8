//! The collector: quanta, which take steps of one phase after another, the start of a cycle, and the barriers.
//!
//! A quantum takes steps while the next one's cost fits in what is left of it. Marking is by snapshot at the beginning
//! (Yuasa 1990): the deletion barrier shades what a write is about to drop, so no object that was reachable as the
//! cycle started is lost. A slot needs it while the roots are scanned. Afterwards each white object of the snapshot has
//! a path from a grey block through fields, which the field's barrier guards. A field needs it until marking ends, for it
//! may be on such a path. A new object is black. What is white after marking is swept, and sparse pages are evacuated.
//!
//! Many steps are taken in one go. A *stride* is a run of steps that costs so many units, after which the rest of the
//! quantum goes on as it would have. Strides compose; a step is one, a batch is one by its law, and so is a run of the
//! sweep (`StrideLemmas`). Each phase's loop keeps that what it did so far is a stride, so the quantum is the model's.
//! A step asks of the table that references lead to blocks and that grey places have marked ones. That follows at each
//! step from the snapshot which the running cycle keeps (`ReadyLemmas`), and every step keeps that snapshot by the
//! laws.
//!
//! The step of the roots is here, since no crate below has both roots and grey list.
#![tactic(auto)]

pub mod cycle;
mod grey_list;
mod phases;
mod steps;
mod told;
