//! Random scripts, written event by event.
//!
//! `wishes` says which event comes, by the `mix` of a profile or by the acts of a `scene`, and no clause speaks of that.
//! `chooser`, `names` and `along` see to it that sessions are first named in order, that controls are those that are
//! asked for, and that a heap which runs along refuses no act. `line` writes each event. So the proof reads back the
//! lines of any such events, whatever is wished for.
#![tactic(auto)]

mod act;
mod along;
mod barriers;
mod chooser;
mod churn;
mod comb;
mod controls;
mod cycles;
mod fans;
mod fragments;
pub mod generate;
mod large;
mod line;
mod lists;
mod mix;
mod names;
mod plan;
mod race;
mod random;
mod refusals;
mod say;
mod scene;
mod session;
mod sight;
mod trees;
mod wide;
mod wishes;
