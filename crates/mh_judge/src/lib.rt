//! Histories as texts: judged, with what is wrong with them, and migrated from the first version to the second.
//!
//! Runs, judging and races of scripts are a crate each, so a run of a script waits for no lock. What reads and writes
//! whole texts is in `mh_script`, on which the two others stand.
//!
//! Which verdict a text has is a relation (`IsChecked`, `IsAudited`), since equality of replies has no test in the
//! model. Laws of `mh_text_laws` say that each text has one verdict alone.
#![tactic(auto)]

pub mod bad_entry;
pub mod entry_fault;
mod events;
pub mod following;
pub mod judge;
pub mod judgement;
pub mod migrate;
pub mod record;
mod replay;
pub mod reply_fault;
pub mod text_entry;
