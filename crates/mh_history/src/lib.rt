//! Histories as texts, of both versions: read up to their first bad line, and written.
//!
//! `history` has those of version 1, and `record` those of version 2. Both go through `lines`, which reads one entry
//! after the other, so that a judge needn't keep them.
#![tactic(auto)]

mod dump;
mod entry;
pub mod entry_text;
pub mod event;
pub mod header;
pub mod history;
mod keyed;
pub mod lines;
pub mod measured_line;
mod parts;
pub mod record;
mod reply;
