//! The root slots: sixteen for each of the eight sessions, and then the sixteen of the board that all sessions share.
//!
//! They have no cursor, since that of the collector is all that says which slot comes next. The step that scans a slot
//! is in `mh_cycle`, which has roots and grey list.
#![tactic(auto)]

pub mod roots;
