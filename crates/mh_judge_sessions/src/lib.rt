//! Histories of any collector, judged by what their sessions see.
//!
//! No machine is wanted for that. The heap that never collects says what each session may see, whatever collector
//! made the history.
#![tactic(auto)]

pub mod laws;
pub mod sessions_judgement;
pub mod tally;
pub mod texts;
pub mod watch;
