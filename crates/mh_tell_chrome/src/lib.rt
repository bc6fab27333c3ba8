//! A run as Chrome trace events, which chrome://tracing, Perfetto and DevTools draw.
//!
//! A unit of the trace is a microsecond. One thread has cycles with their phases, one quanta with the phases that they
//! worked in, one controls, and each session has one for its commands. Counters draw free pages, blocks and the grey
//! list. Slices are pairs of `B` and `E`: what is written of a slice as it begins says nothing of its end, so events are
//! written as the run goes.
#![tactic(auto)]

mod counters;
pub mod course;
mod event;
pub mod laws;
mod quantum;
pub mod run;
mod trace_event;
