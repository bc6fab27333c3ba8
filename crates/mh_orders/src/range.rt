//! How a run is written of which only some events are asked for, by their numbers. As Chrome trace events, cycles,
//! quanta and counters are still those of the whole run. A page has no other events.
use mh_model::config::Rules;

/// Which events of a run are written, and under which rules it runs.
#[derive(Clone, Copy, Debug, PartialEq, Eq)]
pub struct RangeOptions {
    pub rules: Rules,
    /// The first event, counted from 1.
    pub from: u32,
    /// The last one.
    pub to: u32,
}
