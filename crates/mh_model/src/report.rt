//! Reports on a trace, for the windows of one length.

/// What is reported of a trace and a window.
#[derive(Clone, Copy, Debug, PartialEq, Eq)]
pub struct Report {
    /// The units of the mutator.
    pub mutator: u64,
    /// The units that all quanta spent.
    pub collector: u64,
    pub quanta: u64,
    /// The most that a quantum spent, 0 if none was run.
    pub greatest: u64,
    pub window: u64,
    /// The fewest units of the mutator in a stretch as long as the window, none if the trace is shorter.
    pub least: Option<u64>,
    /// So many there are at least in any trace of this configuration, none if no quantum is scheduled.
    pub floor: Option<u64>,
}
