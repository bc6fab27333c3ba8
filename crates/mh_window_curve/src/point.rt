//! What a curve says of one window, and what its trace counts.
/// What a curve says of one window.
#[derive(Clone, Copy, Debug, PartialEq, Eq)]
pub struct CurvePoint {
    pub window: u64,
    /// The fewest units of the mutator in a stretch as long as the window.
    pub least: u64,
    /// So many there are at least in any trace of this configuration, none if no quantum is scheduled.
    pub floor: Option<u64>,
}

/// What the trace of a curve counts.
#[derive(Clone, Copy, Debug, PartialEq, Eq)]
pub struct TraceCounts {
    /// The units of the mutator.
    pub mutator: u64,
    /// The units that all quanta spent.
    pub collector: u64,
    /// None where the quanta aren't known.
    pub quanta: Option<u64>,
    /// The most that a quantum spent, 0 if none was run.
    pub greatest: u64,
}
