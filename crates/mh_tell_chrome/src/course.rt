//! The course of a quantum: what is open, and what its deeds so far have left.
use mh_model::cycle::Phase;
use mh_tell_steps::figures::HeapCounts;

/// The slices that are open on the thread of cycles.
#[derive(Clone, Copy, Debug, PartialEq, Eq)]
pub struct Slices {
    /// Whether that of a cycle is.
    pub cycle: bool,
    /// Of which phase one is.
    pub phase: Option<Phase>,
}

/// What is known between two deeds of a quantum.
#[derive(Clone, Copy, Debug, PartialEq, Eq)]
pub struct Course {
    /// The units of the trace before the next deed.
    pub time: u128,
    /// The units that the quantum still spends.
    pub left: u128,
    pub slices: Slices,
    /// Whether the slice of a step is open.
    pub in_step: bool,
    /// What is in the heap.
    pub counts: HeapCounts,
    /// What of that the counters show.
    pub shown: HeapCounts,
}
