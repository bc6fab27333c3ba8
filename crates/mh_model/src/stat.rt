//! What a heap has at a moment: its pages, its blocks and its collector's phase.
use crate::cycle::Phase;

/// What `stat` reports of a heap.
#[derive(Clone, Copy, Debug, PartialEq, Eq)]
pub struct Stat {
    /// The free pages.
    pub free: u64,
    /// The blocks that aren't forwarders.
    pub live: u64,
    /// The forwarders.
    pub old: u64,
    pub phase: Phase,
    /// The cycles started.
    pub cycle: u64,
}
