//! The figures of steps that tools alone read: where in the trace an event stands, and what is in the heap after it.
//!
//! They stand in JSON alone, so a tool needn't count deeds. With `--from` it couldn't, since it has none of those before.
ghost use Rattle.std.specs.Prelude.{◌≡◌, ◌+◌, ◌<◌, ◌^◌, length};
ghost use Rattle.mh_tell_steps.specs.Figures.{counts_of};

use mh_machine::machine::Machine;

/// Where an event of a run stands.
#[derive(Clone, Copy, Debug, PartialEq, Eq)]
pub struct EventSpan {
    /// The number of the event, counted from 1.
    pub number: u64,
    /// The units of the trace before it.
    pub at: u128,
    /// The units of the mutator that it adds.
    pub mutator: u64,
}

/// What is in a heap.
#[derive(Clone, Copy, Debug, PartialEq, Eq)]
pub struct HeapCounts {
    /// Free pages.
    pub free: u128,
    /// Blocks that aren't forwarders.
    pub live: u128,
    /// Forwarders.
    pub old: u128,
    /// Grey blocks.
    pub grey: u128,
}

/// What is in the heap of a machine. None of it is counted anew.
pub fn heap_counts(machine: &Machine) -> HeapCounts
    ensures counts { result ≡ counts_of machine.now.machine.heap.collector }
    ensures few { result.free + result.live + result.old + result.grey < 2 ^ 66 }
{
    let heap = machine.heap();
    let stat = heap.stat();
    HeapCounts {
        free: u128::from(stat.free),
        live: u128::from(stat.live),
        old: u128::from(stat.old),
        grey: heap.kept.grey_count() as u128,
    }
}

/// How many units a trace has.
#[tactic(auto, using(crate::proofs::FigureLemmas::letters_counted))]
pub fn trace_units(machine: &Machine) -> u128
    ensures units { result ≡ length machine.now.machine.trace.letters }
    ensures few { result < 2 ^ 66 }
{
    let trace = machine.trace();
    u128::from(trace.mutator_count()) + u128::from(trace.collector_count())
}
