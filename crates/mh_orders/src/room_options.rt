//! Which heap is asked for, by numbers that a runtime can count. The limits are part of the type.
ghost use Rattle.std.specs.Prelude.{◌≤◌, IsTrue};
ghost use Rattle.mh_orders.specs.Given.{is_length_within};

use crate::rates::Rates;

/// How many quanta a cycle takes at most.
#[derive(Clone, Copy, Debug, PartialEq, Eq)]
pub enum CycleLength {
    /// So many.
    Quanta(u32),
    /// As many as any cycle takes by quanta of so many units.
    Quantum(u32),
}

/// What is counted of the programs that a heap is to have room for.
#[derive(Clone, Copy, Debug, PartialEq, Eq)]
pub struct RoomOptions {
    /// The most pages that are in use as a cycle ends.
    pub used: u32,
    /// After how many units of the mutator a quantum is run.
    pub every: u32,
    /// How fast blocks are made.
    pub rates: Rates,
    /// The most blocks of an object.
    pub most_parts: u32,
    /// How long cycles take.
    pub length: CycleLength,
    pub ghost few_used: { used ≤ 4096 },
    pub ghost every_within: { (1 ≤ every) × (every ≤ 1000000) },
    pub ghost most_within: { (1 ≤ most_parts) × (most_parts ≤ 3661) },
    pub ghost length_within: { IsTrue (is_length_within length) },
}
