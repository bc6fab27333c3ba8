//! What is promised of all windows of a trace. The limits are part of the types, so a round fits a window.
ghost use Rattle.std.specs.Prelude.{◌<◌, ◌≤◌, ◌^◌};

/// Rounds of the mutator and a quantum: from them each window has its floor.
#[derive(Clone, Copy, Debug, PartialEq, Eq)]
pub struct Round {
    /// After so many units of the mutator a quantum is run.
    pub every: u64,
    /// The most units that a quantum spends.
    pub quantum: u64,
    pub ghost some: { 0 < every },
    pub ghost few: { every < 2 ^ 61 },
    pub ghost few_of_quantum: { quantum < 2 ^ 61 },
}

/// A share of the mutator in each stretch of a length or longer.
#[derive(Clone, Copy, Debug, PartialEq, Eq)]
pub struct Share {
    /// The share in parts of a hundred.
    pub percent: u64,
    /// The least length, in units of the mutator and the collector together.
    pub from: u64,
    pub ghost part: { percent ≤ 100 },
}

/// What is promised of a trace.
#[derive(Clone, Copy, Debug, PartialEq, Eq)]
pub struct Promises {
    /// Each window has the floor of these rounds.
    pub round: Option<Round>,
    /// No pause is longer.
    pub longest: Option<u64>,
    /// This share is kept.
    pub share: Option<Share>,
}
