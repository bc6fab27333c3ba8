//! The phases of the collector, and the units that a quantum spent. `Spent` is a type of its own, which contracts see
//! as its number.
ghost use Rattle.std.specs.Prelude.{◌≡◌};
ghost use Rattle.mh_model.specs.Numbered.{phase_number};

use std::marker::Model;

/// What the collector is at.
#[derive(Clone, Copy, Debug, PartialEq, Eq, Hash)]
pub enum Phase {
    Idle,
    Roots,
    Mark,
    Sweep,
    Defrag,
}

impl Phase {
    /// Its number, from 0, in the order of a cycle.
    pub fn number(self) -> u64
        ensures { result ≡ phase_number self }
    {
        match self {
            Phase::Idle => 0,
            Phase::Roots => 1,
            Phase::Mark => 2,
            Phase::Sweep => 3,
            Phase::Defrag => 4,
        }
    }
}

/// The work units that a quantum spent.
#[derive(Clone, Copy, Debug, PartialEq, Eq, Hash)]
pub struct Spent(pub u64);

impl Model for Spent {
    ghost use Rattle.std.specs.Prelude.{ℕ};

    ghost Value = { ℕ };

    ghost view = { λ s. s.0 };

    ghost inverse = { λ n. record { 0 = n } };
}
