//! Births, by which objects are known, and the number below which they stay. A birth is a type of its own, which
//! contracts see as its number.
use std::marker::Model;

/// Births and cycle numbers stay below this number.
pub const LIFE: u64 = 1 << 62;

/// The birth of an object: how many were born before it.
#[derive(Clone, Copy, Debug, PartialEq, Eq, Hash)]
pub struct Birth(pub u64);

impl Model for Birth {
    ghost use Rattle.std.specs.Prelude.{ℕ};

    ghost Value = { ℕ };

    ghost view = { λ b. b.0 };

    ghost inverse = { λ n. record { 0 = n } };
}
