//! Which share of the mutator is to be kept, and what is given of the configuration that keeps it. The limits of what
//! is given are part of the type.
ghost use Rattle.std.specs.Prelude.{IsTrue};
ghost use Rattle.mh_orders.specs.Given.{is_given_within};

/// What is given of a configuration that is to keep a share.
#[derive(Clone, Copy, Debug, PartialEq, Eq)]
pub enum Given {
    Nothing,
    /// After how many units of the mutator a quantum is run.
    Every(u32),
    /// The most units that a quantum spends.
    Quantum(u32),
}

/// A share of the mutator in each stretch of a length or longer.
#[derive(Clone, Copy, Debug, PartialEq, Eq)]
pub struct Target {
    /// The share in parts of a hundred.
    pub percent: u32,
    /// The least length, in units of the mutator and the collector together.
    pub window: u64,
}

/// Which share is to be kept, and by what.
#[derive(Clone, Copy, Debug, PartialEq, Eq)]
pub struct TargetOptions {
    pub target: Target,
    pub given: Given,
    pub ghost within: { IsTrue (is_given_within given) },
}
