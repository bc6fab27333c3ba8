//! How fast mutators make blocks of each class. A rate bounds each stretch of the mutator's units, and is no average: in
//! a stretch of t units at most `BURST + t * PARTS / UNITS` blocks are made, rounded up, and never more than t. Words count
//! the header. The limits are part of the type.
ghost use Rattle.std.specs.{Prelude.◌≤◌, List.All};

/// How many blocks of each class are made at most, to how many units, and how many more at once.
#[derive(Clone, Copy, Debug, PartialEq, Eq)]
pub struct Rates {
    /// By the numbers of the classes, and 0 where none are made.
    pub parts: [u32; 20],
    pub units: [u32; 20],
    pub bursts: [u32; 20],
    pub ghost few: { All (λ parts. parts ≤ 1000000) parts },
    pub ghost few_units: { All (λ units. units ≤ 1000000) units },
    pub ghost some_units: { All (λ units. 1 ≤ units) units },
    pub ghost few_bursts: { All (λ burst. burst ≤ 1000000) bursts },
}
