//! What the collector, a barrier or the placing of a part does, told deed by deed.
//!
//! A deed is finer than a step. A block that is marked through is one deed, and each of its references is one more, of
//! one unit each. The first move of a quantum is two: one of 1 and the words of the class, and one of 144 for the
//! roots. So each unit stands where the work is. The phase that a step enters is a deed without units, since phases
//! follow at once. Deeds of commands have none either, since what a command costs is the mutator's.
use crate::birth::Birth;
use crate::cycle::{Phase, Spent};
use crate::place::Place;
use crate::shape::Shape;

/// Which part of which object a block is.
#[derive(Clone, Copy, Debug, PartialEq, Eq)]
pub struct PartName {
    pub birth: Birth,
    pub part: usize,
}

/// A reference as the collector comes to it.
#[derive(Clone, Copy, Debug, PartialEq, Eq)]
pub struct Edge {
    /// As it stood.
    pub reference: Option<Place>,
    /// Where it leads: another place than it names, if that has a forwarder.
    pub target: Option<Place>,
    /// Whether the block there became grey by it.
    pub is_shaded: bool,
}

/// What the sweep found in a slot, and did with it.
#[derive(Clone, Copy, Debug, PartialEq, Eq)]
pub enum Fate {
    Empty,
    Kept(PartName),
    Freed(PartName),
    /// A forwarder that led to this place.
    FreedForwarder(Place),
}

/// The tier of placement in which a new part found its place: a dense page of its class, a free page, or a sparse page of
/// its class.
#[derive(Clone, Copy, Debug, PartialEq, Eq)]
pub enum Tier {
    Dense,
    Fresh,
    Sparse,
}

/// One thing done.
#[derive(Clone, Copy, Debug, PartialEq, Eq)]
pub enum Deed {
    /// The cycle of this number started.
    Start {
        cycle: u64,
    },
    Enter {
        phase: Phase,
    },
    /// The running cycle ended.
    End,
    /// A slot of the roots was scanned.
    Root {
        slot: usize,
        edge: Edge,
    },
    /// A grey block was taken off the list. A deed for each of its references follows.
    Mark {
        place: Place,
        name: PartName,
    },
    /// A reference of that block was resolved, written back and shaded.
    Reference {
        index: usize,
        edge: Edge,
    },
    /// A page was passed: by the sweep a free one, by defragmentation one that is free or dense.
    Pass {
        page: usize,
    },
    /// A slot of a page in use was swept.
    Sweep {
        place: Place,
        fate: Fate,
    },
    /// After the sweep of its last slot a page became free, sparse or dense.
    FreePage {
        page: usize,
    },
    FlagPage {
        page: usize,
    },
    UnflagPage {
        page: usize,
    },
    /// A slot of a sparse page was passed: it holds nothing that moves, or there is no place for that.
    Stay {
        place: Place,
    },
    /// A block moved, and left a forwarder.
    Move {
        place: Place,
        to: Place,
        name: PartName,
        class_size: usize,
    },
    /// All slots of the roots were forwarded, for the first move of a quantum.
    ForwardRoots,
    /// A barrier made the block at a place grey.
    Shade {
        place: Place,
    },
    /// A part of a new object was placed.
    Make {
        place: Place,
        name: PartName,
        class_size: usize,
        /// Of the part alone.
        fields: Shape,
        tier: Tier,
    },
}

/// What a quantum spent, and the phase that it ended in.
#[derive(Clone, Copy, Debug, PartialEq, Eq)]
pub struct QuantumEnd {
    pub units: Spent,
    pub phase: Phase,
}
