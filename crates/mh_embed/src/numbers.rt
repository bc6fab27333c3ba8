//! Events, replies, the items of dumps, deeds and units as plain numbers, as C passes them. The header
//! `include/metroheap.h` has the same structs.

/// An event: its kind, the number of the session that asks, and the numbers of its form in their order. The number of a
/// control is `third`. What a kind doesn't have isn't read.
#[repr(C)]
#[derive(Clone, Copy)]
pub struct EventNumbers {
    pub kind: u32,
    pub session: u32,
    pub first: u32,
    pub second: u32,
    pub third: u64,
}

/// A reply: its kind, and its numbers with zeros after them.
#[repr(C)]
#[derive(Clone, Copy)]
pub struct ReplyNumbers {
    pub kind: u32,
    pub numbers: [u64; 9],
}

/// An item of a dump: its kind, and its numbers.
#[repr(C)]
#[derive(Clone, Copy)]
pub struct ItemNumbers {
    pub kind: u32,
    pub numbers: [u64; 3],
}

/// What an event added to the trace: the units before it, those of the mutator, and those of its quantum; whether it ran one,
/// and the number of the phase after it.
#[repr(C)]
#[derive(Clone, Copy)]
pub struct UnitNumbers {
    pub at: u64,
    pub mutator: u64,
    pub collector: u64,
    pub ran: u64,
    pub phase: u64,
}

/// A deed: its kind, its units, and its numbers with zeros after them.
#[repr(C)]
#[derive(Clone, Copy)]
pub struct DeedNumbers {
    pub kind: u32,
    pub units: u64,
    pub numbers: [u64; 7],
}
