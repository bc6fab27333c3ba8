//! The numbers of the rules, each named once for the code. The model has them where it speaks of them.
//!
//! Here are those that several crates need. The texts of `mh_command_line` and `mh_program` that name the limits of a
//! configuration spell them again. Other numbers are where they are used: the sizes of batches and pieces in `mh_mark`
//! and `mh_scan`.

/// The most pages of a heap.
pub const MOST_PAGES: u32 = 4096;

/// The least units of a quantum: those of the dearest step.
pub const LEAST_QUANTUM: u32 = 209;

/// The most units of a quantum.
pub const MOST_QUANTUM: u32 = 1_000_000;

/// The most units of the mutator between two quanta that the scheduler runs.
pub const MOST_EVERY: u32 = 1_000_000;

/// The words of a page.
pub const PAGE_WORDS: usize = 256;

/// The places of a page, whatever its class.
pub const PLACES: usize = 64;

/// The words of a block before its fields.
pub const HEADER: usize = 4;

/// The most fields of one block, and of a run of an object's fields.
pub const RUN: u32 = 60;

/// The most fields of an object whose spine leads to its arraylets; above, it leads to middle spines.
pub const SPINE_FIELDS: u32 = 3_600;

/// The most parts of an object.
pub const MOST_PARTS: usize = 3_661;

pub const SESSIONS: usize = 8;

/// The slots of a session, and of the board.
pub const SESSION_SLOTS: usize = 16;

/// The root slots: those of the sessions, then those of the board.
pub const ROOT_SLOTS: usize = SESSIONS * SESSION_SLOTS + SESSION_SLOTS;

/// Of a quantum that leaves a cycle running, at most so many units are not spent on the cycle: fewer than the dearest step are
/// left, and the root slots are charged once.
pub const QUANTUM_OVERHEAD: u32 = LEAST_QUANTUM - 1 + ROOT_SLOTS as u32;

/// The most steps of a cycle on a page.
pub const PAGE_STEPS: u64 = 192;

/// The most units of a cycle on a page, without the charge for the root slots.
pub const PAGE_UNITS: u64 = 640;

/// The most entries of a history, and the most events of a script that are answered.
pub const MOST_ENTRIES: u64 = 1_000_000;

/// The most events of a machine, and the most commands of a world.
pub const MOST_EVENTS: u64 = 1 << 42;

pub const MOST_WORKERS: u64 = 64;
