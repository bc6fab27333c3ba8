//! Scanners, and the one that does all on the calling thread.
//!
//! A scanner finds, for each block of a batch in order, where its references lead, in order. Or it finds whether each
//! block is settled in a cycle. Or it answers that there is no memory.
//!
//! Marking asks `settled`. Lists of where references lead cost the caller as much to write back and shade as marking
//! alone does. Most blocks of a wide graph are settled when they come up, and a flag says so. `scan` gives such lists
//! to other callers, and the program has none of these. `OneScan` allocates nothing until it is asked, and a quantum
//! doesn't ask it.
ghost use Rattle.std.specs.Prelude.{◌≡◌, IfOk};
ghost use Rattle.mh_model.specs.Table.{found_in};
ghost use Rattle.mh_scan.specs.Scanning.{AreScannable, settled_in, lists};

use crate::answers::{Asks, ask_each};
use arrayvec::ArrayVec;
use mh_blocks::blocks::Blocks;
use mh_model::memory::NoMemory;
use mh_model::place::Place;
use std::alloc::Global;

/// Finds where the references of blocks lead, and whether marking through a block changes anything.
pub trait Scanner {
    /// For each block of the batch, in order, where its references lead, in order: null, or one hop on from the place
    /// that stands there. Nothing is written. An empty batch gives an empty list, and a place may stand in a batch more
    /// than once. Refused memory is the only error.
    fn scan(
        &mut self,
        blocks: &Blocks,
        batch: &[Place],
    ) -> Result<Vec<ArrayVec<Option<Place>, 60>>, NoMemory>
        requires { AreScannable blocks.now batch.now }
        ensures { IfOk result (λ found. lists found.items ≡ found_in blocks.now batch.now) };

    /// For each block of the batch, in order, whether it is settled in a cycle: each of its references is null, or leads
    /// straight to a block that is marked in that cycle. Nothing is written. Refused memory is the only error.
    fn settled(
        &mut self,
        blocks: &Blocks,
        cycle: u64,
        batch: &[Place],
    ) -> Result<Vec<bool>, NoMemory>
        requires { AreScannable blocks.now batch.now }
        ensures { IfOk result (λ settled. settled.items ≡ settled_in blocks.now cycle batch.now) };

    /// Whether this scanner finds a batch no sooner than its caller would block by block. It is for the choice between
    /// the two alone: what is found is the same.
    fn is_alone(&self) -> bool;

    /// Whether this scanner may find a front sooner than its caller would whose marking costs so much. It is for the same
    /// choice.
    fn pays(&self, cost: u64) -> bool;
}

/// The scanner that does all on the calling thread.
#[derive(Drop)]
pub struct OneScan {
    alloc: Global,
}

impl OneScan {
    /// The allocator is for what is found.
    pub fn new(alloc: Global) -> OneScan {
        OneScan { alloc }
    }
}

impl Scanner for OneScan {
    fn scan(
        &mut self,
        blocks: &Blocks,
        batch: &[Place],
    ) -> Result<Vec<ArrayVec<Option<Place>, 60>>, NoMemory> {
        Ok(ask_each(self.alloc, Asks::Lists, blocks, batch)?.lists)
    }

    fn settled(
        &mut self,
        blocks: &Blocks,
        cycle: u64,
        batch: &[Place],
    ) -> Result<Vec<bool>, NoMemory> {
        Ok(ask_each(self.alloc, Asks::Settled(cycle), blocks, batch)?.settled)
    }

    fn is_alone(&self) -> bool {
        true
    }

    fn pays(&self, _cost: u64) -> bool {
        false
    }
}

/// The scanner of who marks block by block: it finds nothing.
#[derive(Clone, Copy)]
pub struct NoScan;

impl Scanner for NoScan {
    fn scan(
        &mut self,
        _blocks: &Blocks,
        _batch: &[Place],
    ) -> Result<Vec<ArrayVec<Option<Place>, 60>>, NoMemory> {
        Err(NoMemory)
    }

    fn settled(
        &mut self,
        _blocks: &Blocks,
        _cycle: u64,
        _batch: &[Place],
    ) -> Result<Vec<bool>, NoMemory> {
        Err(NoMemory)
    }

    fn is_alone(&self) -> bool {
        true
    }

    fn pays(&self, _cost: u64) -> bool {
        false
    }
}
