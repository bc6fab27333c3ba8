//! The scanner that scans by a crew. With 1 to 64 workers it answers what one thread finds, or that there is no memory.
//!
//! With one worker a quantum cuts no batch and calls no hook. It marks block by block itself, which is the same by the
//! law of batches. A hook that counts pieces needs two workers, or a crew that is asked by itself.
//!
//! A small front is marked without a crew. The hook says from which cost on a crew pays (`CrewGate::pays`), so that
//! tests can have one at any front. In the program that is a cost of 40,000 units, which a front of 1,024 blocks
//! reaches with 39 references each. So most quanta are run by one thread, whatever `--workers` says. The cost is
//! guessed: it is for the choice alone and in no contract.
//!
//! A thread that calls a hook through a bound has no proof in a method of a trait. So each hook (`Gate`) writes the
//! call of the crew for its own type (`CrewGate`), with the head of `scan_by_crew`. A scan, a run, a service and a race
//! ask for a `CrewGate`, since it can be called from the threads of a crew. For one thread `Gate` alone would do.
ghost use Rattle.std.specs.Prelude.{◌<◌, ◌≤◌, IfOk};
ghost use Rattle.mh_scan.specs.{Scanning.{AreScannable, settled_in, lists}, Asking.AreAnswers};

use crate::answers::{Answers, Asks};
use crate::crew;
use crate::gate::{Gate, Open};
use crate::scan::Scanner;
use arrayvec::ArrayVec;
use mh_blocks::blocks::Blocks;
use mh_model::memory::NoMemory;
use mh_model::place::Place;
use std::alloc::Global;
use std::thread::Threads;

/// A hook that a crew can call from its threads. Each hook writes the method for its own type, with one call of
/// `crew::scan`.
pub trait CrewGate: Gate {
    /// Asks each block of a batch, by as many workers at most as may be had.
    fn scan_by_crew<R: Threads>(
        &self,
        rt: &R,
        alloc: Global,
        workers: usize,
        asks: Asks,
        blocks: &Blocks,
        batch: &[Place],
    ) -> Result<Answers, NoMemory>
        requires workers { (0 < workers) × (workers ≤ 64) }
        requires scannable { AreScannable blocks.now batch.now }
        ensures { IfOk result (λ answers. AreAnswers blocks.now asks batch.now answers) };

    /// Whether a front whose marking costs so much is worth a crew. It is for the choice alone: what is marked is the
    /// same.
    fn pays(&self, cost: u64) -> bool;
}

impl CrewGate for Open {
    fn scan_by_crew<R: Threads>(
        &self,
        rt: &R,
        alloc: Global,
        workers: usize,
        asks: Asks,
        blocks: &Blocks,
        batch: &[Place],
    ) -> Result<Answers, NoMemory> {
        crew::scan(rt, alloc, workers, self, asks, blocks, batch)
    }

    /// Below this the start of a thread and the claims of a crew cost more than they save.
    fn pays(&self, cost: u64) -> bool {
        cost >= 40_000
    }
}

/// The scanner of a crew. Its workers draw pieces of 16 places of the batch, and each calls `gate.piece` with its number
/// and the piece's before it asks the piece. The calling thread is one of them, and does all with one worker or one
/// piece. So does it the part of a thread that can't be started.
#[derive(Drop)]
pub struct CrewScan<'a, R, G> {
    rt: &'a R,
    alloc: Global,
    workers: usize,
    gate: &'a G,
    ghost few: { (0 < workers) × (workers ≤ 64) },
}

impl<'a, R, G> CrewScan<'a, R, G> {
    /// The allocator is for what is found. The number of workers is the most that scan at a time.
    pub fn new(rt: &'a R, alloc: Global, workers: usize, gate: &'a G) -> CrewScan<'a, R, G>
        requires { (0 < workers) × (workers ≤ 64) }
    {
        CrewScan {
            rt,
            alloc,
            workers,
            gate,
        }
    }
}

impl<'a, R: Threads, G: CrewGate> Scanner for CrewScan<'a, R, G> {
    fn scan(
        &mut self,
        blocks: &Blocks,
        batch: &[Place],
    ) -> Result<Vec<ArrayVec<Option<Place>, 60>>, NoMemory> {
        let asks = Asks::Lists;
        let answers = self
            .gate
            .scan_by_crew(self.rt, self.alloc, self.workers, asks, blocks, batch)?;
        Ok(answers.lists)
    }

    fn settled(
        &mut self,
        blocks: &Blocks,
        cycle: u64,
        batch: &[Place],
    ) -> Result<Vec<bool>, NoMemory> {
        let asks = Asks::Settled(cycle);
        let answers = self
            .gate
            .scan_by_crew(self.rt, self.alloc, self.workers, asks, blocks, batch)?;
        Ok(answers.settled)
    }

    /// A crew of one worker finds a batch no sooner than its caller would.
    fn is_alone(&self) -> bool {
        self.workers == 1
    }

    fn pays(&self, cost: u64) -> bool {
        self.workers > 1 && self.gate.pays(cost)
    }
}
