//! Gates that hold workers and sessions, and note which of them came.

use mh_blocks::blocks::Blocks;
use mh_model::memory::NoMemory;
use mh_model::place::Place;
use mh_scan::answers::{Answers, Asks};
use mh_scan::crew;
use mh_scan::crew_scan::CrewGate;
use mh_scan::gate::Gate;
use std::alloc::Global;
use std::sync::atomic::AtomicU64;
use std::sync::atomic::Ordering::SeqCst;
use std::thread;
use std::thread::Threads;

/// How many places a piece has.
const PIECE: usize = 16;

/// How many pieces a batch has at most.
const MOST_PIECES: usize = 64;

/// How many turns a worker is held at most.
const MOST_TURNS: u64 = 1_000_000;

/// Whether a counter comes to a count within so many turns, each of which yields.
fn comes_to(counter: &AtomicU64, count: u64, turns: u64) -> bool {
    for _ in 0..turns {
        if counter.load(SeqCst) >= count {
            return true;
        }
        thread::yield_now();
    }
    false
}

/// Waits until a counter has come to a count, for ever if it doesn't. A test that waits so is ended after 60 seconds.
pub fn wait_for(counter: &AtomicU64, count: u64) {
    comes_to(counter, count, u64::MAX);
}

/// Which of the numbers below 64 came, and how many came.
#[derive(Drop)]
pub struct Tally {
    seen: AtomicU64,
    count: AtomicU64,
}

impl Tally {
    pub fn new() -> Tally {
        Tally {
            seen: AtomicU64::new(0),
            count: AtomicU64::new(0),
        }
    }

    pub fn clear(&self) {
        self.seen.store(0, SeqCst);
        self.count.store(0, SeqCst);
    }

    pub fn add(&self, number: u64) {
        self.count.fetch_add(1, SeqCst);
        let shift = number.min(64) as u32;
        self.seen
            .fetch_or(1u64.checked_shl(shift).unwrap_or(0), SeqCst);
    }

    /// How many different numbers came.
    pub fn kinds(&self) -> u32 {
        self.seen.load(SeqCst).count_ones()
    }

    /// Whether all numbers that came are below a bound.
    pub fn is_below(&self, bound: u32) -> bool {
        self.seen.load(SeqCst).leading_zeros() >= 64u32.saturating_sub(bound)
    }

    /// Whether the numbers below a bound came, each once, and no others.
    pub fn is_each_once(&self, bound: u32) -> bool {
        self.kinds() == bound && self.is_below(bound) && self.count.load(SeqCst) == u64::from(bound)
    }

    /// Waits until so many different numbers came, for ever if they don't.
    pub fn wait_for(&self, kinds: u32) {
        for _ in 0..u64::MAX {
            if self.kinds() >= kinds {
                return;
            }
            thread::yield_now();
        }
    }
}

/// A hook that holds each session until as many as are wanted have come. If one thread does the work of two of them it
/// is held for ever.
#[derive(Drop)]
pub struct Arrivals {
    wanted: u32,
    sessions: Tally,
    scans: AtomicU64,
    early: AtomicU64,
}

impl Arrivals {
    pub fn new(wanted: u32) -> Arrivals {
        Arrivals {
            wanted,
            sessions: Tally::new(),
            scans: AtomicU64::new(0),
            early: AtomicU64::new(0),
        }
    }

    pub fn sessions(&self) -> &Tally {
        &self.sessions
    }

    /// How many batches were asked, and how many of them before any session had come.
    pub fn scans(&self) -> (u64, u64) {
        (self.scans.load(SeqCst), self.early.load(SeqCst))
    }
}

impl Gate for Arrivals {
    fn piece(&self, _worker: usize, _piece: u64) {}

    fn session(&self, who: u8) {
        self.sessions.add(u64::from(who));
        self.sessions.wait_for(self.wanted);
    }
}

impl CrewGate for Arrivals {
    fn scan_by_crew<R: Threads>(
        &self,
        rt: &R,
        alloc: Global,
        workers: usize,
        asks: Asks,
        blocks: &Blocks,
        batch: &[Place],
    ) -> Result<Answers, NoMemory> {
        self.scans.fetch_add(1, SeqCst);
        if self.sessions.kinds() == 0 {
            self.early.fetch_add(1, SeqCst);
        }
        crew::scan(rt, alloc, workers, self, asks, blocks, batch)
    }

    fn pays(&self, _cost: u64) -> bool {
        true
    }
}

/// A hook that holds the worker of the first piece until a later one was begun, for a million turns at most.
#[derive(Drop)]
pub struct Hold {
    until: u64,
    begun: AtomicU64,
    given_up: AtomicU64,
}

impl Hold {
    pub fn new(until: u64) -> Hold {
        Hold {
            until,
            begun: AtomicU64::new(0),
            given_up: AtomicU64::new(0),
        }
    }

    /// Whether the piece that is waited for was begun, and no turns ran out.
    pub fn is_met(&self) -> bool {
        self.begun.load(SeqCst) == 1 && self.given_up.load(SeqCst) == 0
    }
}

impl Gate for Hold {
    fn piece(&self, _worker: usize, piece: u64) {
        if piece == self.until {
            self.begun.store(1, SeqCst);
        }
        if piece == 0 && !comes_to(&self.begun, 1, MOST_TURNS) {
            self.given_up.store(1, SeqCst);
        }
    }

    fn session(&self, _who: u8) {}
}

impl CrewGate for Hold {
    fn scan_by_crew<R: Threads>(
        &self,
        rt: &R,
        alloc: Global,
        workers: usize,
        asks: Asks,
        blocks: &Blocks,
        batch: &[Place],
    ) -> Result<Answers, NoMemory> {
        crew::scan(rt, alloc, workers, self, asks, blocks, batch)
    }

    fn pays(&self, _cost: u64) -> bool {
        true
    }
}

/// A hook that sees which pieces of each batch pass, and with which workers. If a batch has more than one piece it holds
/// each piece until as many workers as are wanted have one. A crew of fewer threads is held for ever. It holds nobody if
/// none are wanted.
#[derive(Drop)]
pub struct Watch {
    wanted: u32,
    pieces_now: AtomicU64,
    pieces: Tally,
    workers: Tally,
    passed: AtomicU64,
    cut: AtomicU64,
    faults: AtomicU64,
}

/// What a hook has seen: how many pieces passed, how many batches had more than one, and how many batches were at fault.
/// A batch is at fault if some piece didn't pass just once, or if it had fewer workers than are wanted, or one whose
/// number isn't below the most that there may be.
#[derive(Clone, Copy, Debug, PartialEq, Eq)]
pub struct Seen {
    pub passed: u64,
    pub cut: u64,
    pub faults: u64,
}

/// How many workers a batch of so many pieces may have: no more than pieces, and one for each sixteen pieces begun beside
/// the calling thread.
fn most_workers(workers: usize, count: u32) -> u32 {
    let most = count.min(1 + count.div_ceil(16)) as usize;
    workers.min(most) as u32
}

impl Watch {
    /// At least so many workers are to share each batch of more than one piece.
    pub fn new(wanted: u32) -> Watch {
        Watch {
            wanted,
            pieces_now: AtomicU64::new(0),
            pieces: Tally::new(),
            workers: Tally::new(),
            passed: AtomicU64::new(0),
            cut: AtomicU64::new(0),
            faults: AtomicU64::new(0),
        }
    }

    pub fn seen(&self) -> Seen {
        Seen {
            passed: self.passed.load(SeqCst),
            cut: self.cut.load(SeqCst),
            faults: self.faults.load(SeqCst),
        }
    }

    fn begin(&self, count: u32) {
        self.pieces.clear();
        self.workers.clear();
        self.pieces_now.store(u64::from(count), SeqCst);
        if count > 1 {
            self.cut.fetch_add(1, SeqCst);
        }
    }

    fn end(&self, workers: usize, count: u32) {
        let most = most_workers(workers, count);
        let is_right = self.pieces.is_each_once(count)
            && self.workers.is_below(most)
            && self.workers.kinds() >= self.wanted.min(most);
        if !is_right {
            self.faults.fetch_add(1, SeqCst);
        }
    }
}

impl Gate for Watch {
    fn piece(&self, worker: usize, piece: u64) {
        self.passed.fetch_add(1, SeqCst);
        self.pieces.add(piece);
        self.workers.add(worker as u64);
        if self.pieces_now.load(SeqCst) > 1 {
            self.workers.wait_for(self.wanted);
        }
    }

    fn session(&self, _who: u8) {}
}

impl CrewGate for Watch {
    fn scan_by_crew<R: Threads>(
        &self,
        rt: &R,
        alloc: Global,
        workers: usize,
        asks: Asks,
        blocks: &Blocks,
        batch: &[Place],
    ) -> Result<Answers, NoMemory> {
        let count = batch.len().div_ceil(PIECE).min(MOST_PIECES) as u32;
        self.begin(count);
        let answers = crew::scan(rt, alloc, workers, self, asks, blocks, batch);
        self.end(workers, count);
        answers
    }

    fn pays(&self, _cost: u64) -> bool {
        true
    }
}
