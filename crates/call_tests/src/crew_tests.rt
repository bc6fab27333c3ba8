use crate::asked::{Asked, Course, told_by};
use crate::scripts::{chain, wide};
use crate::sweep::{PLENTY, begin_with_plenty};
use mh_blocks::blocks::Blocks;
use mh_model::memory::NoMemory;
use mh_model::place::Place;
use mh_scan::answers::{Answers, Asks};
use mh_scan::crew;
use mh_scan::crew_scan::{CrewGate, CrewScan};
use mh_scan::gate::Gate;
use mh_text::script::Script;
use std::alloc::Global;
use std::sync::OnceLock;
use std::test::Fail;
use std::thread::Threads;
use test_support::famine::Famine;
use test_support::gates::Watch;

/// How many events stand before the quanta of a cycle, and what these reply.
#[derive(Clone, Copy)]
struct Quanta {
    before: usize,
    count: usize,
    replies: &'static [u8],
}

const OF_WIDE: Quanta = Quanta {
    before: 123,
    count: 2,
    replies: b"spent 399 phase mark\nspent 239 phase idle\n",
};

const OF_CHAIN: Quanta = Quanta {
    before: 900,
    count: 6,
    replies: b"spent 208 phase roots\nspent 208 phase mark\nspent 208 phase mark\nspent 208 phase mark\nspent 209 phase sweep\nspent 163 phase idle\n",
};

/// One thread runs the quanta with memory at hand.
impl Course for Quanta {
    fn run(&mut self, asked: &mut Asked<'_>) -> Result<String, Fail> {
        asked.go_on(self.before)?;
        asked.go_on(self.count)?;
        let replies = asked.replies()?;
        if !replies.as_bytes().ends_with(self.replies) {
            return Err(Fail::from("other quanta with memory at hand"));
        }
        asked.go_to_end()
    }
}

/// Whether a crew of two runs the next quanta, so many.
fn crew_runs<R: Threads, G: CrewGate>(
    rt: &R,
    alloc: Global,
    gate: &G,
    asked: &mut Asked<'_>,
    count: usize,
) -> bool {
    asked.are_answered(&mut CrewScan::new(rt, alloc, 2, gate), count)
}

/// A crew of two runs the quanta with so many bytes left.
#[derive(Drop)]
struct ByCrew<'a, R> {
    rt: &'a R,
    alloc: Global,
    famine: &'a mut Famine,
    gate: &'a Watch,
    quanta: Quanta,
    bytes: usize,
}

impl<R: Threads> Course for ByCrew<'_, R> {
    fn run(&mut self, asked: &mut Asked<'_>) -> Result<String, Fail> {
        asked.go_on(self.quanta.before)?;
        self.famine.leave(self.bytes)?;
        let are_run = crew_runs(self.rt, self.alloc, self.gate, asked, self.quanta.count);
        self.famine.leave(PLENTY)?;
        if !are_run {
            return Err(Fail::from("refused within the cycle"));
        }
        asked.go_to_end()
    }
}

const KIBIBYTE: usize = 1 << 10;

const MEBIBYTE: usize = 1 << 20;

/// How many bytes are left at the first of some steps, how many more at each next one, and how many steps there are.
type Range = (usize, usize, usize);

/// Some thousand bytes in small steps, some hundred thousand in larger ones, and then as many as the start of a thread takes.
const RANGES: [Range; 3] = [
    (0, 64, 64),
    (4 * KIBIBYTE, 2 * KIBIBYTE, 98),
    (0, 2 * MEBIBYTE, 21),
];

/// A script that a crew goes through, and what its state has to show in the end.
#[derive(Drop)]
struct Steps<'a, R> {
    rt: &'a R,
    alloc: Global,
    script: &'a Script,
    quanta: Quanta,
    wanted: String,
}

impl<'a, R: Threads> Steps<'a, R> {
    fn new(
        rt: &'a R,
        alloc: Global,
        script: &'a Script,
        mut quanta: Quanta,
    ) -> Result<Steps<'a, R>, Fail> {
        let wanted = told_by(alloc, script, &mut quanta)?;
        Ok(Steps {
            rt,
            alloc,
            script,
            quanta,
            wanted,
        })
    }

    /// How many pieces the crew begins with so many bytes left.
    fn pieces_with(&self, famine: &mut Famine, bytes: usize) -> Result<u64, Fail> {
        let gate = Watch::new(0);
        let mut course = ByCrew {
            rt: self.rt,
            alloc: self.alloc,
            famine,
            gate: &gate,
            quanta: self.quanta,
            bytes,
        };
        if told_by(self.alloc, self.script, &mut course)? != self.wanted {
            return Err(Fail::from("other quanta"));
        }
        Ok(gate.seen().passed)
    }

    /// How many pieces it begins at the last step of a range.
    fn pieces_at_last(&self, famine: &mut Famine, range: Range) -> Result<u64, Fail> {
        let (first, more, count) = range;
        let mut pieces = 0;
        for step in 0..count {
            pieces = self.pieces_with(famine, first.saturating_add(more.saturating_mul(step)))?;
        }
        Ok(pieces)
    }

    /// How many pieces it begins without memory, and with the most that is left.
    fn least_and_most(&self, famine: &mut Famine) -> Result<(u64, u64), Fail> {
        let least = self.pieces_with(famine, 0)?;
        let mut most = least;
        for range in RANGES {
            most = self.pieces_at_last(famine, range)?;
        }
        Ok((least, most))
    }
}

/// The same of a script, in a famine of its own.
fn least_and_most<R: Threads>(
    rt: &R,
    alloc: Global,
    script: &Script,
    quanta: Quanta,
) -> Result<(u64, u64), Fail> {
    let steps = Steps::new(rt, alloc, script, quanta)?;
    let mut famine = begin_with_plenty(alloc)?;
    steps.least_and_most(&mut famine)
}

/// The batches have 1, 25 and 35 places, so they are 6 pieces.
#[test]
fn quanta_of_a_wide_object_are_the_same_without_memory(rt: HostRuntime) -> Result<(), Fail> {
    let pieces = {
        let script = wide(rt.alloc())?;
        least_and_most(&rt, rt.alloc(), &script, OF_WIDE)
    };
    assert!(rt; pieces? == (0, 6));
    Ok(())
}

/// Each batch has one place.
#[test]
fn quanta_of_a_chain_are_the_same_without_memory(rt: HostRuntime) -> Result<(), Fail> {
    let pieces = {
        let script = chain(rt.alloc())?;
        least_and_most(&rt, rt.alloc(), &script, OF_CHAIN)
    };
    assert!(rt; pieces? == (0, 300));
    Ok(())
}

/// A hook that takes all memory when the second piece of a batch is begun.
#[derive(Drop)]
struct Taking {
    alloc: Global,
    famine: OnceLock<Famine>,
}

impl Gate for Taking {
    fn piece(&self, _worker: usize, piece: u64) {
        if piece == 1 {
            take_all(self.alloc, &self.famine);
        }
    }

    fn session(&self, _who: u8) {}
}

impl CrewGate for Taking {
    fn scan_by_crew<R: Threads>(
        &self,
        rt: &R,
        alloc: Global,
        workers: usize,
        asks: Asks,
        blocks: &Blocks,
        batch: &[Place],
    ) -> Result<Answers, NoMemory> {
        crew::scan(rt, alloc, workers, self, asks, blocks, batch)
    }

    fn pays(&self, _cost: u64) -> bool {
        true
    }
}

/// Takes all memory, if it isn't taken yet: once it is, the stack can't grow as far as another taking of it needs.
fn take_all(alloc: Global, taken: &OnceLock<Famine>) {
    if taken.get().is_some() {
        return;
    }
    if let Ok(famine) = Famine::begin(alloc) {
        let _ = taken.try_set(famine);
    }
}

/// A crew of two runs the quanta, and its hook takes all memory.
#[derive(Drop)]
struct WhereMemoryEnds<'a, R> {
    rt: &'a R,
    alloc: Global,
    quanta: Quanta,
}

impl<R: Threads> WhereMemoryEnds<'_, R> {
    /// Whether the quanta are run and memory is taken. It is given back at the end.
    fn runs_without(&self, asked: &mut Asked<'_>) -> bool {
        let gate = Taking {
            alloc: self.alloc,
            famine: OnceLock::new(),
        };
        crew_runs(self.rt, self.alloc, &gate, asked, self.quanta.count)
            && gate.famine.get().is_some()
    }
}

impl<R: Threads> Course for WhereMemoryEnds<'_, R> {
    fn run(&mut self, asked: &mut Asked<'_>) -> Result<String, Fail> {
        asked.go_on(self.quanta.before)?;
        if !self.runs_without(asked) {
            return Err(Fail::from("memory did not end"));
        }
        asked.go_to_end()
    }
}

/// Whether the quanta of a script are the same where its memory ends.
fn are_same_where_memory_ends<R: Threads>(
    rt: &R,
    alloc: Global,
    script: &Script,
    mut quanta: Quanta,
) -> Result<bool, Fail> {
    let wanted = told_by(alloc, script, &mut quanta)?;
    let mut course = WhereMemoryEnds { rt, alloc, quanta };
    Ok(told_by(alloc, script, &mut course)? == wanted)
}

#[test]
fn quanta_are_the_same_where_memory_ends_within_a_batch(rt: HostRuntime) -> Result<(), Fail> {
    let are_same = {
        let script = wide(rt.alloc())?;
        are_same_where_memory_ends(&rt, rt.alloc(), &script, OF_WIDE)
    };
    assert!(rt; are_same?);
    Ok(())
}
