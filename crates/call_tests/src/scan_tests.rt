//! Batches that one thread and crews scan.
ghost use Rattle.std.specs.Prelude.{◌<◌, ◌≤◌, IsTrue};
ghost use Rattle.mh_model.specs.Pages.{Leads};
ghost use Rattle.mh_scan.specs.Scanning.{IsScannable, AreScannable};

use crate::sweep::{PLENTY, begin_with_plenty};
use mh_blocks::blocks::Blocks;
use mh_classes::parts::{Part, parts};
use mh_model::birth::Birth;
use mh_model::config::Rules;
use mh_model::memory::NoMemory;
use mh_model::place::Place;
use mh_scan::crew_scan::{CrewGate, CrewScan};
use mh_scan::scan::{OneScan, Scanner};
use std::alloc::{AllocError, Global};
use std::test::Fail;
use std::thread::Threads;
use test_support::famine::Famine;
use test_support::gates::{Seen, Watch};

fn leads(blocks: &Blocks, reference: Option<Place>) -> bool
    ensures { IsTrue result → Leads blocks.now reference }
{
    match reference {
        None => true,
        Some(place) => blocks.is_taken(place),
    }
}

fn is_scannable(blocks: &Blocks, place: Place) -> bool
    ensures { IsTrue result → IsScannable blocks.now place }
{
    if !blocks.is_taken(place) {
        return false;
    }
    for index in 0..blocks.reference_count(place) {
        if !leads(blocks, blocks.reference(place, index)) {
            return false;
        }
    }
    true
}

fn are_scannable(blocks: &Blocks, batch: &[Place]) -> bool
    ensures { IsTrue result → AreScannable blocks.now batch.now }
{
    for place in batch {
        if !is_scannable(blocks, *place) {
            return false;
        }
    }
    true
}

/// Lets the first reference of a block lead to another, where that can be.
fn link(blocks: &mut Blocks, place: Place, target: Place) {
    if blocks.is_taken(place) && blocks.reference_count(place) > 0 && leads(blocks, Some(target)) {
        blocks.store_ref(place, 0, Some(target));
    }
}

/// The places of 61 blocks, each of which refers to the one before it. A third of them is marked in cycle 1.
fn linked(alloc: Global, blocks: &mut Blocks, part: Part) -> Result<Vec<Place>, AllocError> {
    let mut places = Vec::new(alloc);
    let mut before = None;
    for number in 0..61_u64 {
        if let Ok(place) = blocks.make(part, 0, Birth(0), number % 3) {
            if let Some(target) = before {
                link(blocks, place, target);
            }
            places.push(place)?;
            before = Some(place);
        }
    }
    Ok(places)
}

/// A batch that goes through the places again and again.
fn batch_of(alloc: Global, places: &[Place], length: usize) -> Result<Vec<Place>, AllocError> {
    let mut batch = Vec::new(alloc);
    for place in places.iter().cycle().take(length) {
        batch.push(*place)?;
    }
    Ok(batch)
}

/// Whether two scanners find the same: lists, and which are settled.
fn find_the_same<S: Scanner, T: Scanner>(
    one: &mut S,
    other: &mut T,
    blocks: &Blocks,
    batch: &[Place],
) -> Result<bool, NoMemory>
    requires { AreScannable blocks.now batch.now }
{
    let lists = one.scan(blocks, batch)?;
    let are_same = lists == other.scan(blocks, batch)?;
    let settled = one.settled(blocks, 1, batch)?;
    Ok(are_same && settled == other.settled(blocks, 1, batch)?)
}

/// Whether a crew, which is alone only if it is of one, finds what one thread finds.
fn finds_the_same<R: Threads, G: CrewGate>(
    rt: &R,
    alloc: Global,
    workers: usize,
    gate: &G,
    blocks: &Blocks,
    batch: &[Place],
) -> Result<bool, NoMemory>
    requires workers { (0 < workers) × (workers ≤ 64) }
    requires scannable { AreScannable blocks.now batch.now }
{
    let mut crew = CrewScan::new(rt, alloc, workers, gate);
    let is_crew = workers > 1;
    let is_called = crew.is_alone() != is_crew && crew.pays(0) == is_crew;
    let is_same = find_the_same(&mut crew, &mut OneScan::new(alloc), blocks, batch)?;
    Ok(is_called && is_same)
}

/// How many places a batch has, how many pieces, and by how many workers at most it is shared.
#[derive(Clone, Copy)]
struct Batch {
    length: usize,
    pieces: u64,
    most: u32,
}

const BATCHES: [(usize, u64, u32); 6] = [
    (0, 0, 1),
    (1, 1, 1),
    (16, 1, 1),
    (17, 2, 2),
    (104, 7, 2),
    (1_024, 64, 5),
];

impl Batch {
    /// Whether a crew finds what one thread finds, each piece passes the hook once for either, and as many workers as there
    /// can be share the batch.
    fn is_shared<R: Threads>(
        &self,
        rt: &R,
        alloc: Global,
        workers: usize,
        blocks: &Blocks,
        batch: &[Place],
    ) -> Result<bool, NoMemory>
        requires workers { (0 < workers) × (workers ≤ 64) }
        requires scannable { AreScannable blocks.now batch.now }
    {
        let gate = Watch::new(self.most.min(workers as u32));
        let is_same = finds_the_same(rt, alloc, workers, &gate, blocks, batch)?;
        let wanted = Seen {
            passed: self.pieces.saturating_mul(2),
            cut: u64::from(self.pieces > 1).saturating_mul(2),
            faults: 0,
        };
        Ok(is_same && gate.seen() == wanted)
    }

    /// The same by each crew.
    fn is_shared_by_all<R: Threads>(
        &self,
        rt: &R,
        alloc: Global,
        blocks: &Blocks,
        batch: &[Place],
    ) -> Result<bool, NoMemory>
        requires { AreScannable blocks.now batch.now }
    {
        for workers in [1, 2, 5, 7, 64] {
            if !self.is_shared(rt, alloc, workers, blocks, batch)? {
                return Ok(false);
            }
        }
        Ok(true)
    }

    /// The same of a batch that goes through these places.
    fn is_right<R: Threads>(
        &self,
        rt: &R,
        alloc: Global,
        blocks: &Blocks,
        places: &[Place],
    ) -> Result<bool, NoMemory> {
        let batch = batch_of(alloc, places, self.length)?;
        if batch.len() != self.length || !are_scannable(blocks, &batch) {
            return Ok(false);
        }
        self.is_shared_by_all(rt, alloc, blocks, &batch)
    }
}

/// How many places the first batch has of which this is wrong, if one is.
fn first_wrong<R: Threads>(
    rt: &R,
    alloc: Global,
    blocks: &Blocks,
    places: &[Place],
) -> Result<Option<usize>, NoMemory> {
    for (length, pieces, most) in BATCHES {
        let batch = Batch {
            length,
            pieces,
            most,
        };
        if !batch.is_right(rt, alloc, blocks, places)? {
            return Ok(Some(length));
        }
    }
    Ok(None)
}

/// The same of batches of linked blocks of this part.
fn first_wrong_of<R: Threads>(
    rt: &R,
    alloc: Global,
    blocks: &mut Blocks,
    part: Part,
) -> Result<Option<usize>, NoMemory> {
    let places = linked(alloc, blocks, part)?;
    first_wrong(rt, alloc, blocks, &places)
}

#[test]
fn each_piece_passes_the_gate_once(rt: HostRuntime) -> Result<(), Fail> {
    let all = parts(Rules::Second, 1, 0).ok_or("too large")?;
    let _ = all.count();
    let part = all.get(0);
    let wrong = {
        let mut blocks = Blocks::open(rt.alloc(), 4)?;
        first_wrong_of(&rt, rt.alloc(), &mut blocks, part)
    };
    assert_eq!(rt; wrong?, None);
    Ok(())
}

/// The places of 64 blocks of this part, each of which refers to nothing.
fn unlinked(alloc: Global, blocks: &mut Blocks, part: Part) -> Result<Vec<Place>, AllocError> {
    let mut places = Vec::new(alloc);
    for _ in 0..64 {
        if let Ok(place) = blocks.make(part, 0, Birth(0), 0) {
            places.push(place)?;
        }
    }
    Ok(places)
}

/// With so many bytes left a crew of two can be hired, and no piece be scanned: the lists of one take 15,488.
const FOR_A_CREW: usize = 1_024;

/// Whether a crew of two is then refused, and how many pieces passed its hook.
fn refused_with_little<R: Threads>(
    rt: &R,
    alloc: Global,
    famine: &mut Famine,
    blocks: &Blocks,
    batch: &[Place],
) -> Result<(bool, u64), NoMemory>
    requires { AreScannable blocks.now batch.now }
{
    let gate = Watch::new(0);
    famine.leave(FOR_A_CREW)?;
    let lists = CrewScan::new(rt, alloc, 2, &gate).scan(blocks, batch);
    famine.leave(PLENTY)?;
    Ok((lists.is_err(), gate.seen().passed))
}

/// The same of a batch of four pieces, at a second try. Once a thread was to be started the C library finds places that
/// were not taken, and the famine takes these from then on.
fn refused_at_second<R: Threads>(
    rt: &R,
    alloc: Global,
    part: Part,
) -> Result<(bool, u64), NoMemory> {
    let mut blocks = Blocks::open(alloc, 2)?;
    let batch = unlinked(alloc, &mut blocks, part)?;
    if !are_scannable(&blocks, &batch) {
        return Ok((false, 0));
    }
    let mut famine = begin_with_plenty(alloc)?;
    let _ = refused_with_little(rt, alloc, &mut famine, &blocks, &batch)?;
    refused_with_little(rt, alloc, &mut famine, &blocks, &batch)
}

/// Each of the two workers has passed the hook with a piece, though none could be scanned. So the hook comes before the
/// scan.
#[test]
fn a_piece_passes_the_hook_before_its_scan(rt: HostRuntime) -> Result<(), Fail> {
    let all = parts(Rules::Second, 1, 0).ok_or("too large")?;
    let _ = all.count();
    let found = refused_at_second(&rt, rt.alloc(), all.get(0))?;
    assert_eq!(rt; found, (true, 2));
    Ok(())
}
