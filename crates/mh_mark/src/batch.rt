//! Marking by a batch: the longest front of the grey list with at most 1,024 places that fits in what is left of the
//! quantum. Table, grey list and cost are the model's, whatever the scanner answers.
ghost use Rattle.std.specs.Prelude.{◌≡◌, ℕ, ◌≤◌, ◌++◌, [], true, IsSome, length};
ghost use Rattle.mh_model.specs.{Pages.block_at, Batches.{batch_cost, longest_front}};
ghost use Rattle.mh_grey.specs.{Queue.is_in, Shading.{marking, AreMarked}};
ghost use Rattle.mh_scan.specs.Scanning.{settled_in};
ghost use Rattle.mh_mark.specs.{Kept.KeepsMarking, Walkable.IsWalkable, Auxiliary.{AreMarkable, blocks_marked}};
ghost use Rattle.mh_mark.specs.Batched.{front_of, front_marked};

use crate::mark::mark_block;
use arrayvec::ArrayVec;
use mh_blocks::blocks::Blocks;
use mh_grey::grey::Grey;
use mh_model::place::Place;
use mh_scan::scan::Scanner;

/// Marks through the blocks of a batch, one after the other.
fn mark_blocks(blocks: &mut Blocks, grey: &mut Grey, cycle: u64, batch: &[Place])
    requires pages { grey.old.pages ≡ length blocks.old }
    requires markable { AreMarkable blocks.old batch.now }
    requires marked { AreMarked blocks.old cycle grey.old.places }
    ensures table { blocks.new ≡ (blocks_marked (marking blocks.old grey.old.places cycle) batch.now).table }
    ensures grey { grey.new ≡ record { places = (blocks_marked (marking blocks.old grey.old.places cycle) batch.now).grey; pages = grey.old.pages } }
    ensures kept { KeepsMarking (marking blocks.old grey.old.places cycle) (marking blocks.new grey.new.places cycle) }
{
    for index in 0..batch.len() {
        mark_block(blocks, grey, cycle, batch[index]);
    }
}

/// Marks through the blocks of a batch that aren't settled, one after the other. Through those that are it would change
/// nothing, also after the others.
fn mark_unsettled(
    blocks: &mut Blocks,
    grey: &mut Grey,
    cycle: u64,
    batch: &[Place],
    settled: &[bool],
)
    requires pages { grey.old.pages ≡ length blocks.old }
    requires markable { AreMarkable blocks.old batch.now }
    requires marked { AreMarked blocks.old cycle grey.old.places }
    requires settled { settled.now ≡ settled_in blocks.old cycle batch.now }
    ensures table { blocks.new ≡ (blocks_marked (marking blocks.old grey.old.places cycle) batch.now).table }
    ensures grey { grey.new ≡ record { places = (blocks_marked (marking blocks.old grey.old.places cycle) batch.now).grey; pages = grey.old.pages } }
    ensures kept { KeepsMarking (marking blocks.old grey.old.places cycle) (marking blocks.new grey.new.places cycle) }
{
    for index in 0..batch.len() {
        if settled[index] {
            continue;
        }
        mark_block(blocks, grey, cycle, batch[index]);
    }
}

/// Takes the longest front of at most 1,024 places whose marking fits in what is left, as a batch, which is empty
/// before. Answers what marking through it costs.
fn take_front(blocks: &Blocks, grey: &mut Grey, left: u64, batch: &mut ArrayVec<Place, 1024>) -> u64
    requires there { (place : ℕ) → is_in place grey.old.places ≡ true → IsSome (block_at blocks.now place) }
    requires empty { batch.old.items ≡ [] }
    ensures batch { batch.new.items ≡ longest_front 1024 blocks.now left grey.old.places }
    ensures rest { grey.old.places ≡ batch.new.items ++ grey.new.places }
    ensures pages { grey.new.pages ≡ grey.old.pages }
    ensures cost { result ≡ batch_cost blocks.now batch.new.items }
    ensures fits { result ≤ left }
{
    let mut cost = 0;
    for count in 0..1024_u64 {
        if grey.is_empty() {
            break;
        }
        let one = 1 + blocks.reference_count(grey.first()) as u64;
        if left - cost < one {
            break;
        }
        batch.push(grey.pop_first());
        cost += one;
    }
    cost
}

/// By how many of its blocks the cost of a front is guessed.
const SAMPLES: usize = 8;

/// About what marking through the front of the grey list costs, by a few of its blocks. It is for a choice alone.
pub fn front_guess(blocks: &Blocks, grey: &Grey) -> u64
    requires there { (place : ℕ) → is_in place grey.now.places ≡ true → IsSome (block_at blocks.now place) }
{
    let count = grey.len().min(1024);
    if count == 0 {
        return 0;
    }
    let mut cost = 0;
    for sample in 0..SAMPLES {
        let place = grey.get(sample * count / SAMPLES);
        cost += 1 + blocks.reference_count(place);
    }
    (cost * count / SAMPLES) as u64
}

/// Marks through the longest front that fits in what is left: the scanner finds at once which of its blocks are settled,
/// and the others are marked through one after the other. If it has no memory, all are. Answers what that costs, nothing
/// if not even the first fits.
pub fn mark_batch<S: Scanner>(
    blocks: &mut Blocks,
    grey: &mut Grey,
    cycle: u64,
    scanner: &mut S,
    left: u64,
) -> u64
    requires pages { grey.old.pages ≡ length blocks.old }
    requires walkable { IsWalkable blocks.old cycle grey.old.places }
    ensures table { blocks.new ≡ (front_marked left (marking blocks.old grey.old.places cycle)).table }
    ensures grey { grey.new ≡ record { places = (front_marked left (marking blocks.old grey.old.places cycle)).grey; pages = grey.old.pages } }
    ensures cost { result ≡ batch_cost blocks.old (front_of left (marking blocks.old grey.old.places cycle)) }
    ensures fits { result ≤ left }
    ensures long { length blocks.new ≡ length blocks.old }
{
    grey.has_each_once();
    let mut batch = ArrayVec::new();
    let cost = take_front(blocks, grey, left, &mut batch);
    match scanner.settled(blocks, cycle, batch.as_slice()) {
        Ok(settled) => mark_unsettled(blocks, grey, cycle, batch.as_slice(), &settled),
        Err(_) => mark_blocks(blocks, grey, cycle, batch.as_slice()),
    }
    cost
}
