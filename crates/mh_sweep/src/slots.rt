//! Slots of a page swept by words: a word has a bit for each slot.
ghost use Rattle.std.specs.Prelude.{ℕ, ◌≡◌, ◌+◌, ◌*◌, ◌<◌, ◌≤◌, ◌&&◌, length};
ghost use Rattle.mh_model.specs.Pages.{page_number, slot_number, block_at};
ghost use Rattle.mh_bits.specs.Bits.{has_bit};
ghost use Rattle.mh_blocks.specs.Marks.{is_dead};
ghost use Rattle.mh_sweep.specs.Auxiliary.{slots_swept, is_slot_between};

use mh_blocks::blocks::Blocks;
use mh_model::limits::PLACES;
use mh_model::place::Place;

/// The slots from one on to before another, a bit for each.
fn slots_between(first: usize, end: usize) -> u64
    requires order { first < end }
    requires few { end ≤ 64 }
    ensures { (slot : ℕ) → slot < 64 → has_bit result slot ≡ is_slot_between first end slot }
{
    u64::MAX << first & u64::MAX >> (PLACES - end)
}

/// The slots among these whose blocks a sweep frees, a bit for each.
fn dead_between(blocks: &Blocks, cycle: u64, page: usize, first: usize, end: usize) -> u64
    requires inside { page < length blocks.now }
    requires order { first < end }
    requires few { end ≤ 64 }
    ensures { (slot : ℕ) → slot < 64 → has_bit result slot ≡ (is_slot_between first end slot && is_dead cycle (block_at blocks.now (64 * page + slot))) }
{
    blocks.dead_slots(page, cycle) & slots_between(first, end)
}

/// Sweeps so many slots of one page from a place on. It visits those alone whose blocks are freed.
pub(crate) fn sweep_slots(blocks: &mut Blocks, cycle: u64, place: Place, count: usize)
    requires inside { page_number place < length blocks.old }
    requires some { 0 < count }
    requires few { slot_number place + count ≤ 64 }
    ensures { blocks.new ≡ slots_swept cycle blocks.old place count }
{
    // Its contract bounds the number of pages.
    let _ = blocks.len();
    let page = place.page();
    let slot = place.slot();
    let mut left = dead_between(blocks, cycle, page, slot, slot + count);
    while left != 0 {
        let dead = left.trailing_zeros() as usize;
        blocks.unmake(Place(PLACES * page + dead), false);
        left &= !(1 << dead);
    }
}
