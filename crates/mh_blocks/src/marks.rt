//! What is asked of blocks most often: whether one is marked in a cycle or is a forwarder, which slots of a page have
//! one, and which of these a sweep frees.
//!
//! An index beside the words answers, which the invariant keeps. So marks are asked here, and not of the grey list. A
//! cycle of which no block has the stamp begins its marks; of any other cycle the stamps answer. `is_marked` takes the
//! cycle's number, since a mark is a stamp equal to it and the collector alone counts cycles.
ghost use Rattle.std.specs.Prelude.{◌≡◌, ◌≢◌, ◌==◌, ◌<◌, ◌+◌, ◌*◌, ℕ, IsSome, is_some, length};
ghost use Rattle.mh_model.specs.{Pages.block_at, Table.{stamp_at, forward_at}};
ghost use Rattle.mh_bits.specs.Bits.{has_bit};
ghost use Rattle.mh_blocks.specs.Marks.{is_dead};

use crate::blocks::Blocks;
use mh_model::limits::PLACES;
use mh_model::place::Place;

/// What is asked of blocks most often. While the cycle is the one that began last, no word of a block is read for it.
impl Blocks {
    /// Lets the marks of a cycle be those that are asked for from now on. No block has its stamp yet.
    pub fn begin_cycle(&mut self, cycle: u64)
        requires { (place : ℕ) → IsSome (block_at self.old place) → stamp_at self.old place ≢ cycle }
        ensures { self.new ≡ self.old }
    {
        self.index.begin(cycle);
    }

    /// Whether a block is marked in the cycle of this number.
    pub fn is_marked(&self, place: Place, cycle: u64) -> bool
        requires { IsSome (block_at self.now place) }
        ensures { result ≡ (stamp_at self.now place == cycle) }
    {
        if self.index.cycle() == cycle {
            self.index.is_marked(place)
        } else {
            self.stamp(place) == cycle
        }
    }

    /// Whether the block at a place has moved and leads to where it is now.
    #[tactic(auto, using(crate::proofs::ForwarderLemmas::no_forwarder))]
    pub fn is_forwarder(&self, place: Place) -> bool
        requires { IsSome (block_at self.now place) }
        ensures { result ≡ is_some (forward_at self.now place) }
    {
        // Most of the time there is none, and the index needn't be asked.
        self.forwarder_count() != 0 && self.index.is_forwarder(place)
    }

    /// Whether a sweep frees what is at a place.
    fn is_dead(&self, place: Place, cycle: u64) -> bool
        ensures { result ≡ is_dead cycle (block_at self.now place) }
    {
        self.is_taken(place) && (self.is_forwarder(place) || !self.is_marked(place, cycle))
    }

    /// The slots of a page that a sweep frees, found block by block.
    #[tactic(auto, using(crate::proofs::DeadLemmas::none_found, crate::proofs::DeadLemmas::dead_found, crate::proofs::DeadLemmas::living_found))]
    fn dead_by_stamps(&self, page: usize, cycle: u64) -> u64
        requires { page < length self.now }
        ensures { (slot : ℕ) → slot < 64 → has_bit result slot ≡ is_dead cycle (block_at self.now (64 * page + slot)) }
    {
        // Its contract bounds the number of pages.
        let _ = self.len();
        let mut dead = 0;
        for slot in 0..PLACES {
            if self.is_dead(Place(PLACES * page + slot), cycle) {
                dead |= 1 << slot;
            }
        }
        dead
    }

    /// The slots of a page that have a block, a bit for each.
    pub fn taken_slots(&self, page: usize) -> u64
        requires { page < length self.now }
        ensures { (slot : ℕ) → slot < 64 → has_bit result slot ≡ is_some (block_at self.now (64 * page + slot)) }
    {
        self.pages.taken_slots(page)
    }

    /// The slots of a page whose blocks a sweep frees, a bit for each.
    pub fn dead_slots(&self, page: usize, cycle: u64) -> u64
        requires { page < length self.now }
        ensures { (slot : ℕ) → slot < 64 → has_bit result slot ≡ is_dead cycle (block_at self.now (64 * page + slot)) }
    {
        if self.index.cycle() != cycle {
            return self.dead_by_stamps(page, cycle);
        }
        let marked = self.index.marked_slots(page);
        let forwarders = self.index.forwarder_slots(page);
        self.pages.taken_slots(page) & (!marked | forwarders)
    }
}
