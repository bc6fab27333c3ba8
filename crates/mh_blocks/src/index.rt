//! The index of marks and of forwarders beside the words. The invariant of `Blocks` keeps it, and no public contract
//! names it.
ghost use Rattle.std.specs.Prelude.{◌≡◌, ◌==◌, ◌<◌, ◌≤◌, ◌+◌, ◌*◌, ℕ, true, false, length, get_or, set, replicate, IfOk};
ghost use Rattle.mh_bits.specs.Bits.{has_bit};

use mh_bits::place_set::PlaceSet;
use mh_model::memory::NoMemory;
use mh_model::place::Place;
use std::alloc::Global;
use std::marker::Model;

/// Which places have blocks that are marked in a cycle, and which have forwarders: a bit a place, so that most blocks are
/// asked without a look at their words, which are seldom in the cache.
#[derive(Drop)]
pub struct Index {
    marked: PlaceSet,
    forwarders: PlaceSet,
    cycle: u64,
}

impl Model for Index {
    ghost use Rattle.mh_blocks.specs.Auxiliary as book;

    ghost Value = { book.Index };

    ghost view = { λ index. record { marked = index.marked; forwarders = index.forwarders; cycle = index.cycle } };
}

impl Index {
    /// The index of so many free pages.
    pub fn open(alloc: Global, pages: usize) -> Result<Index, NoMemory>
        ensures { IfOk result (λ index. index ≡ record { marked = replicate (64 * pages) false; forwarders = replicate (64 * pages) false; cycle = 0 }) }
    {
        Ok(Index {
            marked: PlaceSet::open(alloc, pages)?,
            forwarders: PlaceSet::open(alloc, pages)?,
            cycle: 0,
        })
    }

    /// The cycle of the marks.
    pub fn cycle(&self) -> u64
        ensures { result ≡ self.now.cycle }
    {
        self.cycle
    }

    /// Takes all marks out, and goes on with those of another cycle.
    pub fn begin(&mut self, cycle: u64)
        ensures { self.new ≡ record (self.old) { marked = replicate (length self.old.marked) false; cycle = cycle } }
    {
        self.marked.clear();
        self.cycle = cycle;
    }

    /// Whether a place is marked.
    pub fn is_marked(&self, place: Place) -> bool
        requires { place < length self.now.marked }
        ensures { result ≡ get_or self.now.marked place false }
    {
        self.marked.has(place)
    }

    /// Whether a place has a forwarder.
    pub fn is_forwarder(&self, place: Place) -> bool
        requires { place < length self.now.forwarders }
        ensures { result ≡ get_or self.now.forwarders place false }
    {
        self.forwarders.has(place)
    }

    /// The block at a place has this stamp now.
    pub fn stamp(&mut self, place: Place, stamp: u64)
        requires { place < length self.old.marked }
        ensures { self.new ≡ record (self.old) { marked = set self.old.marked place (stamp == self.old.cycle) } }
    {
        if stamp == self.cycle {
            self.marked.insert(place);
        } else {
            self.marked.remove(place);
        }
    }

    /// The block at a place is taken back.
    pub fn release(&mut self, place: Place)
        requires marked { place < length self.old.marked }
        requires forwarders { place < length self.old.forwarders }
        ensures { self.new ≡ record (self.old) { marked = set self.old.marked place false; forwarders = set self.old.forwarders place false } }
    {
        self.marked.remove(place);
        self.forwarders.remove(place);
    }

    /// The block at a place is a forwarder now, and what it was is at another place.
    pub fn relocate(&mut self, place: Place, to: Place)
        requires marked { place < length self.old.marked }
        requires to { to < length self.old.marked }
        requires forwarders { place < length self.old.forwarders }
        ensures { self.new ≡ record (self.old) { marked = set self.old.marked to (get_or self.old.marked place false); forwarders = set self.old.forwarders place true } }
    {
        if self.marked.has(place) {
            self.marked.insert(to);
        } else {
            self.marked.remove(to);
        }
        self.forwarders.insert(place);
    }

    /// The slots of a page whose blocks are marked, a bit for each.
    pub fn marked_slots(&self, page: usize) -> u64
        requires { 64 * page + 64 ≤ length self.now.marked }
        ensures { (slot : ℕ) → slot < 64 → has_bit result slot ≡ get_or self.now.marked (64 * page + slot) false }
    {
        self.marked.slots_of(page)
    }

    /// The slots of a page that have forwarders, a bit for each.
    pub fn forwarder_slots(&self, page: usize) -> u64
        requires { 64 * page + 64 ≤ length self.now.forwarders }
        ensures { (slot : ℕ) → slot < 64 → has_bit result slot ≡ get_or self.now.forwarders (64 * page + slot) false }
    {
        self.forwarders.slots_of(page)
    }
}
