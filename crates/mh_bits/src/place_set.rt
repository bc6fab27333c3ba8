//! A set of places, a word a page. A place is put in, taken out or looked up, and all are taken out. The slots of a
//! page are given as the bits of a word, so that all are asked together. No search for a place reads these words, so
//! they aren't counted.
ghost use Rattle.std.specs.Prelude.{◌≡◌, ◌<◌, ◌≤◌, ◌+◌, ◌*◌, ℕ, true, false, length, get_or, set, replicate, IfOk};
ghost use Rattle.mh_bits.specs.Bits.{has_bit};

use mh_model::memory::NoMemory;
use mh_model::place::Place;
use std::alloc::Global;
use std::marker::Model;

/// A set of places, in a word for each page with a bit for each slot.
#[derive(Drop)]
pub struct PlaceSet {
    words: Vec<u64>,
}

impl Model for PlaceSet {
    ghost use Rattle.std.specs.Prelude.{List, Bool};
    ghost use Rattle.mh_bits.specs.Auxiliary.{bits_of};

    ghost Value = { List Bool };

    ghost view = { λ places. bits_of places.words.items };
}

impl PlaceSet {
    /// No place of so many pages.
    pub fn open(alloc: Global, pages: usize) -> Result<PlaceSet, NoMemory>
        ensures { IfOk result (λ places. places ≡ replicate (64 * pages) false) }
    {
        Ok(PlaceSet {
            words: Vec::from_elem(alloc, 0, pages)?,
        })
    }

    /// Whether a place is in the set.
    pub fn has(&self, place: Place) -> bool
        requires { place < length self.now }
        ensures { result ≡ get_or self.now place false }
    {
        self.words[place.page()] >> place.slot() & 1 == 1
    }

    /// Adds a place.
    pub fn insert(&mut self, place: Place)
        requires { place < length self.old }
        ensures { self.new ≡ set self.old place true }
    {
        self.words[place.page()] |= 1 << place.slot();
    }

    /// Takes a place out.
    pub fn remove(&mut self, place: Place)
        requires { place < length self.old }
        ensures { self.new ≡ set self.old place false }
    {
        self.words[place.page()] &= !(1 << place.slot());
    }

    /// Takes all places out.
    pub fn clear(&mut self)
        ensures { self.new ≡ replicate (length self.old) false }
    {
        self.words.fill(0);
    }

    /// The slots of a page whose places are in the set, a bit for each.
    pub fn slots_of(&self, page: usize) -> u64
        requires { 64 * page + 64 ≤ length self.now }
        ensures { (slot : ℕ) → slot < 64 → has_bit result slot ≡ get_or self.now (64 * page + slot) false }
    {
        self.words[page]
    }
}
