//! Pages of blocks of words. They are the model's table after every call.
//!
//! A place is taken, or given back with its page or without. A page is freed, flagged or unflagged. A word or a header
//! is written, and what is read is what is stored. Which slots of a page have a block is given as the bits of a word.
//! How many places of all pages are free for a class is counted. Reading a word only to load its cache line returns
//! nothing and changes nothing.
//!
//! The least place of a class is the model's, by its three tiers: unflagged pages of the class, free pages, flagged
//! pages of the class. For moves it is that of the first tier alone. The search reads at most five words. It reads the
//! summary of the set of each tier to which it comes. In the tier that gives a place it also reads the word of the set,
//! and of a page in use its free slots. That a search keeps one tally from its beginning to its end is seen by reading
//! its body. The linear search was never written: contracts don't distinguish one search from another, except by the
//! words that are read.
//!
//! A page has one word for its class and flag, and one for its free slots. Its sets are written only when it changes
//! what it is a member of. So taking or giving back a place writes one word beside the block's own, if the page had a
//! free slot and keeps one. A slot that becomes free keeps its words: to clear each one's birth costs `bench/plain.rs`
//! 3 % on churn (2026-11-27).
//!
//! `release` with its page, and `free_page`, require that no other block is there. `free_page` stands beside `release`
//! for the sweep, whose last slot may have no block.
ghost use Rattle.std.specs.Prelude.{ℕ, ◌≡◌, ◌<◌, ◌≤◌, ◌*◌, ◌+◌, ◌-◌, ◌/◌, ◌^◌, length, get_or, replicate, set, None, Some, IfOk, is_some, IsSome, IfSome, IsTrue, MatchOption, true, false, option_map};
ghost use Rattle.mh_bits.specs.Bits.{has_bit};
ghost use Rattle.mh_model.specs.Classes.{is_class_size, slots_in};
ghost use Rattle.mh_model.specs.Pages.{HaveTheirSlots, IsFreeFor, block_at, class_at, count_at, flag_at, free_pages, fresh_slot, has_denser, is_sparse, least, least_dense_place, least_place, open_slot, page_at, page_number, slot_number, with_block, with_flag, with_released, with_taken};
ghost use Rattle.mh_pages.specs.{Addresses.address_in, FreePlaces.{free_in, free_places}};
ghost use Rattle.mh_pages.specs.{Auxiliary.{AreApart, IsCopied}, Words.{header_at, with_header, with_word, words_at}};

use crate::address::Address;
use crate::header::{BIRTH, COUNTS, FORWARD, Header, STAMP};
use crate::index::{DENSE, FREE, ROOMY, SPARSE, change, change_free, put_all};
use crate::warmth::Warmth;
use mh_bits::counted::{Counted, ReadCount};
use mh_bits::page_sets::PageSets;
use mh_classes::class::Class;
use mh_model::limits::{PAGE_WORDS, PLACES};
use mh_model::memory::NoMemory;
use mh_model::place::Place;
use std::alloc::Global;
use std::marker::Model;

/// Pages of blocks: for each page its head (0 if it is free, and else twice the size of its class
/// and 1 for its flag) and a word with a bit for each slot without a block, the words of all pages,
/// the sets that the search for a place reads, and how many pages are free.
#[derive(Drop)]
pub struct Pages {
    heads: Counted,
    frees: Counted,
    words: Counted,
    sets: PageSets,
    free: usize,
}

impl Model for Pages {
    ghost use Rattle.std.specs.Prelude.{List, ℕ};
    ghost use Rattle.mh_model.specs.Pages.{Table};
    ghost use Rattle.mh_pages.specs.Auxiliary.{shown_table, AreStored};

    ghost Value = { Table (List ℕ) };

    ghost view = { λ pages. shown_table pages.heads pages.frees pages.words };

    ghost invariant = { λ pages. AreStored pages.heads pages.frees pages.words pages.sets pages.free };
}

/// The class of a page in use, by its head.
fn class_of_head(head: u64) -> Class
    requires { IsTrue (is_class_size (head / 2)) }
    ensures { result ≡ head / 2 }
{
    Class::of_size((head / 2) as usize)
}

/// A word with a bit for each slot of a page of this class.
fn all_slots(class: Class) -> u64
    ensures { result ≡ 2 ^ slots_in class - 1 }
{
    u64::MAX >> (PLACES - class.slots())
}

/// The first word of a slot of a page in use.
fn start_of(heads: &Counted, place: Place) -> usize
    requires few { length heads.now ≤ 4096 }
    requires page { page_number place < length heads.now }
    requires class { get_or heads.now (page_number place) 0 / 2 ≤ 64 }
    ensures { result ≡ 256 * page_number place + slot_number place * (get_or heads.now (page_number place) 0 / 2) }
{
    let mut tally = ReadCount::new();
    let size = heads.read(place.page(), &mut tally) as usize / 2;
    PAGE_WORDS * place.page() + place.slot() * size
}

/// Copies so many words to where others begin.
fn copy_words(words: &mut Counted, source: usize, first: usize, count: usize)
    requires source { source + count ≤ length words.old }
    requires first { first + count ≤ length words.old }
    requires apart { AreApart source first count }
    requires few { length words.old ≤ 2 ^ 32 }
    ensures { IsCopied words.old words.new source first count }
{
    for index in 0..count {
        let mut tally = ReadCount::new();
        let word = words.read(source + index, &mut tally);
        words.write(first + index, word);
    }
}

impl Pages {
    /// So many free pages.
    pub fn open(alloc: Global, pages: usize) -> Result<Pages, NoMemory>
        requires { pages ≤ 4096 }
        ensures { IfOk result (λ opened. opened ≡ replicate pages None) }
    {
        let mut sets = PageSets::open(alloc, FREE + 1)?;
        put_all(&mut sets, pages);
        Ok(Pages {
            heads: Counted::zeros(alloc, pages)?,
            frees: Counted::zeros(alloc, pages)?,
            words: Counted::zeros(alloc, PAGE_WORDS * pages)?,
            sets,
            free: pages,
        })
    }

    /// How many pages there are.
    pub fn len(&self) -> usize
        ensures count { result ≡ length self.now }
        ensures few { result ≤ 4096 }
        ensures slots { HaveTheirSlots self.now }
    {
        self.heads.len()
    }

    /// Reads a word, if there is one of this number among the words of all pages, so that it is in the cache.
    pub fn warm(&self, word: usize, warmth: &mut Warmth)
        ensures { warmth.new ≡ warmth.old }
    {
        let mut tally = ReadCount::new();
        if word < self.words.len() {
            warmth.add(self.words.read(word, &mut tally));
        }
    }

    // The least place ----------------------------------------------------------------------------

    /// The first tier: the least free place in the unflagged pages of a class.
    fn least_dense(&self, class: Class, tally: &mut ReadCount) -> Option<Place>
        requires { tally.old < 2 ^ 60 }
        ensures place { result ≡ least_dense_place self.now class }
        ensures free { IfSome result (IsFreeFor self.now class) }
        ensures counted { MatchOption result (tally.new ≡ tally.old + 1) (λ place. tally.new ≡ tally.old + 3) }
    {
        match self.sets.least(3 * class.number() + ROOMY, tally) {
            Some(page) => Some(Place(
                PLACES * page + self.frees.read(page, tally).trailing_zeros() as usize,
            )),
            None => None,
        }
    }

    /// The second tier: the first slot of the least free page.
    fn least_fresh(&self, class: Class, tally: &mut ReadCount) -> Option<Place>
        requires { tally.old < 2 ^ 60 }
        ensures place { result ≡ least fresh_slot self.now }
        ensures free { IfSome result (IsFreeFor self.now class) }
        ensures counted { MatchOption result (tally.new ≡ tally.old + 1) (λ place. tally.new ≡ tally.old + 2) }
    {
        let _ = class.number();
        match self.sets.least(FREE, tally) {
            Some(page) => Some(Place(PLACES * page)),
            None => None,
        }
    }

    /// The third tier: the least free place in the flagged pages of a class.
    fn least_sparse(&self, class: Class, tally: &mut ReadCount) -> Option<Place>
        requires { tally.old < 2 ^ 60 }
        ensures place { result ≡ least (open_slot (is_sparse class)) self.now }
        ensures free { IfSome result (IsFreeFor self.now class) }
        ensures counted { MatchOption result (tally.new ≡ tally.old + 1) (λ place. tally.new ≡ tally.old + 3) }
    {
        match self.sets.least(3 * class.number() + SPARSE, tally) {
            Some(page) => Some(Place(
                PLACES * page + self.frees.read(page, tally).trailing_zeros() as usize,
            )),
            None => None,
        }
    }

    /// The least place of a class, and how many words the search read.
    pub fn place_counted(&self, class: Class) -> (Option<Place>, u64)
        ensures place { result.0 ≡ least_place self.now class }
        ensures free { IfSome result.0 (IsFreeFor self.now class) }
        ensures few { result.1 ≤ 5 }
    {
        let mut tally = ReadCount::new();
        if let Some(place) = self.least_dense(class, &mut tally) {
            return (Some(place), tally.reads());
        }
        if let Some(place) = self.least_fresh(class, &mut tally) {
            return (Some(place), tally.reads());
        }
        let place = self.least_sparse(class, &mut tally);
        (place, tally.reads())
    }

    /// The least place of a class.
    pub fn place(&self, class: Class) -> Option<Place>
        ensures place { result ≡ least_place self.now class }
        ensures free { IfSome result (IsFreeFor self.now class) }
    {
        self.place_counted(class).0
    }

    /// The least place of a class in its unflagged pages, the only ones that a block may move to.
    pub fn place_dense(&self, class: Class) -> Option<Place>
        ensures place { result ≡ least_dense_place self.now class }
        ensures free { IfSome result (IsFreeFor self.now class) }
    {
        let mut tally = ReadCount::new();
        self.least_dense(class, &mut tally)
    }

    /// Whether a page below this one is of a class and unflagged.
    pub fn has_denser(&self, page: usize, class: Class) -> bool
        ensures { result ≡ has_denser self.now page class }
    {
        let mut tally = ReadCount::new();
        self.sets
            .has_lower(3 * class.number() + DENSE, page, &mut tally)
    }

    // Blocks made and given back -----------------------------------------------------------------

    /// Takes a place that is free for a class. Its block has the words that stand there already.
    fn take_slot(&mut self, class: Class, place: Place)
        requires { IsFreeFor self.old class place }
        ensures { self.new ≡ with_taken self.old class place (words_at self.new place) }
    {
        let page = place.page();
        let slot = 1 << place.slot();
        let mut tally = ReadCount::new();
        let head = self.heads.read(page, &mut tally);
        if head == 0 {
            self.free -= 1;
            change(
                &mut self.heads,
                &mut self.frees,
                &mut self.sets,
                page,
                class,
                2 * class.size() as u64,
                all_slots(class) & !slot,
            );
        } else {
            let before = self.frees.read(page, &mut tally);
            change_free(
                &self.heads,
                &mut self.frees,
                &mut self.sets,
                page,
                class,
                before & !slot,
            );
        }
    }

    /// Takes a place that is free for a class, with a block of words that are 0.
    pub fn take(&mut self, class: Class, place: Place)
        requires { IsFreeFor self.old class place }
        ensures { self.new ≡ with_taken self.old class place (replicate class 0) }
    {
        self.take_slot(class, place);
        let first = start_of(&self.heads, place);
        self.words.clear(first, first + class.size());
    }

    /// Takes a place that is free for a class, with a copy of a block of the class.
    pub fn take_copy(&mut self, class: Class, place: Place, source: Place)
        requires free { IsFreeFor self.old class place }
        requires there { IsSome (block_at self.old source) }
        requires class { class_at self.old (page_number source) ≡ Some class }
        ensures { self.new ≡ with_taken self.old class place (words_at self.old source) }
    {
        self.take_slot(class, place);
        let source = start_of(&self.heads, source);
        let first = start_of(&self.heads, place);
        copy_words(&mut self.words, source, first, class.size());
    }

    /// Takes the block at a place back, whose page stays in use. No word of the block is touched:
    /// a block's words are cleared as its place is taken again.
    fn release_slot(&mut self, place: Place)
        requires { IsSome (block_at self.old place) }
        ensures { self.new ≡ with_block self.old place None }
    {
        let page = place.page();
        let mut tally = ReadCount::new();
        let head = self.heads.read(page, &mut tally);
        let before = self.frees.read(page, &mut tally);
        let class = class_of_head(head);
        change_free(
            &self.heads,
            &mut self.frees,
            &mut self.sets,
            page,
            class,
            before | 1 << place.slot(),
        );
    }

    /// Takes the block at a place back, and frees its page if this is asked.
    pub fn release(&mut self, place: Place, frees_page: bool)
        requires there { IsSome (block_at self.old place) }
        requires alone { frees_page ≡ true → count_at self.old (page_number place) ≡ 1 }
        ensures { self.new ≡ with_released self.old place frees_page }
    {
        self.release_slot(place);
        if frees_page {
            self.free_page(place.page());
        }
    }

    /// Frees a page in use that has no block.
    pub fn free_page(&mut self, page: usize)
        requires used { IsSome (page_at self.old page) }
        requires empty { count_at self.old page ≡ 0 }
        ensures { self.new ≡ set self.old page None }
    {
        let mut tally = ReadCount::new();
        let class = class_of_head(self.heads.read(page, &mut tally));
        self.free += 1;
        change(
            &mut self.heads,
            &mut self.frees,
            &mut self.sets,
            page,
            class,
            0,
            0,
        );
    }

    // Pages --------------------------------------------------------------------------------------

    /// Sets the flag of a page in use. Its sets are touched only if the flag changes.
    fn set_flag(&mut self, page: usize, is_flagged: bool)
        requires { IsSome (page_at self.old page) }
        ensures { self.new ≡ with_flag self.old page is_flagged }
    {
        if self.is_flagged(page) == is_flagged {
            return;
        }
        let mut tally = ReadCount::new();
        let head = self.heads.read(page, &mut tally);
        let free = self.frees.read(page, &mut tally);
        let class = class_of_head(head);
        change(
            &mut self.heads,
            &mut self.frees,
            &mut self.sets,
            page,
            class,
            head / 2 * 2 + u64::from(is_flagged),
            free,
        );
    }

    /// Flags a page in use.
    pub fn flag(&mut self, page: usize)
        requires { IsSome (page_at self.old page) }
        ensures { self.new ≡ with_flag self.old page true }
    {
        self.set_flag(page, true);
    }

    /// Takes the flag from a page in use.
    pub fn unflag(&mut self, page: usize)
        requires { IsSome (page_at self.old page) }
        ensures { self.new ≡ with_flag self.old page false }
    {
        self.set_flag(page, false);
    }

    /// The class of a page in use, and none of a free one.
    pub fn class_at(&self, page: usize) -> Option<Class>
        requires { page < length self.now }
        ensures { result ≡ class_at self.now page }
    {
        let mut tally = ReadCount::new();
        let head = self.heads.read(page, &mut tally);
        if head == 0 {
            return None;
        }
        Some(class_of_head(head))
    }

    /// Whether a page is in use and flagged.
    pub fn is_flagged(&self, page: usize) -> bool
        requires { page < length self.now }
        ensures { result ≡ flag_at self.now page }
    {
        let mut tally = ReadCount::new();
        self.heads.read(page, &mut tally) % 2 == 1
    }

    /// How many blocks a page has.
    pub fn live_in(&self, page: usize) -> usize
        requires { page < length self.now }
        ensures count { result ≡ count_at self.now page }
        ensures few { result ≤ 64 }
    {
        let mut tally = ReadCount::new();
        let head = self.heads.read(page, &mut tally);
        if head == 0 {
            return 0;
        }
        class_of_head(head).slots() - self.frees.read(page, &mut tally).count_ones() as usize
    }

    /// The slots of a page that have a block, as the bits of a word.
    pub fn taken_slots(&self, page: usize) -> u64
        requires { page < length self.now }
        ensures { (slot : ℕ) → slot < 64 → has_bit result slot ≡ is_some (block_at self.now (64 * page + slot)) }
    {
        let mut tally = ReadCount::new();
        let head = self.heads.read(page, &mut tally);
        if head == 0 {
            return 0;
        }
        let free = self.frees.read(page, &mut tally);
        !free & all_slots(class_of_head(head))
    }

    /// How many pages are free.
    pub fn free_pages(&self) -> usize
        ensures { result ≡ free_pages self.now }
    {
        self.free
    }

    /// How many places of a page are free for a class, whether the page is flagged or not.
    fn free_in(&self, page: usize, class: Class) -> usize
        requires { page < length self.now }
        ensures count { result ≡ free_in class (page_at self.now page) }
        ensures few { result ≤ 64 }
    {
        let mut tally = ReadCount::new();
        let head = self.heads.read(page, &mut tally);
        if head == 0 {
            return class.slots();
        }
        if head / 2 != class.size() as u64 {
            return 0;
        }
        self.frees.read(page, &mut tally).count_ones() as usize
    }

    /// How many places are free for a class. Each page is read.
    pub fn free_places(&self, class: Class) -> usize
        ensures count { result ≡ free_places self.now class }
        ensures slots { HaveTheirSlots self.now }
    {
        let mut count = 0;
        for page in 0..self.len() {
            count += self.free_in(page, class);
        }
        count
    }

    // Words --------------------------------------------------------------------------------------

    /// Whether a place has a block.
    pub fn is_taken(&self, place: Place) -> bool
        ensures { result ≡ is_some (block_at self.now place) }
    {
        let page = place.page();
        if page >= self.heads.len() {
            return false;
        }
        let mut tally = ReadCount::new();
        let head = self.heads.read(page, &mut tally);
        if head == 0 {
            return false;
        }
        let size = class_of_head(head).size();
        (place.slot() + 1) * size <= PAGE_WORDS
            && self.frees.read(page, &mut tally) >> place.slot() & 1 == 0
    }

    /// Where the block at a place stands.
    pub fn address(&self, place: Place) -> Address
        requires { IsSome (block_at self.now place) }
        ensures { result ≡ address_in self.now place }
    {
        Address {
            place,
            word: start_of(&self.heads, place),
        }
    }

    /// A word of the block at an address.
    pub fn word_from(&self, address: Address, index: usize) -> u64
        requires at { address ≡ address_in self.now address.place }
        requires within { index < length (words_at self.now address.place) }
        ensures { result ≡ get_or (words_at self.now address.place) index 0 }
    {
        let mut tally = ReadCount::new();
        self.words.read(address.word + index, &mut tally)
    }

    /// Writes a word of the block at an address.
    pub fn set_word_from(&mut self, address: Address, index: usize, word: u64)
        requires at { address ≡ address_in self.old address.place }
        requires within { index < length (words_at self.old address.place) }
        ensures { self.new ≡ with_word self.old address.place index word }
    {
        self.words.write(address.word + index, word);
    }

    /// A word of the block at a place.
    pub fn word(&self, place: Place, index: usize) -> u64
        requires { index < length (words_at self.now place) }
        ensures { result ≡ get_or (words_at self.now place) index 0 }
    {
        self.word_from(self.address(place), index)
    }

    /// Writes a word of the block at a place.
    pub fn set_word(&mut self, place: Place, index: usize, word: u64)
        requires { index < length (words_at self.old place) }
        ensures { self.new ≡ with_word self.old place index word }
    {
        let address = self.address(place);
        self.set_word_from(address, index, word);
    }

    /// The header of the block at a place, if there is one.
    pub fn header(&self, place: Place) -> Option<Header>
        ensures { result ≡ option_map header_at (block_at self.now place) }
    {
        let _ = &self.free;
        if !self.is_taken(place) {
            return None;
        }
        let address = self.address(place);
        Some(Header {
            birth: self.word_from(address, BIRTH),
            counts: self.word_from(address, COUNTS),
            stamp: self.word_from(address, STAMP),
            forward: self.word_from(address, FORWARD),
        })
    }

    /// Writes the header of the block at a place.
    pub fn set_header(&mut self, place: Place, header: Header)
        requires { IsSome (block_at self.old place) }
        ensures { self.new ≡ with_header self.old place header }
    {
        let _ = &self.free;
        let address = self.address(place);
        self.set_word_from(address, BIRTH, header.birth);
        self.set_word_from(address, COUNTS, header.counts);
        self.set_word_from(address, STAMP, header.stamp);
        self.set_word_from(address, FORWARD, header.forward);
    }
}
