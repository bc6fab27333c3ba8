//! The table of blocks, which is the model's after every call.
//!
//! A part is made at the least place of its class, or not at all, exactly when there is none. A block is taken back. A
//! block is moved, with an equal copy and a forwarder. Stamps, headers, references and numbers are read and written as
//! in the model. A reference is forwarded as it is loaded, by one hop. How many blocks and forwarders there are is
//! known without counting.
//!
//! A part is made as `Parts` gives it, with its number, birth and stamp. Callers of blocks don't see the pages behind
//! them: getters of `Pages`, and `warm`, are here with the same arguments, which are handed on.
ghost use Rattle.std.specs.Prelude.{◌≡◌, ◌<◌, ◌≤◌, ◌^◌, IsSome, IfSome, IfOk, OnErr, Some, None, true, false, length, set, replicate, filter, is_some};
ghost use Rattle.mh_model.specs.Classes.{class_of, part_words};
ghost use Rattle.mh_model.specs.Pages.{page_number, page_at, block_at, Leads, class_at, flag_at, count_at, has_denser, least_place, least_dense_place, free_pages, with_taken, with_released, with_flag, HaveTheirSlots, IsFreeFor};
ghost use Rattle.mh_model.specs.Table.{references_at, reference_at, with_reference_at, numbers_at, number_at, with_number_at, stamp_at, with_stamp_at, forward_at, resolve, target_of, new_block, made_part, is_forwarder};
ghost use Rattle.mh_model.specs.{Collector.moved_table, Machine.blocks_of};
ghost use Rattle.mh_pages.specs.{Addresses.address_in, FreePlaces.free_places};

use crate::index::Index;
use crate::packing::{
    header_in, new_header, number_count, part_in, place_in, place_word, reference_count,
};
use mh_classes::class::Class;
use mh_classes::parts::Part;
use mh_model::birth::Birth;
use mh_model::limits::HEADER;
use mh_model::memory::NoMemory;
use mh_model::place::Place;
use mh_model::shape::Shape;
use mh_pages::address::Address;
use mh_pages::header::{BIRTH, COUNTS, FORWARD, STAMP};
use mh_pages::pages::Pages;
use mh_pages::warmth::Warmth;
use std::alloc::Global;
use std::marker::Model;

/// There is no place for a block of its class.
#[derive(Clone, Copy, Debug, PartialEq, Eq)]
pub struct Full;

/// The table of blocks, with its index, how many there are and how many of them are forwarders.
#[derive(Drop)]
pub struct Blocks {
    pub(crate) pages: Pages,
    pub(crate) index: Index,
    block_count: u64,
    forwarder_count: u64,
}

impl Model for Blocks {
    ghost use Rattle.mh_model.specs.{Pages.Table, Table.Block};
    ghost use Rattle.mh_blocks.specs.Auxiliary.{block_table, AreCounted, IsIndexOf};

    ghost Value = { Table Block };

    ghost view = { λ blocks. block_table blocks.pages };

    ghost invariant = { λ blocks. AreCounted blocks.pages blocks.block_count blocks.forwarder_count × IsIndexOf (block_table blocks.pages) blocks.index };
}

/// Pages and places.
impl Blocks {
    /// All pages free.
    pub fn open(alloc: Global, pages: usize) -> Result<Blocks, NoMemory>
        requires { pages ≤ 4096 }
        ensures { IfOk result (λ opened. opened ≡ replicate pages None) }
    {
        let index = Index::open(alloc, pages)?;
        let pages = Pages::open(alloc, pages)?;
        Ok(Blocks {
            pages,
            index,
            block_count: 0,
            forwarder_count: 0,
        })
    }

    /// How many pages there are.
    pub fn len(&self) -> usize
        ensures count { result ≡ length self.now }
        ensures few { result ≤ 4096 }
        ensures slots { HaveTheirSlots self.now }
    {
        self.pages.len()
    }

    /// How many pages are free.
    pub fn free_pages(&self) -> usize
        ensures { result ≡ free_pages self.now }
    {
        self.pages.free_pages()
    }

    /// How many blocks there are, forwarders among them.
    pub fn block_count(&self) -> u64
        ensures { result ≡ length (blocks_of self.now) }
    {
        self.block_count
    }

    /// How many forwarders there are.
    pub fn forwarder_count(&self) -> u64
        ensures { result ≡ length (filter is_forwarder (blocks_of self.now)) }
    {
        self.forwarder_count
    }

    /// The class of a page in use.
    pub fn class_at(&self, page: usize) -> Option<Class>
        requires { page < length self.now }
        ensures { result ≡ class_at self.now page }
    {
        self.pages.class_at(page)
    }

    /// Whether a page is in use and flagged.
    pub fn is_flagged(&self, page: usize) -> bool
        requires { page < length self.now }
        ensures { result ≡ flag_at self.now page }
    {
        self.pages.is_flagged(page)
    }

    /// How many blocks a page has, forwarders too.
    pub fn live_in(&self, page: usize) -> usize
        requires { page < length self.now }
        ensures count { result ≡ count_at self.now page }
        ensures few { result ≤ 64 }
    {
        self.pages.live_in(page)
    }

    /// Whether a page below this one is of the class and unflagged.
    pub fn has_denser(&self, page: usize, class: Class) -> bool
        ensures { result ≡ has_denser self.now page class }
    {
        self.pages.has_denser(page, class)
    }

    /// Flags a page in use, so that its blocks are to move away.
    pub fn flag(&mut self, page: usize)
        requires { IsSome (page_at self.old page) }
        ensures { self.new ≡ with_flag self.old page true }
    {
        self.pages.flag(page);
    }

    /// Takes the flag of a page in use.
    pub fn unflag(&mut self, page: usize)
        requires { IsSome (page_at self.old page) }
        ensures { self.new ≡ with_flag self.old page false }
    {
        self.pages.unflag(page);
    }

    /// Frees a page in use that has no block.
    pub fn free_page(&mut self, page: usize)
        requires used { IsSome (page_at self.old page) }
        requires empty { count_at self.old page ≡ 0 }
        ensures { self.new ≡ set self.old page None }
    {
        self.pages.free_page(page);
    }

    /// The least place of a class.
    pub fn place(&self, class: Class) -> Option<Place>
        ensures place { result ≡ least_place self.now class }
        ensures free { IfSome result (IsFreeFor self.now class) }
    {
        self.pages.place(class)
    }

    /// The least free place in unflagged pages of a class.
    pub fn place_dense(&self, class: Class) -> Option<Place>
        ensures place { result ≡ least_dense_place self.now class }
        ensures free { IfSome result (IsFreeFor self.now class) }
    {
        self.pages.place_dense(class)
    }

    /// Whether a block is at a place.
    pub fn is_taken(&self, place: Place) -> bool
        ensures { result ≡ is_some (block_at self.now place) }
    {
        self.pages.is_taken(place)
    }

    /// Where the words of a block stand. Callers that read or write several of them get its address once, for the calls
    /// whose names end in `_from`.
    pub fn address(&self, place: Place) -> Address
        requires { IsSome (block_at self.now place) }
        ensures { result ≡ address_in self.now place }
    {
        self.pages.address(place)
    }

    /// Reads a word, if there is one of this number among the words of all pages, so that it is in the cache.
    pub fn warm(&self, word: usize, warmth: &mut Warmth)
        ensures { warmth.new ≡ warmth.old }
    {
        self.pages.warm(word, warmth);
    }
}

/// Blocks made, moved and taken back.
impl Blocks {
    /// Puts a part, as it is born, at a free place of its class.
    pub fn make_at(&mut self, place: Place, part: Part, index: usize, birth: Birth, stamp: u64)
        requires free { IfSome (class_of (part_words part)) (λ size. IsFreeFor self.old size place) }
        requires birth { birth < 2 ^ 62 }
        requires index { index < 3661 }
        ensures { IfSome (class_of (part_words part)) (λ size. self.new ≡ with_taken self.old size place (new_block birth stamp index part)) }
    {
        // Its contract bounds how many blocks there are.
        let _ = self.len();
        self.pages.take(part.class(), place);
        let header = new_header(birth, stamp, index, part.header());
        self.pages.set_header(place, header);
        self.index.stamp(place, stamp);
        self.block_count += 1;
    }

    /// Puts a part, as it is born, at the least place of its class.
    pub fn make(
        &mut self,
        part: Part,
        index: usize,
        birth: Birth,
        stamp: u64,
    ) -> Result<Place, Full>
        requires birth { birth < 2 ^ 62 }
        requires index { index < 3661 }
        ensures made { IfOk result (λ place. made_part self.old birth stamp index part ≡ Some (record { place = place; table = self.new })) }
        ensures full { OnErr result (made_part self.old birth stamp index part ≡ None) }
        ensures unchanged { OnErr result (self.new ≡ self.old) }
    {
        match self.place(part.class()) {
            None => Err(Full),
            Some(place) => {
                self.make_at(place, part, index, birth, stamp);
                Ok(place)
            }
        }
    }

    /// Takes the block at a place back, and frees its page if this is asked.
    pub fn unmake(&mut self, place: Place, frees_page: bool)
        requires there { IsSome (block_at self.old place) }
        requires alone { frees_page ≡ true → count_at self.old (page_number place) ≡ 1 }
        ensures { self.new ≡ with_released self.old place frees_page }
    {
        let is_forwarder = self.is_forwarder(place);
        self.pages.release(place, frees_page);
        self.index.release(place);
        self.block_count -= 1;
        self.forwarder_count -= u64::from(is_forwarder);
    }

    /// Moves a block to a free place of its class, and leaves a forwarder.
    pub fn relocate(&mut self, place: Place, to: Place)
        requires there { IsSome (block_at self.old place) }
        requires original { forward_at self.old place ≡ None }
        requires free { IfSome (class_at self.old (page_number place)) (λ size. IsFreeFor self.old size to) }
        ensures { IfSome (block_at self.old place) (λ block. IfSome (class_at self.old (page_number place)) (λ size. self.new ≡ moved_table self.old place (record { block = block; class_size = size; target = to }))) }
    {
        // Its contract bounds how many blocks there are.
        let _ = self.len();
        let class = self.pages.class_at(place.page()).unwrap();
        self.pages.take_copy(class, to, place);
        let address = self.pages.address(place);
        self.pages
            .set_word_from(address, FORWARD, place_word(Some(to)));
        self.index.relocate(place, to);
        self.block_count += 1;
        self.forwarder_count += 1;
    }
}

/// The headers of blocks.
impl Blocks {
    /// The birth of the object that a block is a part of.
    pub fn birth(&self, place: Place) -> Birth
        requires { IsSome (block_at self.now place) }
        ensures { IfSome (block_at self.now place) (λ block. result ≡ block.birth) }
    {
        let address = self.pages.address(place);
        Birth(self.pages.word_from(address, BIRTH) - 1)
    }

    /// Which part of its object a block is.
    pub fn part(&self, place: Place) -> usize
        requires { IsSome (block_at self.now place) }
        ensures { IfSome (block_at self.now place) (λ block. result ≡ block.part) }
    {
        let address = self.pages.address(place);
        part_in(self.pages.word_from(address, COUNTS))
    }

    /// The counts of a block's header, those of its object for part 0.
    pub fn header(&self, place: Place) -> Shape
        requires { IsSome (block_at self.now place) }
        ensures { IfSome (block_at self.now place) (λ block. result ≡ block.header) }
    {
        let address = self.pages.address(place);
        header_in(self.pages.word_from(address, COUNTS))
    }

    /// The mark stamp of a block.
    pub fn stamp(&self, place: Place) -> u64
        requires { IsSome (block_at self.now place) }
        ensures { result ≡ stamp_at self.now place }
    {
        self.stamp_from(self.address(place))
    }

    /// The mark stamp of the block at an address.
    fn stamp_from(&self, address: Address) -> u64
        requires at { address ≡ address_in self.now address.place }
        requires there { IsSome (block_at self.now address.place) }
        ensures { result ≡ stamp_at self.now address.place }
    {
        self.pages.word_from(address, STAMP)
    }

    /// Writes the mark stamp of a block.
    pub fn set_stamp(&mut self, place: Place, stamp: u64)
        requires { IsSome (block_at self.old place) }
        ensures { self.new ≡ with_stamp_at self.old place stamp }
    {
        let address = self.address(place);
        self.set_stamp_from(address, stamp);
    }

    /// Writes the mark stamp of the block at an address.
    fn set_stamp_from(&mut self, address: Address, stamp: u64)
        requires at { address ≡ address_in self.old address.place }
        requires there { IsSome (block_at self.old address.place) }
        ensures { self.new ≡ with_stamp_at self.old address.place stamp }
    {
        self.pages.set_word_from(address, STAMP, stamp);
        self.index.stamp(address.place, stamp);
    }

    /// The place that a forwarder's block moved to.
    pub fn forward(&self, place: Place) -> Option<Place>
        requires { IsSome (block_at self.now place) }
        ensures { result ≡ forward_at self.now place }
    {
        self.forward_from(self.address(place))
    }

    /// The place that the block at an address moved to.
    fn forward_from(&self, address: Address) -> Option<Place>
        requires at { address ≡ address_in self.now address.place }
        requires there { IsSome (block_at self.now address.place) }
        ensures { result ≡ forward_at self.now address.place }
    {
        place_in(self.pages.word_from(address, FORWARD))
    }

    /// Where a place leads, one hop.
    pub fn resolve(&self, place: Place) -> Place
        requires { IsSome (block_at self.now place) }
        ensures { result ≡ resolve self.now place }
    {
        if self.is_forwarder(place) {
            self.forward(place).unwrap_or(place)
        } else {
            place
        }
    }
}

/// The fields of blocks.
impl Blocks {
    /// How many references a block has itself.
    pub fn reference_count(&self, place: Place) -> usize
        requires { IsSome (block_at self.now place) }
        ensures count { result ≡ length (references_at self.now place) }
        ensures few { result ≤ 60 }
    {
        self.reference_count_from(self.address(place))
    }

    /// How many references the block at an address has itself.
    pub fn reference_count_from(&self, address: Address) -> usize
        requires at { address ≡ address_in self.now address.place }
        requires there { IsSome (block_at self.now address.place) }
        ensures count { result ≡ length (references_at self.now address.place) }
        ensures few { result ≤ 60 }
    {
        reference_count(header_in(self.pages.word_from(address, COUNTS)))
    }

    /// How many numbers a block has itself.
    pub fn number_count(&self, place: Place) -> usize
        requires { IsSome (block_at self.now place) }
        ensures { result ≡ length (numbers_at self.now place) }
    {
        let address = self.pages.address(place);
        number_count(header_in(self.pages.word_from(address, COUNTS)))
    }

    /// A reference of a block as it stands.
    pub fn reference(&self, place: Place, index: usize) -> Option<Place>
        requires { index < length (references_at self.now place) }
        ensures { result ≡ reference_at self.now place index }
    {
        self.reference_from(self.address(place), index)
    }

    /// A reference, as it stands, of the block at an address.
    pub fn reference_from(&self, address: Address, index: usize) -> Option<Place>
        requires at { address ≡ address_in self.now address.place }
        requires there { index < length (references_at self.now address.place) }
        ensures { result ≡ reference_at self.now address.place index }
    {
        place_in(self.pages.word_from(address, HEADER + index))
    }

    /// Where a reference of a block leads.
    pub fn load_ref(&self, place: Place, index: usize) -> Option<Place>
        requires there { index < length (references_at self.now place) }
        requires leads { Leads self.now (reference_at self.now place index) }
        ensures { result ≡ target_of self.now (reference_at self.now place index) }
    {
        let target = self.reference(place, index)?;
        Some(self.resolve(target))
    }

    /// Writes a reference of a block: null, or the place of a block, be it a forwarder.
    pub fn store_ref(&mut self, place: Place, index: usize, reference: Option<Place>)
        requires there { index < length (references_at self.old place) }
        requires leads { Leads self.old reference }
        ensures { self.new ≡ with_reference_at self.old place index reference }
    {
        let address = self.address(place);
        self.set_reference_from(address, index, reference);
    }

    /// Writes a reference of the block at an address.
    pub fn set_reference_from(&mut self, address: Address, index: usize, reference: Option<Place>)
        requires at { address ≡ address_in self.old address.place }
        requires there { index < length (references_at self.old address.place) }
        requires leads { Leads self.old reference }
        ensures { self.new ≡ with_reference_at self.old address.place index reference }
    {
        self.pages
            .set_word_from(address, HEADER + index, place_word(reference));
    }

    /// A number of a block; its numbers are counted apart from its references.
    pub fn load_int(&self, place: Place, index: usize) -> u64
        requires { index < length (numbers_at self.now place) }
        ensures { result ≡ number_at self.now place index }
    {
        let address = self.address(place);
        let references = self.reference_count_from(address);
        self.pages.word_from(address, HEADER + references + index)
    }

    /// Writes a number of a block.
    pub fn store_int(&mut self, place: Place, index: usize, number: u64)
        requires { index < length (numbers_at self.old place) }
        ensures { self.new ≡ with_number_at self.old place index number }
    {
        let address = self.address(place);
        let references = self.reference_count_from(address);
        self.pages
            .set_word_from(address, HEADER + references + index, number);
    }
}

/// Room for large objects.
impl Blocks {
    /// How many places are free for a class, those of flagged pages among them. Each page is read.
    pub fn free_places(&self, class: Class) -> usize
        ensures count { result ≡ free_places self.now class }
        ensures slots { HaveTheirSlots self.now }
    {
        self.pages.free_places(class)
    }
}
