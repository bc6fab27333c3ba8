//! The grey list, first in, first out, and shading.
//!
//! A reference is shaded as in the model: the block to which it leads becomes marked, if it isn't, and its place is
//! appended to the list. No place is in the list twice, and it never lacks room. Its front is read and taken off. The
//! start of a cycle and the words read ahead change nothing of the list.
//!
//! `shade` takes the cycle's number, since a mark is a stamp equal to it and the collector alone counts cycles. Whether
//! a block is marked is asked of `Blocks`, which has the index. `front` and `pop` are for who uses the crate by itself:
//! a batch is taken off by `pop_first`.
ghost use Rattle.std.specs.Prelude.{◌≡◌, ◌==◌, ◌*◌, ◌<◌, ◌≤◌, false, IfOk, IsSome, [], ◌∷◌, ◌++◌, length, slice_get, take, drop, Some};
ghost use Rattle.mh_model.specs.{Pages.block_at, Collector.{shade, shade_place}, Batches.NoneTwice};
ghost use Rattle.mh_grey.specs.{Queue.is_in, Shading.{marking, IsApart, IsApartAt}};

use crate::order::Order;
use arrayvec::ArrayVec;
use circular_buffer::HeapCircularBuffer;
use mh_blocks::blocks::Blocks;
use mh_model::limits::PLACES;
use mh_model::memory::NoMemory;
use mh_model::place::Place;
use mh_pages::address::Address;
use std::alloc::Global;
use std::marker::Model;
/// The grey places in the order in which they were shaded, with room for one entry a place.
#[derive(Drop)]
pub struct Grey {
    places: HeapCircularBuffer<Place>,
    pages: usize,
    order: Order,
}

impl Model for Grey {
    ghost use Rattle.mh_grey.specs.{Queue.Queue, Auxiliary.IsQueue};

    ghost Value = { Queue };

    ghost view = { λ grey. record { places = grey.places.items; pages = grey.pages } };

    ghost invariant = { λ grey. IsQueue grey.places.items grey.places.capacity grey.pages };
}

impl Grey {
    ghost use Rattle.mh_model.specs.Table.{LeadsOn};
    ghost use Rattle.mh_grey.specs.Queue.{Queue};

    /// The empty list for the places of so many pages.
    pub fn open(alloc: Global, pages: usize) -> Result<Grey, NoMemory>
        requires { pages ≤ 4096 }
        ensures { IfOk result (λ grey. grey ≡ record { places = []; pages = pages }) }
    {
        let places = HeapCircularBuffer::with_capacity(alloc, PLACES * pages)?;
        let order = Order::open(alloc, pages)?;
        Ok(Grey {
            places,
            pages,
            order,
        })
    }

    /// Lets the order in which blocks become grey be that of a new cycle.
    pub fn begin_cycle(&mut self)
        ensures { self.new ≡ self.old }
    {
        self.order.begin();
    }

    /// Keeps where the block stands whose place is taken off, for the next cycle, and reads words of the blocks ahead, by
    /// the order of the cycle before. It is called once for each block.
    pub fn touch(&mut self, blocks: &Blocks, address: Address, count: usize)
        ensures { self.new ≡ self.old }
    {
        self.order.take(blocks, address, count);
    }

    pub fn len(&self) -> usize
        ensures count { result ≡ length self.now.places }
        ensures room { result ≤ 64 * self.now.pages }
    {
        self.places.len()
    }

    pub fn is_empty(&self) -> bool
        ensures { result ≡ (length self.now.places == 0) }
    {
        self.places.is_empty()
    }

    /// No place stands twice. It does nothing.
    pub fn has_each_once(&self)
        ensures { NoneTwice self.now.places }
    {
        let _ = &self.places;
    }

    fn push(&mut self, place: Place)
        requires below { place < 64 * self.old.pages }
        requires apart { is_in place self.old.places ≡ false }
        ensures { self.new ≡ record { places = self.old.places ++ place ∷ []; pages = self.old.pages } }
    {
        let _ = self.places.try_push_back(place);
    }

    /// Marks the block to which a reference leads, if it isn't marked, and makes it grey.
    pub fn shade(&mut self, blocks: &mut Blocks, cycle: u64, reference: Option<Place>)
        requires pages { self.old.pages ≡ length blocks.old }
        requires leads { LeadsOn blocks.old reference }
        requires apart { IsApart blocks.old cycle self.old.places reference }
        ensures table { blocks.new ≡ (shade (marking blocks.old self.old.places cycle) reference).table }
        ensures grey { self.new ≡ record { places = (shade (marking blocks.old self.old.places cycle) reference).grey; pages = self.old.pages } }
    {
        if let Some(place) = reference {
            let target = blocks.resolve(place);
            self.shade_place(blocks, cycle, target);
        }
    }

    /// Marks the block at a place, if it isn't marked, and makes it grey. It shades a reference that is resolved already.
    pub fn shade_place(&mut self, blocks: &mut Blocks, cycle: u64, place: Place)
        requires pages { self.old.pages ≡ length blocks.old }
        requires there { IsSome (block_at blocks.old place) }
        requires apart { IsApartAt blocks.old cycle self.old.places place }
        ensures table { blocks.new ≡ (shade_place (marking blocks.old self.old.places cycle) place).table }
        ensures grey { self.new ≡ record { places = (shade_place (marking blocks.old self.old.places cycle) place).grey; pages = self.old.pages } }
    {
        if !blocks.is_marked(place, cycle) {
            blocks.set_stamp(place, cycle);
            self.push(place);
        }
    }

    /// The first grey place.
    pub fn first(&self) -> Place
        requires { 0 < length self.now.places }
        ensures { slice_get self.now.places 0 ≡ Some result }
    {
        *self.places.front().unwrap()
    }

    /// The grey place of a number, counted from 0.
    pub fn get(&self, index: usize) -> Place
        requires { index < length self.now.places }
        ensures { slice_get self.now.places index ≡ Some result }
    {
        *self.places.get(index).unwrap()
    }

    /// Takes the first grey place.
    pub fn pop_first(&mut self) -> Place
        requires { 0 < length self.old.places }
        ensures places { self.old.places ≡ result ∷ self.new.places }
        ensures pages { self.new.pages ≡ self.old.pages }
    {
        self.places.pop_front().unwrap()
    }

    /// Appends the first `count` places to an empty batch.
    pub fn front(&self, count: usize, batch: &mut ArrayVec<Place, 1024>)
        requires there { count ≤ length self.now.places }
        requires room { count ≤ 1024 }
        requires empty { batch.old.items ≡ [] }
        ensures { batch.new.items ≡ take count self.now.places }
    {
        for index in 0..count {
            batch.push(*self.places.get(index).unwrap());
        }
    }

    /// Takes the first `count` places off.
    pub fn pop(&mut self, count: usize)
        requires { count ≤ length self.old.places }
        ensures { self.new ≡ record { places = drop count self.old.places; pages = self.old.pages } }
    {
        self.places.truncate_front(self.places.len() - count);
    }
}
