//! The order in which blocks are taken off the grey list, by which the next cycle reads words ahead. It is for the
//! cache alone, and contracts see it as the unit.
ghost use Rattle.std.specs.Prelude.{◌≡◌, ◌≤◌, IfOk};

use mh_blocks::blocks::Blocks;
use mh_model::limits::{HEADER, PLACES};
use mh_model::memory::NoMemory;
use mh_pages::address::Address;
use mh_pages::header::COUNTS;
use mh_pages::warmth::Warmth;
use std::alloc::Global;
use std::marker::Model;

/// Of how many blocks the words are read together.
const TOGETHER: usize = 32;

/// A cycle after one that marked fewer blocks than these reads none ahead.
const FEW: usize = 4096;

/// Where marking reads a block: its first and its last word that are read, by their numbers among the words of all pages.
#[derive(Clone, Copy, Debug)]
struct Span {
    first: u32,
    last: u32,
}

/// A number of a word in four bytes. There are far fewer words than these can count.
fn word_number(word: usize) -> u32 {
    (word % (1 << 32)) as u32
}

impl Span {
    /// Of a block at an address with so many references. They follow its header, which marking reads from the counts on.
    fn of(address: Address, count: usize) -> Span {
        let first = address.word.wrapping_add(COUNTS);
        let last = address.word.wrapping_add(count).wrapping_add(HEADER - 1);
        Span {
            first: word_number(first),
            last: word_number(last),
        }
    }
}

/// Where the blocks stand that were taken off, in this order, with those of the cycle before behind those of this one. A
/// cycle mostly comes to the same blocks in the same order. So their words are read together before they are needed,
/// while on a long chain a block is known only when the one before is read. What stands here is never trusted.
#[derive(Drop)]
pub(crate) struct Order {
    spans: Vec<Span>,
    /// How many blocks were taken off in this cycle.
    taken: usize,
    /// How many were in the cycle before.
    before: usize,
    /// The first block whose words weren't read yet.
    next: usize,
    /// How many blocks are still to be taken before they are.
    ahead: usize,
    warmth: Warmth,
}

// Nothing that a caller may rest on.
impl Model for Order {
    ghost Value = { Unit {0} };

    ghost view = { λ order. tt };
}

impl Order {
    /// No order yet, with room for the blocks of so many pages.
    pub(crate) fn open(alloc: Global, pages: usize) -> Result<Order, NoMemory>
        requires { pages ≤ 4096 }
        ensures { IfOk result (λ order. order ≡ tt) }
    {
        let nowhere = Span { first: 0, last: 0 };
        Ok(Order {
            spans: Vec::from_elem(alloc, nowhere, PLACES * pages)?,
            taken: 0,
            before: 0,
            next: 0,
            ahead: 0,
            warmth: Warmth::new(),
        })
    }

    /// Lets a cycle begin at the first block.
    pub(crate) fn begin(&mut self)
        ensures { self.new ≡ self.old }
    {
        self.before = self.taken;
        self.taken = 0;
        self.next = 0;
        self.ahead = 0;
    }

    /// Reads words of the next blocks.
    fn read(&mut self, blocks: &Blocks)
        ensures { self.new ≡ self.old }
    {
        let end = self.before.min(self.next.saturating_add(TOGETHER));
        let end = end.min(self.spans.len());
        let mut warmth = Warmth::new();
        for at in self.next..end {
            let span = self.spans[at];
            blocks.warm(span.first as usize, &mut warmth);
            blocks.warm(span.last as usize, &mut warmth);
        }
        self.warmth = warmth;
        self.next = end;
    }

    /// Reads words of the next blocks, if all before are taken.
    fn go_on(&mut self, blocks: &Blocks)
        ensures { self.new ≡ self.old }
    {
        if self.before < FEW {
            return;
        }
        if self.ahead != 0 {
            self.ahead -= 1;
            return;
        }
        self.read(blocks);
        self.ahead = TOGETHER - 1;
    }

    /// Adds a block that is taken off, and reads words of the next ones if all before are taken.
    pub(crate) fn take(&mut self, blocks: &Blocks, address: Address, count: usize)
        ensures { self.new ≡ self.old }
    {
        self.go_on(blocks);
        if self.taken < self.spans.len() {
            self.spans[self.taken] = Span::of(address, count);
            self.taken += 1;
        }
    }
}
