//! The blocks of the table, packed into the words of pages.
//!
//! The block at a place has words of its own, as many as its class. Its first four are its header. Word 0 is the birth
//! and 1 more. Word 1 is part * 2^40 + references * 2^20 + numbers: which part of its object the block is, and the
//! counts of its header. Word 2 is the mark stamp. Word 3 is 0, or the place that the block moved to and 1 more.
//!
//! The references follow from word 4 on, each 0 for null or else a place and 1 more, and then the numbers. The counts
//! of a part's header are those of the object for part 0. For an arraylet they are those of its own run, and for a
//! middle spine the number of its arraylets and 0. Up to 60 fields they are the counts of the block itself; past that
//! the block is a spine and has references to its children alone.
//!
//! A place is the number of its page times 64 and the number of its slot. Word i of the block there is word page * 256
//! + slot * class + i of all pages. An `Address` has that sum up to i.
//!
//! Each list of words is seen as a block. Each of the model's functions on pages commutes with that (`TableMapLemmas`
//! of `mh_table_laws`, `PageMapLemmas`). One short lemma for each kind of write says which block the written words are.
//! `IndexLemmas` and `IndexedLemmas` say that each change keeps the index of marks and of forwarders, and `DeadLemmas`
//! that its bits give what a sweep frees.
#![tactic(auto)]

pub mod blocks;
mod index;
mod marks;
mod packing;
