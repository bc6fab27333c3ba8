//! The words that every crate of metroheap shares: configurations, commands, events and replies.
//! `specs/` holds the *model*: the definitions that the contracts of all crates cite. It names no crate of code, no loop and
//! no word of the code. A crate's own `specs/` has the words that its contracts add, and the crates of laws have the words of
//! their laws. A reader who trusts the toolchain has to believe the model and these few words.
//!
//! **Two meanings.** The *world* (`World`) is what sessions are promised: the list of all objects that were ever made. It never
//! loses one, and it knows no place, no collector and no memory. The *machine* (`Pages` to `Machine`) is what the product does:
//! it has blocks in pages, a collector that works in bounded quanta, a scheduler and a trace. Three words join the two. The
//! *view* of a heap (`View`) is a world with holes. `Agrees` (`Paths`) says when a view is right. A *moment* (`Snapshot`) is a
//! machine with its world beside it.
//!
//! **How it is written.** It has records, lists and numbers, and functions on them that compute, so worked rows run the machine
//! on whole scripts and compare its lines. An empty slot, a null reference, a free page and an object that is gone are each
//! `None`. A *place* is the number `page * 64 + slot`. A *birth* is the number of an object in the order of making, and a *part*
//! is the number of a block in its object. Sessions, slots, fields, births, parts and cycles are counted from 0. Two sets of
//! *rules* exist, the first and the second. What differs under them takes the configuration: `most_fields` and `command_units`.
//!
//! **What unfolds.** Most definitions are `abbrev`s, which proofs see through. The large compositions are `unfoldable`, so that
//! goals above them stay small. A proof that needs the body of one writes `unfolding NAME`, and a worked row `unfolding worked`,
//! which opens them all.
//!
//! **Sources.** *Metronome*: David F. Bacon, Perry Cheng, V. T. Rajan, A real-time garbage collector with low overhead and
//! consistent utilization, POPL 2003. *Yuasa*: Taiichi Yuasa, Real-time garbage collection on general-purpose machines, Journal
//! of Systems and Software, 1990. *Brooks*: Rodney A. Brooks, Trading data space for reduced time and code space in real-time
//! garbage collection on stock hardware, LFP 1984. *Cheng and Blelloch*: Perry Cheng, Guy E. Blelloch, A parallel, real-time
//! garbage collector, PLDI 2001. A definition without a source is this project's own.
#![tactic(auto)]

pub mod birth;
pub mod bound;
pub mod command;
pub mod config;
pub mod cycle;
pub mod deed;
pub mod dump;
pub mod history;
pub mod limits;
pub mod memory;
pub mod place;
pub mod reply;
pub mod report;
pub mod shape;
pub mod stat;
