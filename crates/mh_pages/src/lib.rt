//! Pages of words, and the least place of a class.
//!
//! The crate knows a block by its words alone, and not what they stand for. The model's definitions of placement take
//! blocks of any type, so it cites the same ones as the crates above.
//!
//! The words are seen as the model's table with a list of words for each block. Under `proofs/`, `ShownLemmas` says
//! what the words show, and `WriteLemmas` what a write changes of it. `IndexLemmas` and `LeastLemmas`: the sets of
//! pages find the model's least place. `TakenLemmas`: what stands in a place that is taken. `FreePlaceLemmas` counts
//! the places that are free for a class. `KeptLemmas` has for each call what it keeps and what it shows.
#![tactic(auto)]

pub mod address;
pub mod header;
mod index;
pub mod pages;
pub mod warmth;
