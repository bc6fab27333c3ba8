//! Heaps as sessions see them: a trait with laws, a heap that never collects, and the commands over any heap.
//!
//! The crate knows no pages. So what it says holds of the heap of pages and of the one that never collects alike.
#![tactic(auto)]

pub mod heap;
pub mod perform;
pub mod plain;
pub mod slots;
