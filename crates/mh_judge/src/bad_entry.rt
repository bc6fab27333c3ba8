//! The first bad entry of a history.
use crate::entry_fault::EntryFault;

/// The number of the first bad entry, counted from 1, and what is wrong with it.
#[derive(Debug, Drop)]
pub struct BadEntry {
    pub number: u64,
    pub fault: EntryFault,
}
