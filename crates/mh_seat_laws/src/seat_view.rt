//! What a seat of the lock knows.
use std::collections::LinkedList;

/// What a seat finds of the value that it takes: its entries, and its origin, which no call changes. No value of it is made.
pub struct FoundValue<E, O> {
    pub history: LinkedList<E>,
    pub origin: O,
}

/// The number and the log of each seat that it stands for, and what it found while it has the value. No value of it is made.
pub struct SeatView<E, O> {
    pub logs: LinkedList<(u64, LinkedList<E>)>,
    pub found: Option<FoundValue<E, O>>,
}
