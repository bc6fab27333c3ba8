//! Entries of histories, the versions of their texts, and the verdicts on them.
use crate::command::Event;
use crate::reply::Reply;

/// An event that was done, and its answer.
#[derive(Debug, Drop)]
pub struct Entry {
    pub event: Event,
    pub reply: Reply,
}

/// An entry with the units that its event added to the trace.
#[derive(Debug, Drop)]
pub struct Measured {
    pub entry: Entry,
    pub mutator: u64,
    pub collector: u64,
}

/// The version of a history's text. The second states the rules and each entry's units, and knows one control and its reply
/// more.
#[derive(Clone, Copy, Debug, PartialEq, Eq)]
pub enum Version {
    One,
    Two,
}

/// What a text is found to be as a history: refused with a line, legal with so many entries, or one whose first bad entry has
/// this number, counted from 1.
#[derive(Clone, Copy, Debug, PartialEq, Eq)]
pub enum Verdict {
    Refused(u64),
    Legal(u64),
    FirstBad(u64),
}
