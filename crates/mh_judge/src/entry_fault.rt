//! What is wrong with an entry of a history, and the text that says it. It is one too many, or its reply or its units
//! aren't the right ones.
ghost use Rattle.std.specs.Prelude.{Some};
ghost use Rattle.mh_judge.specs.FaultTexts.{brief_text, entry_fault_text, optional_item_text};

use mh_model::dump::DumpItem;
use mh_model::reply::Reply;
use mh_text::reply_text::{ItemText, ReplyText};
use std::fmt;

/// The units that an event adds to the trace.
#[derive(Clone, Copy, Debug, PartialEq, Eq)]
pub struct Units {
    pub mutator: u64,
    pub collector: u64,
}

/// What is wrong with an entry of a history.
#[derive(Debug, Drop)]
pub enum EntryFault {
    /// It is past the 1,000,000th.
    TooMany,
    /// Its reply is another than the right one.
    Reply {
        given: Reply,
        right: Reply,
    },
    /// Its dump is another than the right one: the first item in which they differ, counted from 1. None if a dump has ended
    /// before it.
    Item {
        number: u64,
        given: Option<DumpItem>,
        right: Option<DumpItem>,
    },
    /// Its reply is right, and its units are not.
    Units {
        given: Units,
        right: Units,
    },
}

impl fmt::Display for EntryFault {
    ghost output = { λ fault. Some (entry_fault_text fault) };

    fn fmt<W: fmt::Write>(&self, f: &mut fmt::Formatter<W>) -> fmt::Result {
        match self {
            EntryFault::TooMany => f.write_str("a history has at most 1000000 entries"),
            EntryFault::Reply { given, right } => {
                write!(
                    f,
                    "{}, and right is {}",
                    BriefReply(given),
                    BriefReply(right)
                )
            }
            EntryFault::Item {
                number,
                given,
                right,
            } => {
                write!(
                    f,
                    "item {number} of the dump is{}, and right is{}",
                    OptionalItem(given),
                    OptionalItem(right)
                )
            }
            EntryFault::Units { given, right } => {
                let Units { mutator, collector } = *given;
                write!(f, "units {mutator} {collector}")?;
                let Units { mutator, collector } = *right;
                write!(f, ", and right is units {mutator} {collector}")
            }
        }
    }
}

/// A reply, of a dump only how many items it has.
#[derive(Clone, Copy)]
struct BriefReply<'a>(&'a Reply);

impl fmt::Display for BriefReply<'_> {
    ghost output = { λ it. Some (brief_text it.0.now) };

    fn fmt<W: fmt::Write>(&self, f: &mut fmt::Formatter<W>) -> fmt::Result {
        match self.0 {
            Reply::Dump(dump) => write!(f, "a dump of {} items", dump.items().len()),
            reply => write!(f, "{}", ReplyText(reply)),
        }
    }
}

/// An item with a space before each word, if there is one.
#[derive(Clone, Copy)]
struct OptionalItem<'a>(&'a Option<DumpItem>);

impl fmt::Display for OptionalItem<'_> {
    ghost output = { λ it. Some (optional_item_text it.0.now) };

    fn fmt<W: fmt::Write>(&self, f: &mut fmt::Formatter<W>) -> fmt::Result {
        match self.0 {
            Some(item) => write!(f, "{}", ItemText(*item)),
            None => f.write_str(" none"),
        }
    }
}
