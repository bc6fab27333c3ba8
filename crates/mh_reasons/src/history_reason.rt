//! The reasons of histories: data, of which contracts speak, and their texts.
ghost use Rattle.std.specs.Prelude.{Some};
ghost use Rattle.mh_reasons.specs.Texts.{history_line_text, history_reason_text};

use crate::byte_fault::ByteFault;
use crate::quoted::Quoted;
use crate::reason::{ConfigNumber, LineReason};
use mh_model::history::Version;
use std::fmt;

/// Why a history is refused at its first bad line.
#[derive(Debug, Drop)]
pub enum HistoryReason {
    /// It has too many bytes. This is line 0.
    TooLong(Version),
    /// It has no bytes.
    Empty,
    /// Bytes stand after the last newline.
    NoNewline,
    Line(HistoryLineReason),
}

/// What is wrong with a line of a history.
#[derive(Debug, Drop)]
pub enum HistoryLineReason {
    Blank,
    Comment,
    Bytes(ByteFault),
    /// The first line of a history of this version, which is the other one.
    OtherVersion(Version),
    /// The configuration of a script.
    Script,
    /// The first line of a log of threads.
    Log,
    /// Another first line than a history of this version has.
    NotHistory(Version),
    /// A number of rules that isn't 1 or 2.
    Rules,
    /// A number of the configuration is outside its limits.
    Limit(ConfigNumber),
    /// An entry without the word `units`.
    NoUnits,
    /// An entry without the word `=`.
    NoReply,
    /// Nothing stands before `=`.
    NoEvent,
    /// Nothing stands after `=`.
    EmptyReply,
    /// A word that is neither a session nor `*`.
    Session(Quoted),
    /// The words from this one on are no reply.
    Reply(Quoted),
    /// What is wrong with a command, a control or the numbers of the line.
    Words(LineReason),
}

impl fmt::Display for HistoryReason {
    ghost output = { λ it. Some (history_reason_text it) };

    fn fmt<W: fmt::Write>(&self, f: &mut fmt::Formatter<W>) -> fmt::Result {
        match self {
            HistoryReason::TooLong(Version::One) => f.write_str(
                "a history 1 has at most 1073741824 bytes",
            ),
            HistoryReason::TooLong(Version::Two) => f.write_str(
                "a history 2 has at most 2147483648 bytes",
            ),
            HistoryReason::Empty => f.write_str("the history has no bytes"),
            HistoryReason::NoNewline => f.write_str("the last line has no newline"),
            HistoryReason::Line(reason) => write!(f, "{reason}"),
        }
    }
}

impl fmt::Display for HistoryLineReason {
    ghost output = { λ it. Some (history_line_text it) };

    fn fmt<W: fmt::Write>(&self, f: &mut fmt::Formatter<W>) -> fmt::Result {
        match self {
            HistoryLineReason::Blank => f.write_str("a history has no empty lines"),
            HistoryLineReason::Comment => f.write_str("a history has no comments"),
            HistoryLineReason::Bytes(fault) => write!(f, "{fault}"),
            HistoryLineReason::OtherVersion(Version::One) => f.write_str(
                "a history of version 1: check reads it",
            ),
            HistoryLineReason::OtherVersion(Version::Two) => f.write_str(
                "a history of version 2: audit reads it",
            ),
            HistoryLineReason::Script => f.write_str("a script: run reads it"),
            HistoryLineReason::Log => f.write_str("a log: check --log reads it"),
            HistoryLineReason::NotHistory(Version::One) => f.write_str(
                "the first line is history 1",
            ),
            HistoryLineReason::NotHistory(Version::Two) => {
                f.write_str("the first line is history 2 rules R PAGES QUANTUM TRIGGER EVERY")
            }
            HistoryLineReason::Rules => f.write_str("R is 1 or 2"),
            HistoryLineReason::Limit(number) => write!(f, "{number}"),
            HistoryLineReason::NoUnits => f.write_str("no units A B after the reply"),
            HistoryLineReason::NoReply => f.write_str("no = between event and reply"),
            HistoryLineReason::NoEvent => f.write_str("no event before ="),
            HistoryLineReason::EmptyReply => f.write_str("no reply after ="),
            HistoryLineReason::Session(word) => write!(f, "{word} is no session: s0 to s8"),
            HistoryLineReason::Reply(word) => write!(f, "the words from {word} on are no reply"),
            HistoryLineReason::Words(reason) => write!(f, "{reason}"),
        }
    }
}
