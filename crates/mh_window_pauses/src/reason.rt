//! The reasons of logs of pauses: data, of which contracts speak, and their texts.
use mh_model::history::Version;
use mh_reasons::byte_fault::ByteFault;
use mh_reasons::number_fault::NumberFault;
use mh_reasons::quoted::Quoted;
use std::fmt;

/// Why a log of pauses is refused at its first bad line.
#[derive(Debug, Drop)]
pub enum PauseReason {
    /// It has too many bytes. This is line 0.
    TooLong,
    /// All its runs have 2 ^ 62 units or more. This is line 0.
    TooManyUnits,
    /// It has no bytes.
    Empty,
    /// Bytes stand after the last newline.
    NoNewline,
    /// A comment after words, or after a space.
    Comment,
    Bytes(ByteFault),
    /// The text begins as a history.
    History(Version),
    /// The configuration of a script, with nothing but comments before it.
    Script,
    /// A first word that no line of a log has.
    UnknownWord(Quoted),
    /// No word after the first, or more than one.
    NotRun,
    /// The word after the first isn't a number that may stand there.
    Number(NumberFault),
}

impl fmt::Display for PauseReason {
    ghost use Rattle.std.specs.Prelude.{Some};
    ghost use Rattle.mh_window_pauses.specs.Reasons.{reason_text};

    ghost output = { λ reason. Some (reason_text reason) };

    fn fmt<W: fmt::Write>(&self, f: &mut fmt::Formatter<W>) -> fmt::Result {
        match self {
            PauseReason::TooLong => f.write_str("a log has at most 2147483648 bytes"),
            PauseReason::TooManyUnits => f.write_str(
                "the log has 4611686018427387904 units or more",
            ),
            PauseReason::Empty => f.write_str("the log has no bytes"),
            PauseReason::NoNewline => f.write_str("the last line has no newline"),
            PauseReason::Comment => f.write_str("a comment is a line of its own"),
            PauseReason::Bytes(fault) => write!(f, "{fault}"),
            PauseReason::History(Version::One) => f.write_str(
                "a history of version 1: check reads it",
            ),
            PauseReason::History(Version::Two) => f.write_str(
                "a history: curve --history reads it",
            ),
            PauseReason::Script => f.write_str("a script: curve reads it"),
            PauseReason::UnknownWord(word) => write!(f, "{word} is no word of a log"),
            PauseReason::NotRun => f.write_str("a line is mutator N or collector N"),
            PauseReason::Number(fault) => write!(f, "{fault}"),
        }
    }
}
