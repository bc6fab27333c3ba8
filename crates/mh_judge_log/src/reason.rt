//! The reasons of logs with an order: data, of which contracts speak, and their texts.
ghost use Rattle.std.specs.Prelude.{Some};
ghost use Rattle.mh_judge_log.specs.Texts.{command_text, first_text, log_line_text, log_reason_text};

use mh_model::history::Version;
use mh_reasons::byte_fault::ByteFault;
use mh_reasons::history_reason::HistoryLineReason;
use mh_reasons::number_fault::NumberFault;
use mh_reasons::quoted::Quoted;
use std::fmt;

/// Why a log with an order is refused at its first bad line.
#[derive(Debug, Drop)]
pub enum LogReason {
    /// It has too many bytes. This is line 0.
    TooLong,
    /// It has no bytes.
    Empty,
    /// Bytes stand after the last newline.
    NoNewline,
    /// What is wrong with its first line.
    First(FirstReason),
    /// It ends before the line `order 1`.
    NoOrder,
    /// Its order ends before it has taken all commands.
    CommandsLeft,
    /// What is wrong with a line after the first.
    Line(LogLineReason),
}

/// What is wrong with a line that is to be `log 1`.
#[derive(Debug, Drop)]
pub enum FirstReason {
    Bytes(ByteFault),
    /// The first line of a history.
    History(Version),
    /// The configuration of a script.
    Script,
    /// Another first line than `log 1`.
    NotLog,
}

/// What is wrong with a line before the order or in it.
#[derive(Debug, Drop)]
pub enum LogLineReason {
    Blank,
    Comment,
    Bytes(ByteFault),
    /// A line before the order that is no command.
    Command(CommandReason),
    /// A line of the order that is no session.
    NoSession(Quoted),
    /// A line of the order that names a session without a command left.
    NoneLeft(Quoted),
}

/// What is wrong with the words of a line that is to be a command.
#[derive(Debug, Drop)]
pub enum CommandReason {
    /// Fewer words than two times and a command.
    FewWords,
    /// A word isn't the time that is wanted there.
    Time(Quoted, NumberFault),
    /// It ends before it begins.
    Backwards,
    /// A control.
    Control,
    /// What is wrong with the words after the times, which are to be an entry of a history.
    Entry(HistoryLineReason),
}

impl fmt::Display for LogReason {
    ghost output = { λ reason. Some (log_reason_text reason) };

    fn fmt<W: fmt::Write>(&self, f: &mut fmt::Formatter<W>) -> fmt::Result {
        match self {
            LogReason::TooLong => f.write_str("a log has at most 2147483648 bytes"),
            LogReason::Empty => f.write_str("the log has no bytes"),
            LogReason::NoNewline => f.write_str("the last line has no newline"),
            LogReason::First(reason) => write!(f, "{reason}"),
            LogReason::NoOrder => f.write_str("the log ends before order 1"),
            LogReason::CommandsLeft => f.write_str("the order ends while commands are left"),
            LogReason::Line(reason) => write!(f, "{reason}"),
        }
    }
}

impl fmt::Display for FirstReason {
    ghost output = { λ reason. Some (first_text reason) };

    fn fmt<W: fmt::Write>(&self, f: &mut fmt::Formatter<W>) -> fmt::Result {
        match self {
            FirstReason::Bytes(fault) => write!(f, "{fault}"),
            FirstReason::History(Version::One) => f.write_str(
                "a history of version 1: check reads it",
            ),
            FirstReason::History(Version::Two) => f.write_str(
                "a history of version 2: audit reads it",
            ),
            FirstReason::Script => f.write_str("a script: run reads it"),
            FirstReason::NotLog => f.write_str("the first line is log 1"),
        }
    }
}

impl fmt::Display for LogLineReason {
    ghost output = { λ reason. Some (log_line_text reason) };

    fn fmt<W: fmt::Write>(&self, f: &mut fmt::Formatter<W>) -> fmt::Result {
        match self {
            LogLineReason::Blank => f.write_str("a log has no empty lines"),
            LogLineReason::Comment => f.write_str("a log has no comments"),
            LogLineReason::Bytes(fault) => write!(f, "{fault}"),
            LogLineReason::Command(reason) => write!(f, "{reason}"),
            LogLineReason::NoSession(word) => write!(f, "{word} is no session: s0 to s8"),
            LogLineReason::NoneLeft(word) => write!(f, "no command of {word} is left"),
        }
    }
}

impl fmt::Display for CommandReason {
    ghost output = { λ reason. Some (command_text reason) };

    fn fmt<W: fmt::Write>(&self, f: &mut fmt::Formatter<W>) -> fmt::Result {
        match self {
            CommandReason::FewWords => {
                f.write_str("a command is BEGIN END sN COMMAND = REPLY, and order 1 ends them")
            }
            CommandReason::Time(word, fault) => write!(f, "{word} is no time: {fault}"),
            CommandReason::Backwards => f.write_str("BEGIN is above END"),
            CommandReason::Control => f.write_str("a log has no controls"),
            CommandReason::Entry(reason) => write!(f, "{reason}"),
        }
    }
}
