//! The reasons of scripts: data, of which contracts speak, and their texts.
ghost use Rattle.std.specs.Prelude.{Some};
ghost use Rattle.mh_reasons.specs.Texts.{limits_text, line_reason_text, script_reason_text};

use crate::byte_fault::ByteFault;
use crate::number_fault::NumberFault;
use crate::quoted::Quoted;
use crate::verb::Verb;
use mh_model::history::Version;
use std::fmt;

/// Why a script is refused at its first bad line.
#[derive(Debug, Drop)]
pub enum ScriptReason {
    /// It has too many bytes. This is line 0.
    TooLong,
    /// It ends before its configuration.
    NoConfiguration,
    /// Bytes stand after the last newline.
    NoNewline,
    Line(LineReason),
}

/// What is wrong with a line.
#[derive(Debug, Drop)]
pub enum LineReason {
    /// A comment after words, or after a space.
    Comment,
    Bytes(ByteFault),
    /// A history stands where the configuration is to be.
    History(Version),
    /// A log of threads stands there.
    Log,
    /// Another word than `config` stands there.
    NotConfig(Quoted),
    /// A number of the configuration is outside its limits.
    Limit(ConfigNumber),
    /// Another configuration, after the first.
    SecondConfig,
    /// A configuration in a world.
    WorldConfig,
    /// A name of too many bytes.
    LongName(Quoted),
    /// A name with other bytes than letters and digits, or with no letter first.
    BadName(Quoted),
    /// Nothing follows this name.
    NoCommand(Quoted),
    UnknownCommand(Quoted),
    /// Nothing follows `*`.
    NoControl,
    UnknownControl(Quoted),
    /// Fewer or more words follow than are wanted.
    Operands(Verb),
    /// A word isn't the number that is wanted there.
    Operand(Quoted, NumberFault),
}

/// A number of the configuration.
#[derive(Clone, Copy, Debug, PartialEq, Eq)]
pub enum ConfigNumber {
    Pages,
    Quantum,
    Trigger,
    Every,
}

impl fmt::Display for ScriptReason {
    ghost output = { λ it. Some (script_reason_text it) };

    fn fmt<W: fmt::Write>(&self, f: &mut fmt::Formatter<W>) -> fmt::Result {
        match self {
            ScriptReason::TooLong => f.write_str("a script has at most 67108864 bytes"),
            ScriptReason::NoConfiguration => {
                f.write_str("the script ends before config PAGES QUANTUM TRIGGER EVERY")
            }
            ScriptReason::NoNewline => f.write_str("the last line has no newline"),
            ScriptReason::Line(reason) => write!(f, "{reason}"),
        }
    }
}

impl fmt::Display for LineReason {
    ghost output = { λ it. Some (line_reason_text it) };

    fn fmt<W: fmt::Write>(&self, f: &mut fmt::Formatter<W>) -> fmt::Result {
        match self {
            LineReason::Comment => f.write_str("a comment is a line of its own"),
            LineReason::Bytes(fault) => write!(f, "{fault}"),
            LineReason::History(Version::One) => f.write_str("a history: check reads it"),
            LineReason::History(Version::Two) => f.write_str("a history: audit reads it"),
            LineReason::Log => f.write_str("a log: check --log reads it"),
            LineReason::NotConfig(word) => {
                write!(f, "{word}: config PAGES QUANTUM TRIGGER EVERY comes first")
            }
            LineReason::Limit(number) => write!(f, "{number}"),
            LineReason::SecondConfig => f.write_str("a configuration comes once"),
            LineReason::WorldConfig => f.write_str("a world has no configuration"),
            LineReason::LongName(name) => write!(f, "{name}: a name has at most 16 bytes"),
            LineReason::BadName(name) => {
                write!(
                    f,
                    "{name}: a name is a letter a to z, then letters or digits"
                )
            }
            LineReason::NoCommand(name) => write!(f, "no command after {name}"),
            LineReason::UnknownCommand(word) => write!(f, "{word} is no command"),
            LineReason::NoControl => f.write_str("no control after \"*\""),
            LineReason::UnknownControl(word) => write!(f, "{word} is no control"),
            LineReason::Operands(verb) => write!(f, "{verb}"),
            LineReason::Operand(word, fault) => write!(f, "{word}: {fault}"),
        }
    }
}

impl fmt::Display for ConfigNumber {
    ghost output = { λ it. Some (limits_text it) };

    fn fmt<W: fmt::Write>(&self, f: &mut fmt::Formatter<W>) -> fmt::Result {
        f.write_str(match self {
            ConfigNumber::Pages => "PAGES is 1 to 4096",
            ConfigNumber::Quantum => "QUANTUM is 209 to 1000000",
            ConfigNumber::Trigger => "TRIGGER is 0 to PAGES",
            ConfigNumber::Every => "EVERY is 0 to 1000000",
        })
    }
}
