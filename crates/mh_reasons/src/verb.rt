//! Words that numbers follow, and the greatest that each number may be, by the tables of the model. The forms of
//! `mh_text` say only that words are none of them, and a reason says what their verb wants.
ghost use Rattle.std.specs.Prelude.{◌≡◌, codes, Some};
ghost use Rattle.mh_model.specs.Forms.{command_rows, control_rows};
ghost use Rattle.mh_reasons.specs.{Texts.{operands_text, takes_text}, Verbs.{NamesRow, verb_text}};

use mh_model::history::Version;
use mh_text::word::is_word;
use std::fmt;

/// A word that numbers follow: that of a configuration, of a command, of a control or of the units of an entry.
#[derive(Clone, Copy, Debug, PartialEq, Eq)]
pub enum Verb {
    Config,
    New,
    Get,
    Put,
    Copy,
    Clear,
    Read,
    Write,
    Same,
    Shape,
    Post,
    Take,
    End,
    Quantum,
    Start,
    Stat,
    Dump,
    Report,
    Left,
    Rules,
    Units,
}

/// The command with this word.
pub fn command_verb(word: &[u8]) -> Option<Verb>
    ensures { NamesRow command_rows word.now result }
{
    if is_word(word, b"new") {
        Some(Verb::New)
    } else if is_word(word, b"get") {
        Some(Verb::Get)
    } else if is_word(word, b"put") {
        Some(Verb::Put)
    } else if is_word(word, b"copy") {
        Some(Verb::Copy)
    } else if is_word(word, b"clear") {
        Some(Verb::Clear)
    } else if is_word(word, b"read") {
        Some(Verb::Read)
    } else if is_word(word, b"write") {
        Some(Verb::Write)
    } else if is_word(word, b"same") {
        Some(Verb::Same)
    } else if is_word(word, b"shape") {
        Some(Verb::Shape)
    } else if is_word(word, b"post") {
        Some(Verb::Post)
    } else if is_word(word, b"take") {
        Some(Verb::Take)
    } else if is_word(word, b"end") {
        Some(Verb::End)
    } else {
        None
    }
}

/// The control with this word, if the version knows it.
pub fn control_verb(version: Version, word: &[u8]) -> Option<Verb>
    ensures { NamesRow (control_rows version) word.now result }
{
    if is_word(word, b"quantum") {
        Some(Verb::Quantum)
    } else if is_word(word, b"start") {
        Some(Verb::Start)
    } else if is_word(word, b"stat") {
        Some(Verb::Stat)
    } else if is_word(word, b"dump") {
        Some(Verb::Dump)
    } else if is_word(word, b"report") {
        Some(Verb::Report)
    } else if is_word(word, b"left") {
        later_control(version)
    } else {
        None
    }
}

fn later_control(version: Version) -> Option<Verb>
    ensures { NamesRow (control_rows version) (codes "left") result }
{
    match version {
        Version::One => None,
        Version::Two => Some(Verb::Left),
    }
}

const SMALL: u64 = 0xffff_ffff;

impl Verb {
    ghost use Rattle.std.specs.Prelude.{◌≡◌};
    ghost use Rattle.mh_reasons.specs.{Bounds.bounds_above, Verbs.verb_bounds};

    /// The greatest that each of its numbers may be.
    pub fn greatest(self) -> &'static [u64]
        ensures { bounds_above result.now ≡ verb_bounds self }
    {
        match self {
            Verb::Config => &[u64::MAX, u64::MAX, u64::MAX, u64::MAX],
            Verb::New | Verb::Get | Verb::Put => &[SMALL, SMALL, SMALL],
            Verb::Write => &[SMALL, SMALL, u64::MAX],
            Verb::Copy | Verb::Read | Verb::Same | Verb::Post | Verb::Take => &[SMALL, SMALL],
            Verb::Clear | Verb::Shape => &[SMALL],
            Verb::Report => &[u64::MAX],
            Verb::Rules => &[u64::MAX, u64::MAX, u64::MAX, u64::MAX, u64::MAX],
            Verb::Units => &[u64::MAX, u64::MAX],
            Verb::End | Verb::Quantum | Verb::Start | Verb::Stat | Verb::Dump | Verb::Left => &[],
        }
    }

    fn word(self) -> &'static str
        ensures { result.now ≡ verb_text self }
    {
        match self {
            Verb::Config => "config",
            Verb::New => "new",
            Verb::Get => "get",
            Verb::Put => "put",
            Verb::Copy => "copy",
            Verb::Clear => "clear",
            Verb::Read => "read",
            Verb::Write => "write",
            Verb::Same => "same",
            Verb::Shape => "shape",
            Verb::Post => "post",
            Verb::Take => "take",
            Verb::End => "end",
            Verb::Quantum => "quantum",
            Verb::Start => "start",
            Verb::Stat => "stat",
            Verb::Dump => "dump",
            Verb::Report => "report",
            Verb::Left => "left",
            Verb::Rules => "rules",
            Verb::Units => "units",
        }
    }

    /// The names of its numbers.
    fn operands(self) -> &'static str
        ensures { result.now ≡ operands_text self }
    {
        match self {
            Verb::Config => "PAGES QUANTUM TRIGGER EVERY",
            Verb::New => "D R N",
            Verb::Get => "D S F",
            Verb::Put => "S F V",
            Verb::Copy => "D S",
            Verb::Clear => "D",
            Verb::Read => "S I",
            Verb::Write => "S I X",
            Verb::Same => "A B",
            Verb::Shape => "S",
            Verb::Post => "B S",
            Verb::Take => "D B",
            Verb::Report => "W",
            Verb::Rules => "R PAGES QUANTUM TRIGGER EVERY",
            Verb::Units => "A B",
            Verb::End | Verb::Quantum | Verb::Start | Verb::Stat | Verb::Dump | Verb::Left =>
                "nothing",
        }
    }
}

/// What a verb takes.
impl fmt::Display for Verb {
    ghost output = { λ it. Some (takes_text it) };

    fn fmt<W: fmt::Write>(&self, f: &mut fmt::Formatter<W>) -> fmt::Result {
        let verb = self.word();
        let operands = self.operands();
        write!(f, "\"{verb}\" takes {operands}")
    }
}
