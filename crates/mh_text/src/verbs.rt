//! The verbs of commands that numbers follow, by how many follow them, and the command that each is with its numbers.
ghost use Rattle.std.specs.Prelude.{◌≡◌, Some, [], ◌∷◌};
ghost use Rattle.mh_text.specs.Auxiliary.{one_word, three_word, two_word, said, one_rows, three_rows, two_rows};

use crate::word::small;
use mh_model::command::Command;

/// A verb with three numbers.
#[derive(Clone, Copy)]
pub(crate) enum VerbOfThree {
    New,
    Get,
    Put,
    Write,
}

/// A verb with two numbers.
#[derive(Clone, Copy)]
pub(crate) enum VerbOfTwo {
    Copy,
    Read,
    Same,
    Post,
    Take,
}

/// A verb with one number.
#[derive(Clone, Copy)]
pub(crate) enum VerbOfOne {
    Clear,
    Shape,
}

/// A verb with numbers.
#[derive(Clone, Copy)]
pub(crate) enum Verb {
    OfThree(VerbOfThree),
    OfTwo(VerbOfTwo),
    OfOne(VerbOfOne),
}

impl VerbOfThree {
    /// The command of this verb and these numbers, if each is in its range.
    #[inline(always)]
    pub(crate) fn with(self, first: u32, second: u32, third: u64) -> Option<Command>
        ensures { result ≡ said three_rows (three_word self) (first ∷ second ∷ third ∷ []) }
    {
        Some(match self {
            VerbOfThree::New => Command::New {
                slot: first,
                references: second,
                numbers: small(third)?,
            },
            VerbOfThree::Get => Command::Get {
                slot: first,
                source: second,
                field: small(third)?,
            },
            VerbOfThree::Put => Command::Put {
                slot: first,
                field: second,
                value: small(third)?,
            },
            VerbOfThree::Write => Command::Write {
                slot: first,
                index: second,
                number: third,
            },
        })
    }
}

impl VerbOfTwo {
    /// The command of this verb and these numbers.
    #[inline(always)]
    pub(crate) fn with(self, first: u32, second: u32) -> Command
        ensures { said two_rows (two_word self) (first ∷ second ∷ []) ≡ Some result }
    {
        match self {
            VerbOfTwo::Copy => Command::Copy {
                slot: first,
                source: second,
            },
            VerbOfTwo::Read => Command::Read {
                slot: first,
                index: second,
            },
            VerbOfTwo::Same => Command::Same {
                left: first,
                right: second,
            },
            VerbOfTwo::Post => Command::Post {
                board: first,
                slot: second,
            },
            VerbOfTwo::Take => Command::Take {
                slot: first,
                board: second,
            },
        }
    }
}

impl VerbOfOne {
    /// The command of this verb and this number.
    #[inline(always)]
    pub(crate) fn with(self, slot: u32) -> Command
        ensures { said one_rows (one_word self) (slot ∷ []) ≡ Some result }
    {
        match self {
            VerbOfOne::Clear => Command::Clear { slot },
            VerbOfOne::Shape => Command::Shape { slot },
        }
    }
}
