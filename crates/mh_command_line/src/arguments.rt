//! Where the words of a command line come from. Contracts speak of the words only if they are known, as in memory.
ghost use Rattle.std.specs.{Prelude.{ℕ, List, Option, None}, Io.WritesAtMost};
ghost use Rattle.mh_model.specs.Bytes.{Text};
ghost use Rattle.mh_command_line.specs.Arguments.{IsAnswered};

use std::env::{Env, FillError};

/// Where the words of a command line come from.
pub trait Arguments {
    // the words, of which the first is the program's own name, if they are known
    ghost known: { Self → Option (List Text) };

    /// Copies the word with this number, counted from 0, to the start of `buffer`, and gives its length.
    fn argument(&self, index: usize, buffer: &mut [u8]) -> Result<usize, FillError>
        ensures within { WritesAtMost result buffer.new }
        ensures word { IsAnswered (known self.now) index buffer.new result };
}

/// The words that the system has for the program. They aren't known.
#[derive(Drop)]
pub struct SystemArguments<'a, E>(pub &'a E);

impl<E: Env> Arguments for SystemArguments<'_, E> {
    ghost known = { λ _. None };

    fn argument(&self, index: usize, buffer: &mut [u8]) -> Result<usize, FillError> {
        self.0.arg(index, buffer)
    }
}
