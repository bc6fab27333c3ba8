//! Standard error. It gets nothing more once a write to it failed. Nobody is left to hear it, and what is answered on
//! standard output goes on.
ghost use Rattle.std.specs.Prelude.{◌≡◌, false};
ghost use Rattle.mh_program.specs.Complaints.{Says, fresh};

use mh_text::sink::Sink;
use mh_text::stream::write_text;
use std::alloc::Global;
use std::marker::Model;

/// Where the program tells what went wrong, until that fails: then there is nobody left to hear.
#[derive(Drop)]
pub struct Errors<E: Sink> {
    alloc: Global,
    sink: E,
    has_failed: bool,
}

impl<E: Sink> Model for Errors<E> {
    ghost use Rattle.mh_program.specs.Complaints.{ErrorStream};

    ghost Value = { ErrorStream };

    ghost view = { λ errors. record { device = E.device errors.sink; has_failed = errors.has_failed } };
}

impl<E: Sink> Errors<E> {
    /// The allocator is that of the texts.
    pub fn new(alloc: Global, sink: E) -> Errors<E>
        ensures { result ≡ fresh (E.device sink) }
    {
        Errors {
            alloc,
            sink,
            has_failed: false,
        }
    }

    /// Writes a text, if no write has failed yet.
    pub(crate) fn say(&mut self, text: &[u8])
        ensures { Says self.old self.new text.now }
    {
        if self.has_failed {
            return;
        }
        self.has_failed = write_text(&mut self.sink, text).is_err();
    }

    pub(crate) fn alloc(&self) -> Global {
        self.alloc
    }
}
