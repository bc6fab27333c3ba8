//! A line on standard error for each step of the sizing of a script, if somebody waits at a terminal. It stands beside
//! the lines of the contract, and no clause speaks of it: tests show it.
use itoa::Buffer;
use mh_size_text::progress::{Progress, Step};
use std::io::Write;

/// Says what is looked at next, at a terminal.
#[derive(Drop)]
pub struct Telling<E> {
    errors: E,
    is_terminal: bool,
}

impl<E: Write> Telling<E> {
    pub fn new(errors: E, is_terminal: bool) -> Telling<E> {
        Telling {
            errors,
            is_terminal,
        }
    }

    /// Nobody has to hear it, so a failure changes nothing.
    fn say(&mut self, text: &[u8]) {
        let _ = self.errors.write_all(text);
    }
}

impl<E: Write> Progress for Telling<E> {
    fn begins(&mut self, step: Step) {
        if !self.is_terminal {
            return;
        }
        match step {
            Step::Live => self.say(b"metroheap: looking at what is live\n"),
            Step::Fewest => self.say(b"metroheap: searching for the fewest pages\n"),
            Step::Row(pages) => {
                self.say(b"metroheap: running in pages: ");
                self.say(Buffer::new().format(pages).as_bytes());
                self.say(b"\n");
            }
        }
    }
}
