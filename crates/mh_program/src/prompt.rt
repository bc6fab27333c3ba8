//! A reader that says what it waits for. It is a reader of std around standard input, so no contract of the program
//! changes. No contract says that the line is written before the first read from a terminal: tests show it.
use std::io;
use std::io::{IsTerminal, Read, Write};

/// What is said before the first read from a terminal.
const PROMPT: &[u8] = b"metroheap: reading from the terminal, until ^D at the start of a line\n";

/// A reader that says on standard error what the program waits for, once, before the first read from a terminal.
#[derive(Drop)]
pub struct Prompting<I, E> {
    input: I,
    errors: E,
    is_due: bool,
}

impl<I: Read + IsTerminal, E: Write> Prompting<I, E> {
    /// A prompt is due if the input is a terminal.
    pub fn new(input: I, errors: E) -> Prompting<I, E> {
        let is_due = input.is_terminal();
        Prompting {
            input,
            errors,
            is_due,
        }
    }
}

impl<I: Read, E: Write> Read for Prompting<I, E> {
    ghost remaining = { λ prompting. I.remaining prompting.input };

    fn read(&mut self, buf: &mut [u8]) -> io::Result<usize> {
        if self.is_due {
            self.is_due = false;
            // A person who doesn't see it can still type.
            let _ = self.errors.write_all(PROMPT);
        }
        self.input.read(buf)
    }
}
