//! What a reader says before the first read from a terminal.
use crate::program::Prompting;
use std::alloc::Global;
use std::io;
use std::io::{IsTerminal, Read};
use std::test::Fail;

/// Bytes that a person types, or that come from a file.
#[derive(Drop)]
struct Keys<'a> {
    bytes: &'a [u8],
    is_terminal: bool,
}

impl Read for Keys<'_> {
    fn read(&mut self, buffer: &mut [u8]) -> io::Result<usize> {
        self.bytes.read(buffer)
    }
}

impl IsTerminal for Keys<'_> {
    fn is_terminal(&self) -> bool {
        self.is_terminal
    }
}

/// Reads twice, and gives what standard error got.
fn told_at(alloc: Global, is_terminal: bool) -> io::Result<Vec<u8>> {
    let mut errors = Vec::new(alloc);
    let keys = Keys {
        bytes: b"ab",
        is_terminal,
    };
    let mut reader = Prompting::new(keys, &mut errors);
    let mut byte = [0u8; 1];
    reader.read(&mut byte)?;
    reader.read(&mut byte)?;
    Ok(errors)
}

#[test]
fn a_terminal_is_told_once_that_it_is_read(rt: HostRuntime) -> Result<(), Fail> {
    let told = told_at(rt.alloc(), true)?;
    let text: &[u8] = b"metroheap: reading from the terminal, until ^D at the start of a line\n";
    assert_eq!(rt; told.as_slice(), text);
    Ok(())
}

#[test]
fn a_file_is_read_without_a_word(rt: HostRuntime) -> Result<(), Fail> {
    let told = told_at(rt.alloc(), false)?;
    assert!(rt; told.is_empty());
    Ok(())
}
