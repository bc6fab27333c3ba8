use crate::input::Input;
use mh_program::launch::launch;
use std::alloc::{AllocError, Global};
use std::sync::Wait;
use std::thread::Threads;
use test_support::environment::Words;

/// What the program wrote and reported, whether it read, and its status.
pub struct Written {
    pub status: u8,
    pub is_read: bool,
    pub output: Vec<u8>,
    pub errors: Vec<u8>,
}

impl Drop for Written {
    fn drop(self) {
        let Written {
            status: _,
            is_read: _,
            output: _,
            errors: _,
        } = self;
    }
}

/// The words of a line after the program's own name. Two quotes are a word of no bytes.
fn words_of(alloc: Global, line: &[u8]) -> Result<Vec<&[u8]>, AllocError> {
    let mut words = Vec::new(alloc);
    words.push(b"metroheap".as_slice())?;
    for word in line.split(|byte| *byte == b' ') {
        match word {
            b"" => {}
            b"\"\"" => words.push(b"".as_slice())?,
            _ => words.push(word)?,
        }
    }
    Ok(words)
}

/// Calls the program with the words of a line on an input.
pub fn call<R: Threads + Wait + Sync>(
    rt: &R,
    alloc: Global,
    line: &[u8],
    mut input: Input<'_>,
) -> Result<Written, AllocError> {
    let words = words_of(alloc, line)?;
    let mut output = Vec::new(alloc);
    let mut errors = Vec::new(alloc);
    let status = launch(
        rt,
        alloc,
        &Words(words.as_slice()),
        &mut input,
        &mut output,
        &mut errors,
    );
    Ok(Written {
        status,
        is_read: input.is_read(),
        output,
        errors,
    })
}
