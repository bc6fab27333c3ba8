//! The words of a command line as an environment has them.
ghost use Rattle.std.specs.Prelude.{◌≤◌, IfOk, length};

use std::env::{Env, FillError};

/// An environment with these words and no variables.
#[derive(Drop)]
pub struct Words<'a>(pub &'a [&'a [u8]]);

/// Puts a value at the start of a buffer.
fn fill(value: &[u8], buffer: &mut [u8]) -> Result<usize, FillError>
    ensures { IfOk result (λ count. count ≤ length buffer.new) }
{
    if value.len() > buffer.len() {
        return Err(FillError::TooLong);
    }
    buffer[..value.len()].copy_from_slice(value);
    Ok(value.len())
}

impl Env for Words<'_> {
    fn arg(&self, index: usize, buffer: &mut [u8]) -> Result<usize, FillError> {
        match self.0.get(index) {
            Some(word) => fill(word, buffer),
            None => Err(FillError::NotPresent),
        }
    }

    fn var(&self, _name: &str, _buffer: &mut [u8]) -> Result<usize, FillError> {
        Err(FillError::NotPresent)
    }

    fn var_at(&self, _index: usize, _buffer: &mut [u8]) -> Result<usize, FillError> {
        Err(FillError::NotPresent)
    }
}
