ghost use Rattle.std.specs.Prelude.{◌≤◌, length};

use std::io;
use std::io::Read;

/// Bytes that are made as they are read: some first, one byte so many times, and some last.
#[derive(Drop)]
pub struct Input<'a> {
    first: &'a [u8],
    byte: u8,
    times: usize,
    last: &'a [u8],
    is_read: bool,
}

impl<'a> Input<'a> {
    pub fn new(first: &'a [u8], byte: u8, times: usize, last: &'a [u8]) -> Input<'a> {
        Input {
            first,
            byte,
            times,
            last,
            is_read: false,
        }
    }

    pub fn bytes(bytes: &'a [u8]) -> Input<'a> {
        Input::new(bytes, 0, 0, b"")
    }

    /// Whether any bytes were asked for.
    pub fn is_read(&self) -> bool {
        self.is_read
    }
}

/// Moves bytes from the front of a text to that of a buffer.
fn take_front(text: &mut &[u8], buffer: &mut [u8]) -> usize
    ensures { result ≤ length buffer.new }
{
    let count = text.len().min(buffer.len());
    let (front, rest) = text.split_at(count);
    buffer[..count].copy_from_slice(front);
    *text = rest;
    count
}

impl Read for Input<'_> {
    fn read(&mut self, buffer: &mut [u8]) -> io::Result<usize> {
        self.is_read = true;
        if !self.first.is_empty() {
            return Ok(take_front(&mut self.first, buffer));
        }
        if self.times > 0 {
            let count = self.times.min(buffer.len());
            buffer[..count].fill(self.byte);
            self.times -= count;
            return Ok(count);
        }
        Ok(take_front(&mut self.last, buffer))
    }
}
