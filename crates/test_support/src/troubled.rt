//! Readers and writers of std over memory.
use std::alloc::Global;
use std::io;
use std::io::{ErrorKind, Read, Write};

/// What is wrong with a call of a reader or a writer.
#[derive(Clone, Copy, Debug)]
pub enum Trouble {
    Error(ErrorKind),
    /// The call takes or gives no byte.
    NoByte,
    /// Each call is interrupted of which the number is no multiple of `at`.
    Interruptions,
}

/// A device that takes or gives at most `most` bytes at a call. Call number `at`, counted from 1, has this trouble, and no
/// other, unless the trouble says more.
#[derive(Clone, Copy)]
pub struct Device {
    pub most: usize,
    pub at: u64,
    pub trouble: Trouble,
}

/// A reader and a writer of std over a device.
#[derive(Drop)]
pub struct Troubled<'a> {
    pub device: Device,
    pub bytes: &'a [u8],
    pub taken: Vec<u8>,
    pub calls: u64,
}

impl Device {
    pub fn reader<'a>(self, alloc: Global, bytes: &'a [u8]) -> Troubled<'a> {
        Troubled {
            device: self,
            bytes,
            taken: Vec::new(alloc),
            calls: 0,
        }
    }

    pub fn writer(self, alloc: Global) -> Troubled<'static> {
        self.reader(alloc, b"")
    }
}

impl Troubled<'_> {
    /// Counts a call, and gives how many bytes it may take or give.
    fn room(&mut self, wanted: usize) -> io::Result<usize> {
        self.calls = self.calls.wrapping_add(1);
        let Device { most, at, trouble } = self.device;
        match trouble {
            Trouble::Error(kind) if self.calls == at => Err(io::Error::from(kind)),
            Trouble::NoByte if self.calls == at => Ok(0),
            Trouble::Interruptions if self.calls % at.max(1) != 0 => {
                Err(io::Error::from(ErrorKind::Interrupted))
            }
            _ => Ok(wanted.min(most)),
        }
    }
}

impl Read for Troubled<'_> {
    fn read(&mut self, buffer: &mut [u8]) -> io::Result<usize> {
        let count = self.room(buffer.len())?.min(buffer.len());
        self.bytes.read(&mut buffer[..count])
    }
}

impl Write for Troubled<'_> {
    fn write(&mut self, bytes: &[u8]) -> io::Result<usize> {
        let count = self.room(bytes.len())?.min(bytes.len());
        self.taken.extend_from_slice(&bytes[..count])?;
        Ok(count)
    }

    fn flush(&mut self) -> io::Result<()> {
        Ok(())
    }
}
