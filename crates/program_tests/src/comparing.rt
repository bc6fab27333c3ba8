use std::io;
use std::io::Write;

/// A writer that takes no memory: it keeps nothing, and reports whether what was written is a prefix of a text.
#[derive(Drop)]
pub struct Comparing<'a> {
    text: &'a [u8],
    written: usize,
    differs: bool,
}

impl<'a> Comparing<'a> {
    pub fn new(text: &'a [u8]) -> Comparing<'a> {
        Comparing {
            text,
            written: 0,
            differs: false,
        }
    }

    /// How many bytes were written, if they are a prefix of the text.
    pub fn begun(&self) -> Option<usize> {
        if self.differs {
            None
        } else {
            Some(self.written)
        }
    }

    /// Whether the text was written.
    pub fn is_whole(&self) -> bool {
        self.begun() == Some(self.text.len())
    }
}

impl Write for Comparing<'_> {
    fn write(&mut self, bytes: &[u8]) -> io::Result<usize> {
        let end = self.written.saturating_add(bytes.len());
        if self.text.get(self.written..end) != Some(bytes) {
            self.differs = true;
        }
        self.written = end;
        Ok(bytes.len())
    }

    fn flush(&mut self) -> io::Result<()> {
        Ok(())
    }
}
