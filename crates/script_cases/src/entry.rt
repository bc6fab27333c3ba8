use std::alloc::{AllocError, Global};
use std::str;

/// What is replaced in an entry of a history.
#[derive(Clone, Copy)]
pub enum Field {
    Reply,
    /// The units of the mutator.
    Mutator,
    /// The units of the collector.
    Collector,
}

/// An entry of a history. Those of version 1 have no units.
#[derive(Clone, Copy)]
pub struct Entry<'a> {
    event: &'a [u8],
    reply: &'a [u8],
    units: Option<(&'a [u8], &'a [u8])>,
}

impl<'a> Entry<'a> {
    pub fn read(line: &'a [u8]) -> Option<Entry<'a>> {
        let (event, rest) = str::from_utf8(line).ok()?.split_once(" = ")?;
        let event = event.as_bytes();
        let Some((reply, units)) = rest.split_once(" units ") else {
            return Some(Entry {
                event,
                reply: rest.as_bytes(),
                units: None,
            });
        };
        let (mutator, collector) = units.split_once(' ')?;
        Some(Entry {
            event,
            reply: reply.as_bytes(),
            units: Some((mutator.as_bytes(), collector.as_bytes())),
        })
    }

    pub fn field(&self, field: Field) -> &'a [u8] {
        match (field, self.units) {
            (Field::Mutator, Some((mutator, _))) => mutator,
            (Field::Collector, Some((_, collector))) => collector,
            _ => self.reply,
        }
    }

    /// The entry with another field.
    pub fn with(self, field: Field, word: &'a [u8]) -> Entry<'a> {
        match (field, self.units) {
            (Field::Mutator, Some((_, collector))) => Entry {
                units: Some((word, collector)),
                ..self
            },
            (Field::Collector, Some((mutator, _))) => Entry {
                units: Some((mutator, word)),
                ..self
            },
            _ => Entry {
                reply: word,
                ..self
            },
        }
    }

    /// The line of the entry, with its end.
    pub fn line(&self, alloc: Global) -> Result<Vec<u8>, AllocError> {
        let mut line = Vec::new(alloc);
        push_all(&mut line, &[self.event, b" = ", self.reply])?;
        if let Some((mutator, collector)) = self.units {
            push_all(&mut line, &[b" units ", mutator, b" ", collector])?;
        }
        line.push(b'\n')?;
        Ok(line)
    }
}

/// Adds texts one after the other.
fn push_all(whole: &mut Vec<u8>, texts: &[&[u8]]) -> Result<(), AllocError> {
    for text in texts {
        whole.extend_from_slice(text)?;
    }
    Ok(())
}
