use crate::lines::{lines_of, without_end};
use anyhow::{Result, bail};
use std::alloc::{AllocError, Global};

/// The words that a file of cases has under a name.
pub struct List {
    name: String,
    words: Vec<Vec<u8>>,
}

impl Drop for List {
    fn drop(self) {
        let List { name: _, words: _ } = self;
    }
}

impl List {
    /// The list whose words are these lines.
    pub fn new(alloc: Global, name: &str, lines: &[u8]) -> Result<List, AllocError> {
        let mut words = Vec::new(alloc);
        for line in &lines_of(alloc, lines)? {
            words.push(Vec::from_slice(alloc, without_end(line))?)?;
        }
        Ok(List {
            name: name.to_string(alloc)?,
            words,
        })
    }
}

/// Adds words to others.
fn push_words(words: &mut Vec<Vec<u8>>, alloc: Global, more: &[Vec<u8>]) -> Result<(), AllocError> {
    for word in more {
        words.push(Vec::from_slice(alloc, word.as_slice())?)?;
    }
    Ok(())
}

/// Adds the words of the list with this name.
pub fn push_list(
    words: &mut Vec<Vec<u8>>,
    alloc: Global,
    lists: &[List],
    name: &str,
) -> Result<()> {
    for list in lists {
        if list.name.as_str() == name {
            push_words(words, alloc, list.words.as_slice())?;
            return Ok(());
        }
    }
    bail!("no list is named `{name}`")
}
