//! Lines of texts.
use std::alloc::{AllocError, Global};

/// How many lines end in a text.
pub fn line_count(text: &[u8]) -> usize {
    let mut count: usize = 0;
    for byte in text {
        if *byte == b'\n' {
            count = count.saturating_add(1);
        }
    }
    count
}

/// Whether a line, given without its end, is neither empty nor a comment.
fn says_something(line: &[u8]) -> bool {
    match line {
        [] => false,
        [first, ..] => *first != b'#',
    }
}

/// How many lines of a text say something.
pub fn said_count(text: &[u8]) -> usize {
    let mut count: usize = 0;
    for line in text.split(|byte| *byte == b'\n') {
        if says_something(line) {
            count = count.saturating_add(1);
        }
    }
    count
}

/// The lines of a text, with their ends.
pub fn lines_of(alloc: Global, text: &[u8]) -> Result<Vec<&[u8]>, AllocError> {
    let mut lines = Vec::new(alloc);
    for line in text.split_inclusive(|byte| *byte == b'\n') {
        lines.push(line)?;
    }
    Ok(lines)
}

/// A line without its end.
pub fn without_end(line: &[u8]) -> &[u8] {
    line.strip_suffix(b"\n").unwrap_or(line)
}

/// The first lines of a text.
pub fn first_lines(alloc: Global, text: &[u8], count: usize) -> Result<Vec<u8>, AllocError> {
    let mut first = Vec::new(alloc);
    for (number, line) in lines_of(alloc, text)?.iter().enumerate() {
        if number < count {
            first.extend_from_slice(line)?;
        }
    }
    Ok(first)
}

/// Whether a text has this line, which is given with its end.
pub fn has_line(alloc: Global, text: &[u8], line: &[u8]) -> Result<bool, AllocError> {
    for one in &lines_of(alloc, text)? {
        if *one == line {
            return Ok(true);
        }
    }
    Ok(false)
}
