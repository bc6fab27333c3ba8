//! What standard error is to have of an output.
use anyhow::Result;
use std::alloc::Global;

/// The number after these words, at the end of a line.
fn number_after(line: &[u8], words: &[u8]) -> Option<u64> {
    let number = line.strip_prefix(words)?.strip_suffix(b"\n")?;
    std::str::from_utf8(number).ok()?.parse().ok()
}

/// How the line begins that tells of a line of an output, if one does: a line that refuses one of the input, or the verdict on a
/// bad entry.
fn beginning(alloc: Global, line: &[u8]) -> Result<Option<String>> {
    if let Some(number) = number_after(line, b"refused 10 line ") {
        let start = format!(in alloc; "metroheap: line {number}: ")?;
        return Ok(Some(start));
    }
    if let Some(number) = number_after(line, b"first bad ") {
        let next = number.wrapping_add(1);
        let start = format!(in alloc; "metroheap: line {next}, entry {number}: ")?;
        return Ok(Some(start));
    }
    Ok(None)
}

/// Whether a line begins so, and goes on.
fn goes_on(line: Option<&[u8]>, start: &str) -> bool {
    line.is_some_and(|line| {
        line.starts_with(start.as_bytes())
            && line.ends_with(b"\n")
            && line.len() > start.len().wrapping_add(1)
    })
}

/// Whether standard error has a line for each line of the output that is to be told of, in order, and nothing else but what
/// was looked through of a history.
pub fn is_told(alloc: Global, output: &[u8], errors: &[u8]) -> Result<bool> {
    let mut told = errors
        .split_inclusive(|byte| *byte == b'\n')
        .filter(|line| !line.starts_with(b"metroheap: entries "));
    for line in output.split_inclusive(|byte| *byte == b'\n') {
        if let Some(start) = beginning(alloc, line)? {
            if !goes_on(told.next(), start.as_str()) {
                return Ok(false);
            }
        }
    }
    Ok(told.next().is_none())
}
