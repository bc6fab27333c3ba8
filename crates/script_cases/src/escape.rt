//! Bytes that lines of case files escape.
use anyhow::{Result, bail};
use std::alloc::Global;

/// The value of a hexadecimal digit.
fn digit(byte: u8) -> Result<u8> {
    match byte {
        b'0'..=b'9' => Ok(byte - b'0'),
        b'a'..=b'f' => Ok(byte - b'a' + 10),
        _ => bail!("no digit stands after a backslash"),
    }
}

/// Adds a piece of a line that stood after a backslash. Whether the line ends.
fn push_escaped(text: &mut Vec<u8>, piece: &[u8]) -> Result<bool> {
    match piece {
        [b'x', high, low, rest @ ..] => {
            text.push((digit(*high)? << 4) | digit(*low)?)?;
            text.extend_from_slice(rest)?;
            Ok(true)
        }
        [] => Ok(false),
        _ => bail!("no escape stands after a backslash"),
    }
}

/// Adds what a line says. Whether it ends.
fn push_unescaped(text: &mut Vec<u8>, line: &[u8]) -> Result<bool> {
    let mut is_ended = true;
    let mut is_first = true;
    for piece in line.split(|byte| *byte == b'\\') {
        if is_first {
            text.extend_from_slice(piece)?;
            is_first = false;
        } else {
            is_ended = push_escaped(text, piece)?;
        }
    }
    Ok(is_ended)
}

/// Adds a line with its end, if it has one.
pub fn push_line(text: &mut Vec<u8>, line: &[u8]) -> Result<()> {
    if push_unescaped(text, line)? {
        text.push(b'\n')?;
    }
    Ok(())
}

/// What a part of a heading says.
pub fn unescaped(alloc: Global, text: &str) -> Result<Vec<u8>> {
    let mut bytes = Vec::new(alloc);
    push_unescaped(&mut bytes, text.as_bytes())?;
    Ok(bytes)
}
