//! Words of the command line as they can be printed.
//!
//! A word is quoted with the bytes escaped that can't be printed. If it is then longer than 80 bytes, it is cut
//! there, and `...` follows. A refusal is what `clap` says of the words so shown, if that is the same kind of fault.
//! Else it is a line that quotes nothing.
//!
//! Of the text that `clap` gives for refused words a contract says only which bytes it may have (`printable`).
ghost use Rattle.std.specs.Prelude.{◌≡◌, IfOk};
ghost use Rattle.mh_command_line.specs.{Auxiliary.is_printable, Printable.{IsPrintable, IsPrintableByte}};

use std::alloc::{AllocError, Global};
use std::convert::AsStr;

/// The most bytes of a word that are quoted.
const MOST_QUOTED: usize = 80;

fn is_printable(byte: u8) -> bool
    ensures { result ≡ is_printable byte }
{
    matches!(byte, b' '..=b'~')
}

/// Whether a word is quoted as it is.
fn is_plain(word: &str) -> bool {
    word.len() <= MOST_QUOTED && word.as_bytes().iter().all(|byte| is_printable(*byte))
}

/// Whether each word is quoted as it is.
pub(crate) fn are_plain<T: AsStr>(words: &[T]) -> bool {
    words.iter().all(|word| is_plain(word.as_str()))
}

/// A word with what can't be printed escaped, cut after 80 bytes.
pub(crate) fn quoted(alloc: Global, word: &str) -> Result<String, AllocError> {
    if is_plain(word) {
        return word.to_string(alloc);
    }
    let escaped = format!(in alloc; "{}", word.as_bytes().escape_ascii())?;
    if escaped.len() <= MOST_QUOTED {
        return Ok(escaped);
    }
    match escaped.as_str().get(..MOST_QUOTED) {
        Some(first) => format!(in alloc; "{first}..."),
        None => Ok(escaped),
    }
}

pub(crate) fn quoted_words<T: AsStr>(
    alloc: Global,
    words: &[T],
) -> Result<Vec<String>, AllocError> {
    let mut quoted_words = Vec::new(alloc);
    for word in words {
        quoted_words.push(quoted(alloc, word.as_str())?)?;
    }
    Ok(quoted_words)
}

/// The byte, or a question mark if it ends no line and can't be printed.
fn printable_byte(byte: u8) -> u8
    ensures { IsPrintableByte result }
{
    if byte == b'\n' || is_printable(byte) {
        byte
    } else {
        b'?'
    }
}

/// A text with a question mark for each byte that ends no line and can't be printed.
pub fn printable(alloc: Global, text: &str) -> Result<Vec<u8>, AllocError>
    ensures { IfOk result (λ text. IsPrintable text.items) }
{
    let mut bytes = Vec::new(alloc);
    for byte in text.as_bytes() {
        bytes.push(printable_byte(*byte))?;
    }
    Ok(bytes)
}
