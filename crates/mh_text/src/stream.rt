//! Whole texts that are read from a source and written to a sink.
//!
//! A text is read to its source's end, or until it is too long, and no further. It is written whole, or a prefix of it
//! if the device failed. A device is blamed only if it failed in that call. Out of memory is answered only if none did
//! and the source gave some byte. Nothing else stops a reading (`ReadError`).
ghost use Rattle.std.specs.Prelude.{MatchResult};
ghost use Rattle.mh_text.specs.Devices.{GivesWhole, IsWrite, NotRead};

use crate::device::DeviceFailed;
use crate::sink::Sink;
use crate::source::Source;
use std::alloc::Global;
use thiserror::Error;

const CHUNK: usize = 65_536;

/// Why a text was not read.
#[derive(Clone, Copy, Debug, PartialEq, Eq, Error)]
pub enum ReadError {
    #[error("read failed")]
    Device,
    #[error("no memory")]
    NoMemory,
}

/// Reads a source to its end, or until it has given more than `most` bytes.
pub fn read_text<S: Source>(
    alloc: Global,
    source: &mut S,
    most: usize,
) -> Result<Vec<u8>, ReadError>
    ensures { MatchResult result (λ text. GivesWhole most (S.device source.old) (S.device source.new) text.items) (NotRead (S.device source.old) (S.device source.new)) }
{
    let mut text = Vec::new(alloc);
    let mut chunk = [0u8; CHUNK];
    while text.len() <= most {
        let Ok(count) = source.read(&mut chunk) else {
            return Err(ReadError::Device);
        };
        if count == 0 {
            return Ok(text);
        }
        if text.extend_from_slice(&chunk[..count]).is_err() {
            return Err(ReadError::NoMemory);
        }
    }
    Ok(text)
}

/// Writes a text, or if the device fails a prefix of it.
pub fn write_text<W: Sink>(sink: &mut W, text: &[u8]) -> Result<(), DeviceFailed>
    ensures { IsWrite (W.device sink.old) (W.device sink.new) text.now result }
{
    let mut from = 0;
    while from < text.len() {
        let Ok(count) = sink.write(&text[from..]) else {
            return Err(DeviceFailed);
        };
        from += count;
    }
    Ok(())
}
