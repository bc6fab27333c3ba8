//! The words of the command line as the system has them.
//!
//! Words that can't be read are refused as not text, or with out of memory. They are refused as not text only if a word
//! after the program's own name isn't UTF-8. That name may be any bytes, since help and usage say `metroheap`.
ghost use Rattle.std.specs.{Prelude.{◌<◌, IfErr, IfOk, map, option_map}, String.string_bytes};
ghost use Rattle.mh_command_line.specs.{Arguments.AreWords, Auxiliary.IsArgument, Orders.IsUnread};

use crate::arguments::Arguments;
use crate::fault::LineFault;
use std::alloc::{AllocError, Global};
use std::env::FillError;

/// How the program calls itself, whatever it was called by.
const NAME: &str = "metroheap";

/// The room for a word at first.
const ROOM: usize = 256;

/// The bytes of a word, if there is one.
fn bytes_of<A: Arguments>(
    arguments: &A,
    alloc: Global,
    index: usize,
) -> Result<Option<Vec<u8>>, AllocError>
    ensures { IfOk result (λ found. IsArgument (A.known arguments.now) index (option_map (λ bytes. bytes.items) found)) }
{
    let mut room = ROOM;
    for _ in 0..usize::BITS {
        let mut bytes = Vec::new(alloc);
        bytes.resize(room, 0u8)?;
        match arguments.argument(index, bytes.as_mut_slice()) {
            Ok(length) => {
                bytes.truncate(length);
                return Ok(Some(bytes));
            }
            Err(FillError::NotPresent) => return Ok(None),
            Err(FillError::TooLong) => room = room.saturating_mul(2),
        }
    }
    Err(AllocError)
}

#[tactic(auto, using(crate::proofs::WordLemmas::no_text))]
fn word<A: Arguments>(
    arguments: &A,
    alloc: Global,
    index: usize,
) -> Result<Option<String>, LineFault>
    requires { 0 < index }
    ensures word { IfOk result (λ found. IsArgument (A.known arguments.now) index (option_map string_bytes found)) }
    ensures unread { IfErr result (IsUnread (A.known arguments.now)) }
{
    match bytes_of(arguments, alloc, index) {
        Ok(Some(bytes)) => match String::from_utf8(bytes) {
            Ok(word) => Ok(Some(word)),
            Err(_) => Err(LineFault::NotText),
        },
        Ok(None) => Ok(None),
        Err(_) => Err(LineFault::NoMemory),
    }
}

/// The words of the command line. The first is the program's own name, for which the system may have any bytes.
pub fn words<A: Arguments>(arguments: &A, alloc: Global) -> Result<Vec<String>, LineFault>
    ensures words { IfOk result (λ words. AreWords (A.known arguments.now) (map string_bytes words.items)) }
    ensures unread { IfErr result (IsUnread (A.known arguments.now)) }
{
    let mut words = Vec::new(alloc);
    let Ok(name) = NAME.to_string(alloc) else {
        return Err(LineFault::NoMemory);
    };
    if words.push(name).is_err() {
        return Err(LineFault::NoMemory);
    }
    for index in 1..usize::MAX {
        let Some(word) = word(arguments, alloc, index)? else {
            return Ok(words);
        };
        if words.push(word).is_err() {
            return Err(LineFault::NoMemory);
        }
    }
    Err(LineFault::NoMemory)
}
