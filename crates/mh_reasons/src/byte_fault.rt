//! Bytes of a line that are out of place. The leftmost byte that is no printable ASCII comes first. Spaces follow: one
//! at the start, one at the end, or one after another, in this order.
ghost use Rattle.std.specs.Prelude.{◌≡◌, ◌↔◌, IsTrue, IfSome, IfNone, find, Some};
ghost use Rattle.mh_reasons.specs.Lines.{HasByteFault, HasNoneBefore, HasPair, HasSpace, IsPlain, IsSpaced, is_stray};
ghost use Rattle.mh_reasons.specs.Texts.{byte_fault_text};

use crate::hexadecimal::Hexadecimal;
use std::fmt;

/// Bytes of a line that are out of place.
#[derive(Clone, Copy, Debug, PartialEq, Eq)]
pub enum ByteFault {
    /// A byte that is no printable ASCII.
    Stray(u8),
    /// A space that doesn't stand between two words.
    Space(SpacePlace),
}

#[derive(Clone, Copy, Debug, PartialEq, Eq)]
pub enum SpacePlace {
    Start,
    End,
    /// After another space.
    Twice,
}

/// The bytes of a line that are out of place, if some are: a byte that can't be printed before a space.
pub fn byte_fault(line: &[u8]) -> Option<ByteFault>
    ensures some { IfSome result (HasByteFault line.now) }
    ensures none { IfNone result (IsPlain line.now) }
{
    if let Some(byte) = stray_byte(line) {
        return Some(ByteFault::Stray(byte));
    }
    Some(ByteFault::Space(space_fault(line)?))
}

fn is_stray(byte: u8) -> bool
    ensures { result ≡ is_stray byte }
{
    byte < b' ' || byte > b'~'
}

/// The first byte that is no printable ASCII.
fn stray_byte(line: &[u8]) -> Option<u8>
    ensures { result ≡ find is_stray line.now }
{
    line.iter().copied().find(|byte| is_stray(*byte))
}

/// Whether these bytes stand side by side somewhere.
pub fn has_pair(line: &[u8], first: u8, second: u8) -> bool
    ensures { IsTrue result ↔ HasPair line.now first second }
{
    for place in 1..line.len() {
        if line[place - 1] == first && line[place] == second {
            return true;
        }
    }
    false
}

/// The first space that doesn't stand between two words.
fn space_fault(line: &[u8]) -> Option<SpacePlace>
    ensures some { IfSome result (HasSpace line.now) }
    ensures first { IfSome result (HasNoneBefore line.now) }
    ensures none { IfNone result (IsSpaced line.now) }
{
    if line.first() == Some(&b' ') {
        Some(SpacePlace::Start)
    } else if line.last() == Some(&b' ') {
        Some(SpacePlace::End)
    } else if has_pair(line, b' ', b' ') {
        Some(SpacePlace::Twice)
    } else {
        None
    }
}

impl fmt::Display for ByteFault {
    ghost output = { λ it. Some (byte_fault_text it) };

    fn fmt<W: fmt::Write>(&self, f: &mut fmt::Formatter<W>) -> fmt::Result {
        match self {
            ByteFault::Stray(b'\r') => f.write_str("a carriage return"),
            ByteFault::Stray(b'\t') => f.write_str("a tab"),
            ByteFault::Stray(byte) => write!(f, "a byte \\x{}", Hexadecimal(*byte)),
            ByteFault::Space(SpacePlace::Start) => f.write_str("a space at the start"),
            ByteFault::Space(SpacePlace::End) => f.write_str("a space at the end"),
            ByteFault::Space(SpacePlace::Twice) => f.write_str("two spaces in a row"),
        }
    }
}
