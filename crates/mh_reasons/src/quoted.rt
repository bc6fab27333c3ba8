//! Words as messages quote them: at most 80 bytes, in an array of a fixed size. So a reason takes no memory, and
//! outlives the text.
ghost use Rattle.mh_reasons.specs.{Quotes.Quotes, Texts.{escaped_text, quoted_text}};
ghost use Rattle.std.specs.Prelude.{Some};

use crate::hexadecimal::Hexadecimal;
use arrayvec::ArrayVec;
use std::fmt;

/// The most bytes of a word that a message quotes.
pub const QUOTED_BYTES: usize = 80;

/// The first bytes of a word, at most 80, as a message quotes them.
#[derive(Clone, Debug, Drop)]
pub struct Quoted {
    pub bytes: ArrayVec<u8, QUOTED_BYTES>,
    /// Whether the word has more.
    pub is_cut: bool,
}

/// Quotes a word.
#[tactic(auto, using(crate::proofs::QuoteLemmas::whole))]
pub fn quote(word: &[u8]) -> Quoted
    ensures { Quotes word.now result }
{
    let mut bytes = ArrayVec::new();
    for byte in word {
        if bytes.is_full() {
            return Quoted {
                bytes,
                is_cut: true,
            };
        }
        bytes.push(*byte);
    }
    Quoted {
        bytes,
        is_cut: false,
    }
}

impl fmt::Display for Quoted {
    ghost output = { λ it. Some (quoted_text it) };

    /// What can't be printed is escaped, and so are quotes and backslashes.
    fn fmt<W: fmt::Write>(&self, f: &mut fmt::Formatter<W>) -> fmt::Result {
        f.write_str("\"")?;
        for byte in self.bytes.as_slice() {
            write!(f, "{}", Escaped(*byte))?;
        }
        f.write_str(if self.is_cut { "\"..." } else { "\"" })
    }
}

/// A byte as text within quotes.
#[derive(Clone, Copy)]
struct Escaped(u8);

impl fmt::Display for Escaped {
    ghost output = { λ it. Some (escaped_text it.0) };

    fn fmt<W: fmt::Write>(&self, f: &mut fmt::Formatter<W>) -> fmt::Result {
        match self.0 {
            b'"' => f.write_str("\\\""),
            b'\\' => f.write_str("\\\\"),
            b' '..=b'~' => f.write_char(char::from(self.0)),
            byte => write!(f, "\\x{}", Hexadecimal(byte)),
        }
    }
}
