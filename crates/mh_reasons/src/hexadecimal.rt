//! Bytes in hexadecimal digits.
ghost use Rattle.std.specs.Prelude.{Some};
ghost use Rattle.mh_reasons.specs.Texts.{hexadecimal};

use std::fmt;

/// A byte as two hexadecimal digits.
#[derive(Clone, Copy)]
pub(crate) struct Hexadecimal(pub u8);

impl fmt::Display for Hexadecimal {
    ghost output = { λ it. Some (hexadecimal it.0) };

    fn fmt<W: fmt::Write>(&self, f: &mut fmt::Formatter<W>) -> fmt::Result {
        write!(f, "{:x}{:x}", self.0 / 16, self.0 % 16)
    }
}
