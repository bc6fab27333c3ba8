//! What is wrong with a word that is to be a number, and at most some other. A word without a fault is such a number.
ghost use Rattle.std.specs.{Prelude.{suc, IfSome, IfNone, ◌≡◌, Some}, List.list_all};
ghost use Rattle.mh_model.specs.Bytes.{is_digit};
ghost use Rattle.mh_reasons.specs.{Numbers.{HasNumberFault, IsNumberBelow}, Texts.number_fault_text};

use mh_text::word::number;
use std::fmt;

/// Why a word isn't a number that may stand there.
#[derive(Clone, Copy, Debug, PartialEq, Eq)]
pub enum NumberFault {
    NotDigits,
    LeadingZero,
    /// The number is greater than this.
    Above(u64),
}

/// What is wrong with a word that is to be a number, at most this one.
pub fn number_fault(word: &[u8], most: u64) -> Option<NumberFault>
    ensures some { IfSome result (HasNumberFault (suc most) word.now) }
    ensures none { IfNone result (IsNumberBelow (suc most) word.now) }
{
    if word.is_empty() || !are_digits(word) {
        return Some(NumberFault::NotDigits);
    }
    if word.len() > 1 && word[0] == b'0' {
        return Some(NumberFault::LeadingZero);
    }
    match number(word) {
        Some(value) if value <= most => None,
        _ => Some(NumberFault::Above(most)),
    }
}

fn are_digits(word: &[u8]) -> bool
    ensures { result ≡ list_all is_digit word.now }
{
    word.iter().all(|byte| byte.is_ascii_digit())
}

impl fmt::Display for NumberFault {
    ghost output = { λ it. Some (number_fault_text it) };

    fn fmt<W: fmt::Write>(&self, f: &mut fmt::Formatter<W>) -> fmt::Result {
        match self {
            NumberFault::NotDigits => f.write_str("a number is written in digits"),
            NumberFault::LeadingZero => f.write_str("a number has no leading zero"),
            NumberFault::Above(most) => write!(f, "the number is above {most}"),
        }
    }
}
