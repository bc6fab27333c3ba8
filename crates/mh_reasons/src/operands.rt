//! What is wrong with the words after a verb: how many they are, or else the first that isn't a number which may stand
//! there.
ghost use Rattle.std.specs.Prelude.{◌≡◌, ◌↔◌, IsTrue, false, true, length, IfSome, IfNone};
ghost use Rattle.mh_reasons.specs.{Verbs.verb_bounds, Bounds.bounds_above};
ghost use Rattle.mh_reasons.specs.Operands.{fit, IsOperandReason, HasOperandFault};

use crate::number_fault::{NumberFault, number_fault};
use crate::quoted::{Quoted, quote};
use crate::reason::LineReason;
use crate::verb::Verb;
use mh_text::pieces::Words;

/// What is wrong with the words after a verb, if anything is.
pub fn operands_fault(verb: Verb, words: Words<'_>) -> Option<LineReason>
    ensures some { IfSome result (IsOperandReason verb (verb_bounds verb) words.entry) }
    ensures none { IfNone result (fit (verb_bounds verb) words.entry ≡ true) }
{
    let greatest = verb.greatest();
    if !has_count(words.copy(), greatest.len()) {
        return Some(LineReason::Operands(verb));
    }
    let (word, fault) = first_fault(words, greatest)?;
    Some(LineReason::Operand(word, fault))
}

/// What is wrong with the words after a verb, which they don't fit.
pub fn operands_reason(verb: Verb, words: Words<'_>) -> LineReason
    requires { fit (verb_bounds verb) words ≡ false }
    ensures { IsOperandReason verb (verb_bounds verb) words.entry result }
{
    match operands_fault(verb, words) {
        Some(reason) => reason,
        None => unreachable!(),
    }
}

/// Whether there are so many words.
fn has_count(mut words: Words<'_>, count: usize) -> bool
    ensures { IsTrue result ↔ (length words.entry ≡ count) }
{
    for _seen in 0..count {
        if words.next_word().is_none() {
            return false;
        }
    }
    words.next_word().is_none()
}

/// The first of as many words that isn't a number, or is a greater one.
fn first_fault(mut words: Words<'_>, greatest: &[u64]) -> Option<(Quoted, NumberFault)>
    requires { length words ≡ length greatest.now }
    ensures some { IfSome result (λ found. HasOperandFault (bounds_above greatest.now) words.entry found.0 found.1) }
    ensures none { IfNone result (fit (bounds_above greatest.now) words.entry ≡ true) }
{
    for most in greatest {
        let word = words.next_word()?;
        if let Some(fault) = number_fault(word, *most) {
            return Some((quote(word), fault));
        }
    }
    None
}
