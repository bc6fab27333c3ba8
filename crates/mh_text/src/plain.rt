//! Lines of commands in their plain form, read in one pass over their bytes: a name that was looked up before, a verb, and
//! its numbers. A line that isn't read here is read by its words, which say what it is.
//!
//! Its calls are inlined into the loop that reads a script, so what they hand on stays in registers.
ghost use Rattle.std.specs.Prelude.{◌≡◌, ◌<◌, ◌++◌, ◌∷◌, length, IfSome, IfNone};
ghost use Rattle.mh_text.specs.Auxiliary.{BeginsWithCommand, BeginsWithNumberBefore, TakesEvent, verb_word};

use crate::names::Names;
use crate::pieces::Lines;
use crate::verbs::{Verb, VerbOfOne, VerbOfThree, VerbOfTwo};
use crate::word::{number_before, small};
use mh_model::command::{Command, Event};

/// The verb that a text begins with, and what follows the space after it.
#[inline(always)]
fn leading_verb(text: &[u8]) -> Option<(Verb, &[u8])>
    ensures some { IfSome result (λ found. text.now ≡ verb_word found.0 ++ 32 ∷ found.1.now) }
    ensures shorter { IfSome result (λ found. length found.1.now < length text.now) }
{
    let (verb, rest) = match text {
        [b'n', b'e', b'w', b' ', rest @ ..] => (Verb::OfThree(VerbOfThree::New), rest),
        [b'g', b'e', b't', b' ', rest @ ..] => (Verb::OfThree(VerbOfThree::Get), rest),
        [b'p', b'u', b't', b' ', rest @ ..] => (Verb::OfThree(VerbOfThree::Put), rest),
        [b'w', b'r', b'i', b't', b'e', b' ', rest @ ..] => (
            Verb::OfThree(VerbOfThree::Write),
            rest,
        ),
        [b'c', b'o', b'p', b'y', b' ', rest @ ..] => (Verb::OfTwo(VerbOfTwo::Copy), rest),
        [b'r', b'e', b'a', b'd', b' ', rest @ ..] => (Verb::OfTwo(VerbOfTwo::Read), rest),
        [b's', b'a', b'm', b'e', b' ', rest @ ..] => (Verb::OfTwo(VerbOfTwo::Same), rest),
        [b'p', b'o', b's', b't', b' ', rest @ ..] => (Verb::OfTwo(VerbOfTwo::Post), rest),
        [b't', b'a', b'k', b'e', b' ', rest @ ..] => (Verb::OfTwo(VerbOfTwo::Take), rest),
        [b'c', b'l', b'e', b'a', b'r', b' ', rest @ ..] => (Verb::OfOne(VerbOfOne::Clear), rest),
        [b's', b'h', b'a', b'p', b'e', b' ', rest @ ..] => (Verb::OfOne(VerbOfOne::Shape), rest),
        _ => return None,
    };
    Some((verb, rest))
}

/// A number of 32 bits that a text begins with before this byte, and what follows that.
#[inline(always)]
fn small_before(end: u8, text: &[u8]) -> Option<(u32, &[u8])>
    ensures some { IfSome result (λ found. BeginsWithNumberBefore end text.now found.0 found.1.now) }
    ensures shorter { IfSome result (λ found. length found.1.now < length text.now) }
{
    let (number, rest) = number_before(end, text)?;
    Some((small(number)?, rest))
}

/// The command that the first line of a text is, and what follows the line.
#[inline(always)]
fn leading_command(text: &[u8]) -> Option<(Command, &[u8])>
    ensures some { IfSome result (λ found. BeginsWithCommand text.now found.0 found.1.now) }
    ensures shorter { IfSome result (λ found. length found.1.now < length text.now) }
{
    let (verb, rest) = leading_verb(text)?;
    match verb {
        Verb::OfThree(verb) => {
            let (first, rest) = small_before(b' ', rest)?;
            let (second, rest) = small_before(b' ', rest)?;
            let (third, rest) = number_before(b'\n', rest)?;
            Some((verb.with(first, second, third)?, rest))
        }
        Verb::OfTwo(verb) => {
            let (first, rest) = small_before(b' ', rest)?;
            let (second, rest) = small_before(b'\n', rest)?;
            Some((verb.with(first, second), rest))
        }
        Verb::OfOne(verb) => {
            let (slot, rest) = small_before(b'\n', rest)?;
            Some((verb.with(slot), rest))
        }
    }
}

impl Lines<'_> {
    /// Takes the next line if it is a command in its plain form under a name that was looked up before.
    #[inline(always)]
    pub(crate) fn next_plain(&mut self, names: &Names<'_>) -> Option<Event>
        ensures taken { IfSome result (λ event. TakesEvent names.now self.old self.new event) }
        ensures same { IfNone result (self.new ≡ self.old) }
    {
        let (who, rest) = names.leading(self.text)?;
        let (command, rest) = leading_command(rest)?;
        self.text = rest;
        self.number += 1;
        Some(Event::Session(who, command))
    }
}
