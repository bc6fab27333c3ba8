//! The forms of commands and controls: which one words are, if they are one, as the tables of the model say. The first
//! version doesn't know the control `left`. A form is sought by how many numbers the words have, and then by their
//! verb.
ghost use Rattle.std.specs.Prelude.{◌≡◌, ℕ, None, List, [], IfSome, IfNone};
ghost use Rattle.mh_model.specs.Forms.{command_rows, command_of, control_rows, control_of};
ghost use Rattle.mh_text.specs.Auxiliary.{said, three_rows, two_rows, one_rows, plain_rows, one_word, three_word, two_word};

use crate::pieces::Words;
use crate::verbs::{VerbOfOne, VerbOfThree, VerbOfTwo};
use crate::word::{is_word, numbers, small};
use mh_model::command::{Command, Control};
use mh_model::history::Version;

/// The command that words are the form of.
#[tactic(auto, using(crate::proofs::FormLemmas::command_said, crate::proofs::FormLemmas::command_none))]
pub fn command_of(mut words: Words<'_>) -> Option<Command>
    ensures { result ≡ command_of words.entry }
{
    let verb = words.next_word()?;
    command_with(verb, numbers(words)?.as_slice())
}

#[tactic(auto, using(crate::proofs::FormLemmas::end_said))]
fn command_with(verb: &[u8], numbers: &[u64]) -> Option<Command>
    ensures { result ≡ said command_rows verb.now numbers.now }
{
    match *numbers {
        [] if is_word(verb, b"end") => Some(Command::End),
        [slot] => Some(verb_of_one(verb)?.with(small(slot)?)),
        [first, second] => Some(verb_of_two(verb)?.with(small(first)?, small(second)?)),
        [first, second, third] => verb_of_three(verb)?.with(small(first)?, small(second)?, third),
        _ => None,
    }
}

/// The verb with one number that a word is.
#[tactic(auto, using(mh_model::proofs::TextLemmas::text_is))]
fn verb_of_one(word: &[u8]) -> Option<VerbOfOne>
    ensures some { IfSome result (λ verb. word.now ≡ one_word verb) }
    ensures none { IfNone result ((numbers : List ℕ) → said one_rows word.now numbers ≡ None) }
{
    if is_word(word, b"clear") {
        Some(VerbOfOne::Clear)
    } else if is_word(word, b"shape") {
        Some(VerbOfOne::Shape)
    } else {
        None
    }
}

/// The verb with two numbers that a word is.
#[tactic(auto, using(mh_model::proofs::TextLemmas::text_is))]
fn verb_of_two(word: &[u8]) -> Option<VerbOfTwo>
    ensures some { IfSome result (λ verb. word.now ≡ two_word verb) }
    ensures none { IfNone result ((numbers : List ℕ) → said two_rows word.now numbers ≡ None) }
{
    if is_word(word, b"copy") {
        Some(VerbOfTwo::Copy)
    } else if is_word(word, b"read") {
        Some(VerbOfTwo::Read)
    } else if is_word(word, b"same") {
        Some(VerbOfTwo::Same)
    } else if is_word(word, b"post") {
        Some(VerbOfTwo::Post)
    } else if is_word(word, b"take") {
        Some(VerbOfTwo::Take)
    } else {
        None
    }
}

/// The verb with three numbers that a word is.
#[tactic(auto, using(mh_model::proofs::TextLemmas::text_is))]
fn verb_of_three(word: &[u8]) -> Option<VerbOfThree>
    ensures some { IfSome result (λ verb. word.now ≡ three_word verb) }
    ensures none { IfNone result ((numbers : List ℕ) → said three_rows word.now numbers ≡ None) }
{
    if is_word(word, b"new") {
        Some(VerbOfThree::New)
    } else if is_word(word, b"get") {
        Some(VerbOfThree::Get)
    } else if is_word(word, b"put") {
        Some(VerbOfThree::Put)
    } else if is_word(word, b"write") {
        Some(VerbOfThree::Write)
    } else {
        None
    }
}

/// The control that words are the form of, if the version knows it.
#[tactic(auto, using(crate::proofs::FormLemmas::control_said, crate::proofs::FormLemmas::control_none))]
pub fn control_of(version: Version, mut words: Words<'_>) -> Option<Control>
    ensures { result ≡ control_of version words.entry }
{
    let verb = words.next_word()?;
    control_with(version, verb, numbers(words)?.as_slice())
}

fn control_with(version: Version, verb: &[u8], numbers: &[u64]) -> Option<Control>
    ensures { result ≡ said (control_rows version) verb.now numbers.now }
{
    match *numbers {
        [] => plain_control(version, verb),
        [window] if is_word(verb, b"report") => Some(Control::Report { window }),
        _ => None,
    }
}

#[tactic(auto, using(crate::proofs::FormLemmas::left_unknown))]
fn plain_control(version: Version, verb: &[u8]) -> Option<Control>
    ensures { result ≡ said (plain_rows version) verb.now [] }
{
    if is_word(verb, b"quantum") {
        Some(Control::Quantum)
    } else if is_word(verb, b"start") {
        Some(Control::Start)
    } else if is_word(verb, b"stat") {
        Some(Control::Stat)
    } else if is_word(verb, b"dump") {
        Some(Control::Dump)
    } else if is_word(verb, b"left") && version == Version::Two {
        Some(Control::Left)
    } else {
        None
    }
}
