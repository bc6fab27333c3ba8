//! What words of replies, events and dumps are: tagged numbers, shapes, refusals, phases and flags. It is apart, since
//! several forms have the same parts.
ghost use Rattle.std.specs.Prelude.{◌≡◌, ◌∷◌, [], length, nat_lt, Some, None, IfSome, IfNone};
ghost use Rattle.mh_model.specs.{Bytes.tagged, Forms.{within, formed, numbered, at, u32, u64}};
ghost use Rattle.mh_model.specs.Replies.{are_texts, phase_of, flag_of, optional_of, refusal_forms};
ghost use Rattle.mh_text.specs.Names.{names_shown};

use mh_model::cycle::Phase;
use mh_model::reply::Refusal;
use mh_model::shape::Shape;
use mh_text::pieces::Words;
use mh_text::word::{is_word, number, numbers, small};

/// Whether the words are these.
#[tactic(auto, using(crate::proofs::PartLemmas::shown_next))]
fn are_words(mut words: Words<'_>, texts: &[&str]) -> bool
    ensures { result ≡ are_texts words.entry (names_shown texts.now) }
{
    for text in texts {
        let Some(word) = words.next_word() else {
            return false;
        };
        if !is_word(word, text.as_bytes()) {
            return false;
        }
    }
    words.next_word().is_none()
}

/// A value if the words are these.
pub fn where_words<T: Drop>(words: Words<'_>, texts: &[&str], value: T) -> Option<T>
    ensures { result ≡ within (are_texts words.entry (names_shown texts.now)) value }
{
    if are_words(words, texts) {
        Some(value)
    } else {
        None
    }
}

/// The number that follows a byte in a word.
pub fn tagged(word: &[u8], tag: u8) -> Option<u64>
    ensures { result ≡ tagged tag word.now }
{
    match word {
        [first, ..] if *first == tag => number(&word[1..]),
        _ => None,
    }
}

/// The number that the words are.
#[tactic(auto, using(crate::proofs::PartLemmas::no_number, crate::proofs::PartLemmas::one_number, crate::proofs::PartLemmas::not_one))]
pub fn number_of(words: Words<'_>) -> Option<u64>
    ensures { result ≡ numbered (u64 ∷ []) (λ ns. at ns 0) words.entry }
{
    match *numbers(words)?.as_slice() {
        [number] => Some(number),
        _ => None,
    }
}

/// The shape that the words are, as two numbers of 32 bits.
#[tactic(auto, using(crate::proofs::PartLemmas::no_shape, crate::proofs::PartLemmas::not_two, crate::proofs::PartLemmas::shape_two, crate::proofs::PartLemmas::shape_large))]
pub fn shape_of(words: Words<'_>) -> Option<Shape>
    ensures { result
        ≡ numbered (u32 ∷ u32 ∷ []) (λ ns. record { references = at ns 0; numbers = at ns 1 }) words.entry }
{
    match *numbers(words)?.as_slice() {
        [references, numbers] => {
            let references = small(references)?;
            let numbers = small(numbers)?;
            Some(Shape {
                references,
                numbers,
            })
        }
        _ => None,
    }
}

/// The refusal whose number and words these are.
pub fn refusal_of(mut words: Words<'_>) -> Option<Refusal>
    ensures { result ≡ formed refusal_forms words.entry }
{
    let number = words.next_word()?;
    if is_word(number, b"1") {
        where_words(words, &["bad", "slot"], Refusal::BadSlot)
    } else if is_word(number, b"2") {
        where_words(words, &["null"], Refusal::Null)
    } else if is_word(number, b"3") {
        where_words(words, &["no", "field"], Refusal::NoField)
    } else if is_word(number, b"4") {
        where_words(words, &["too", "large"], Refusal::TooLarge)
    } else if is_word(number, b"5") {
        where_words(words, &["heap", "full"], Refusal::HeapFull)
    } else if is_word(number, b"6") {
        where_words(words, &["ended"], Refusal::Ended)
    } else if is_word(number, b"7") {
        where_words(
            words,
            &["too", "many", "sessions"],
            Refusal::TooManySessions,
        )
    } else {
        None
    }
}

/// The phase that a word is.
pub fn phase_of(word: &[u8]) -> Option<Phase>
    ensures { result ≡ phase_of word.now }
{
    if is_word(word, b"idle") {
        Some(Phase::Idle)
    } else if is_word(word, b"roots") {
        Some(Phase::Roots)
    } else if is_word(word, b"mark") {
        Some(Phase::Mark)
    } else if is_word(word, b"sweep") {
        Some(Phase::Sweep)
    } else if is_word(word, b"defrag") {
        Some(Phase::Defrag)
    } else {
        None
    }
}

/// The flag of a page that a word is.
pub fn flag_of(word: &[u8]) -> Option<bool>
    ensures { result ≡ flag_of word.now }
{
    if is_word(word, b"+") {
        Some(true)
    } else if is_word(word, b"-") {
        Some(false)
    } else {
        None
    }
}

/// The number that a word is, or none if it says so.
pub fn optional_of(word: &[u8]) -> Option<Option<u64>>
    ensures { result ≡ optional_of word.now }
{
    match number(word) {
        Some(number) => Some(Some(number)),
        None if is_word(word, b"none") => Some(None),
        None => None,
    }
}
