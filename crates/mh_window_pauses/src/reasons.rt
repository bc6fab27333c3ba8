//! Why a log of pauses is refused at its first bad line. The reason is true of that line. It takes no memory.
//!
//! Of several reasons the first in a fixed order is given: a comment, the bytes, then the words from left to right. A
//! text that begins as a history or a script is named as such.
ghost use Rattle.std.specs.Prelude.{◌≡◌, [], ◌∷◌, List, ℕ, None, false};
ghost use Rattle.mh_model.specs.{Bytes.number, Script.BadLine};
ghost use Rattle.mh_window_pauses.specs.Logs.{line_as_pause, pause_reading};
ghost use Rattle.mh_window_pauses.specs.Reasons.{IsCountReason, IsLineReason, IsPauseReason, IsWordsReason, is_unit};

use crate::reason::PauseReason;
use mh_history::record::RECORD_BYTES;
use mh_reasons::byte_fault::{byte_fault, has_pair};
use mh_reasons::line::{first_word, history_version};
use mh_reasons::number_fault::number_fault;
use mh_reasons::quoted::quote;
use mh_text::line::is_blank;
use mh_text::pieces::{Lines, Words};
use mh_text::word::is_word;

/// Whether a run begins with this word.
fn is_unit(word: &[u8]) -> bool
    ensures { result ≡ is_unit word.now }
{
    is_word(word, b"mutator") || is_word(word, b"collector")
}

/// What is wrong with the words after that.
fn count_reason(mut words: Words<'_>) -> PauseReason
    requires { (count : List ℕ) → words ≡ count ∷ [] → number count ≡ None }
    ensures { IsCountReason words.entry result }
{
    let Some(count) = words.next_word() else {
        return PauseReason::NotRun;
    };
    if words.next_word().is_some() {
        return PauseReason::NotRun;
    }
    match number_fault(count, u64::MAX) {
        Some(fault) => PauseReason::Number(fault),
        None => unreachable!(),
    }
}

/// What is wrong with words that begin with another.
fn word_reason(number: u64, begun: bool, first: &[u8], words: Words<'_>) -> PauseReason
    requires { is_unit first.now ≡ false }
    ensures { IsWordsReason number begun (first.now ∷ words.entry) result }
{
    if number == 1 {
        if let Some(version) = history_version(first, words) {
            return PauseReason::History(version);
        }
    }
    if !begun && is_word(first, b"config") {
        return PauseReason::Script;
    }
    PauseReason::UnknownWord(quote(first))
}

/// What is wrong with a line that is neither blank nor a run. Before it a line that isn't blank has begun the text, or
/// none has.
#[tactic(auto, using(crate::proofs::ReasonLemmas::no_number, crate::proofs::ReasonLemmas::of_count, crate::proofs::ReasonLemmas::of_words))]
fn line_reason(number: u64, begun: bool, line: &[u8]) -> PauseReason
    requires { line_as_pause line.now ≡ None }
    ensures { IsLineReason number begun line.now result }
{
    if has_pair(line, b' ', b'#') {
        return PauseReason::Comment;
    }
    if let Some(fault) = byte_fault(line) {
        return PauseReason::Bytes(fault);
    }
    let (first, words) = first_word(line);
    if is_unit(first) {
        count_reason(words)
    } else {
        word_reason(number, begun, first, words)
    }
}

/// Why a log is refused with this line, its first bad one.
pub fn pause_reason(text: &[u8], line: u64) -> PauseReason
    requires { pause_reading text.now ≡ BadLine line }
    ensures { IsPauseReason text.now line result }
{
    if text.len() > RECORD_BYTES {
        return PauseReason::TooLong;
    }
    if text.is_empty() {
        return PauseReason::Empty;
    }
    if line == 0 {
        return PauseReason::TooManyUnits;
    }
    let mut lines = Lines::new(text);
    let mut begun = false;
    while let Some((number, bytes)) = lines.next_line() {
        if number == line {
            return line_reason(number, begun, bytes);
        }
        begun = begun || !is_blank(bytes);
    }
    PauseReason::NoNewline
}
