//! Commands of threads with their times, each read from its line.
//!
//! A line is `BEGIN END sN COMMAND = REPLY`. What follows the times is an entry of a history, of a session. The unit of
//! the times is any: only their order counts.
ghost use Rattle.std.specs.Prelude.{◌≡◌, ◌∷◌, ℕ, List, IfOk, IfSome, IfNone, OnErr, IsSome};
ghost use Rattle.mh_judge_log.specs.{Beginnings.{HasTimes, begins_with_star}, Logs.{is_of, timed_of}};
ghost use Rattle.mh_model.specs.Bytes.{Text, words};

use mh_history::lines::FromLine;
use mh_model::command::Event;
use mh_model::history::Entry;
use mh_model::memory::NoMemory;
use mh_text::pieces::{Words, split_at_byte};
use mh_text::word::{is_word, number};
use std::alloc::Global;

/// A command of a session with its reply, and the times of its beginning and its end.
#[derive(Debug, Drop)]
pub struct Timed {
    pub begin: u64,
    pub end: u64,
    pub entry: Entry,
}

impl Timed {
    /// Whether it is a command of the session with a number.
    pub fn is_of(&self, who: u8) -> bool
        ensures { result ≡ is_of who self.now }
    {
        match self.entry.event {
            Event::Session(other, _) => other == who,
            Event::Control(_) => false,
        }
    }
}

/// The times that a line begins with, and what follows them.
#[tactic(auto, using(crate::proofs::TimedLemmas::words_split, crate::proofs::TimedLemmas::words_whole, crate::proofs::TimedLemmas::one_word, crate::proofs::TimedLemmas::two_words, crate::proofs::TimedLemmas::no_begin, crate::proofs::TimedLemmas::no_end))]
pub(crate) fn times_of(line: &[u8]) -> Option<(u64, u64, &[u8])>
    ensures some { IfSome result (λ found. HasTimes (words line.now) found.0 found.1 (words found.2.now)) }
    ensures none { IfNone result ((begin end : ℕ) (word : Text) (more : List Text) → ¬ HasTimes (words line.now) begin end (word ∷ more)) }
{
    let (begin, rest) = split_at_byte(line, b' ')?;
    let (end, rest) = split_at_byte(rest, b' ')?;
    Some((number(begin)?, number(end)?, rest))
}

/// Whether the first of words is `*`, with which an entry of a control begins.
pub(crate) fn is_of_control(mut words: Words<'_>) -> bool
    ensures { result ≡ begins_with_star words.entry }
{
    match words.next_word() {
        Some(word) => is_word(word, b"*"),
        None => false,
    }
}

/// The command that a line is.
#[tactic(auto, using(crate::proofs::TimedLemmas::backwards, crate::proofs::TimedLemmas::of_control, crate::proofs::TimedLemmas::no_entry, crate::proofs::TimedLemmas::some_entry, crate::proofs::TimedLemmas::entry_memory))]
pub(crate) fn timed_in(alloc: Global, line: &[u8]) -> Result<Option<Timed>, NoMemory>
    ensures read { IfOk result (λ read. read ≡ timed_of (words line.now)) }
    ensures memory { OnErr result (IsSome (timed_of (words line.now))) }
{
    let Some((begin, end, rest)) = times_of(line) else {
        return Ok(None);
    };
    if begin > end || is_of_control(Words::new(rest)) {
        return Ok(None);
    }
    match Entry::from_line(alloc, rest)? {
        Some(entry) => Ok(Some(Timed { begin, end, entry })),
        None => Ok(None),
    }
}
