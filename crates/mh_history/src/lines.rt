//! Histories entry by entry, of which none is kept: the entry that the next line is, or that it is bad.
//!
//! One at a time is in memory, also one whose reply is a dump of any length: 32 bytes for each of its items, which have
//! at least 6 bytes of text each. A legal dump has at most 266,240 items, which are 8.5 MB, so only a bad text has an
//! entry that takes more.
ghost use Rattle.std.specs.Prelude.{◌≡◌, ◌<◌, ℕ, List, [], drop, length, Option, IfOk, IfErr, IfSome, IfNone, OnErr, IsErrOf, IsSome};
ghost use Rattle.mh_model.specs.{Bytes.words, declared.history.Version.TheVariants.One};
ghost use Rattle.mh_model.specs.{HistoryTexts.{entry_of, measured_of}, Script.Means};
ghost use Rattle.mh_text.specs.TextErrors.{Refuses};
ghost use Rattle.mh_history.specs.Beginnings.{entries_left, entry_before, HasEntry, TakesEntry};

use crate::entry::{entry_in, measured_in};
use mh_model::history::{Entry, Measured};
use mh_model::memory::NoMemory;
use mh_text::pieces::Lines;
use mh_text::text_error::TextError;
use std::alloc::Global;
use thiserror::Error;

/// The first bad line of a text, counted from 1. Line 0 is that of a text that is too long.
#[derive(Clone, Copy, Debug, PartialEq, Eq, Error)]
#[error("bad line {0}")]
pub struct RefusedLine(pub u64);

impl From<RefusedLine> for TextError {
    ghost use Rattle.mh_text.specs.declared.text_error.TextError.TheVariants.{Line};

    ghost from_gives = { λ refused error. error ≡ Line refused.0 };

    fn from(refused: RefusedLine) -> TextError {
        TextError::Line(refused.0)
    }
}

/// What is read from one line each.
pub trait FromLine: Sized {
    // What a line is read as.
    ghost of_line: { List ℕ → Option Self };

    /// Reads a line, given without its end. None if it is bad.
    fn from_line(alloc: Global, line: &[u8]) -> Result<Option<Self>, NoMemory>
        ensures read { IfOk result (λ read. read ≡ of_line line.now) }
        ensures memory { OnErr result (IsSome (of_line line.now)) };
}

impl FromLine for Entry {
    ghost of_line = { λ line. entry_of One (words line) };

    fn from_line(alloc: Global, line: &[u8]) -> Result<Option<Entry>, NoMemory> {
        entry_in(alloc, line)
    }
}

impl FromLine for Measured {
    ghost of_line = { λ line. measured_of (words line) };

    fn from_line(alloc: Global, line: &[u8]) -> Result<Option<Measured>, NoMemory> {
        measured_in(alloc, line)
    }
}

/// Reads the next line of a history as an entry, none after the last. It takes memory for that entry alone.
#[tactic(auto, using(crate::proofs::LineLemmas::line_taken, crate::proofs::LineLemmas::entry_taken, crate::proofs::LineLemmas::line_bad, crate::proofs::LineLemmas::lines_end, crate::proofs::LineLemmas::rest_bad))]
pub fn next_entry<E: FromLine>(alloc: Global, lines: &mut Lines<'_>) -> Result<Option<E>, TextError>
    ensures entry { IfOk result (λ next. IfSome next (λ entry.
        entries_left E.of_line lines.old ≡ entry_before entry (entries_left E.of_line lines.new))) }
    ensures taken { IfOk result (λ next. IfSome next (TakesEntry E.of_line lines.old lines.new)) }
    ensures fewer { IfOk result (λ next. IfSome next (λ entry. length lines.new.lines < length lines.old.lines)) }
    ensures end { IfOk result (λ next. IfNone next (entries_left E.of_line lines.old ≡ Means [])) }
    ensures ended { IfOk result (λ next. IfNone next (lines.new ≡ lines.old)) }
    ensures line { IfErr result (Refuses (entries_left E.of_line lines.old)) }
    ensures passed { OnErr result (lines.new.lines ≡ drop 1 lines.old.lines) }
    ensures memory { IsErrOf result TextError.NoMemory → HasEntry E.of_line lines.old }
{
    let Some((number, line)) = lines.next_line() else {
        return if lines.is_empty() {
            Ok(None)
        } else {
            Err(TextError::Line(lines.number()))
        };
    };
    match E::from_line(alloc, line)? {
        Some(entry) => Ok(Some(entry)),
        None => Err(TextError::Line(number)),
    }
}

/// Reads the lines that are left, up to the first bad one.
pub(crate) fn entries_from<E: FromLine + Drop>(
    alloc: Global,
    mut lines: Lines<'_>,
) -> Result<Vec<E>, TextError>
    ensures entries { IfOk result (λ entries. entries_left E.of_line lines.entry ≡ Means entries.items) }
    ensures line { IfErr result (Refuses (entries_left E.of_line lines.entry)) }
    ensures memory { IsErrOf result TextError.NoMemory → HasEntry E.of_line lines.entry }
{
    let mut entries = Vec::new(alloc);
    while let Some(entry) = next_entry(alloc, &mut lines)? {
        entries.push(entry)?;
    }
    Ok(entries)
}
