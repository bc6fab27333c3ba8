//! Lines of a log of pauses: how long the mutator ran, or the collector.
ghost use Rattle.std.specs.Prelude.{◌≡◌, List, ℕ};
ghost use Rattle.mh_model.specs.Bytes.{words};
ghost use Rattle.mh_window_pauses.specs.Logs.{line_as_pause, run_of};

use mh_history::lines::FromLine;
use mh_model::memory::NoMemory;
use mh_report::segment::Unit;
use mh_text::pieces::Words;
use mh_text::word::{is_word, number};
use std::alloc::Global;

/// What a line of a log means.
#[derive(Clone, Copy, Debug, PartialEq, Eq, Drop)]
pub enum PauseLine {
    /// Nothing: it is empty, or a comment.
    Blank,
    /// The mutator or the collector ran for so many units.
    Run(Unit, u64),
}

/// The run that the words of a line are.
fn run_in(mut words: Words<'_>) -> Option<PauseLine>
    ensures { result ≡ run_of words.entry }
{
    let unit = words.next_word()?;
    let count = words.next_word()?;
    if words.next_word().is_some() {
        return None;
    }
    if is_word(unit, b"mutator") {
        return Some(PauseLine::Run(Unit::Mutator, number(count)?));
    }
    if is_word(unit, b"collector") {
        return Some(PauseLine::Run(Unit::Collector, number(count)?));
    }
    None
}

/// What a line means, none if it is bad.
fn pause_in(line: &[u8]) -> Option<PauseLine>
    ensures { result ≡ line_as_pause line.now }
{
    match line {
        [] | [b'#', ..] => Some(PauseLine::Blank),
        _ => run_in(Words::new(line)),
    }
}

impl FromLine for PauseLine {
    ghost of_line = { line_as_pause };

    fn from_line(_alloc: Global, line: &[u8]) -> Result<Option<PauseLine>, NoMemory> {
        Ok(pause_in(line))
    }
}
