//! The line of a cycle. Its fields are at fixed places, since no word is ever left out.
ghost use Rattle.std.specs.{Prelude.{◌≡◌, ◌++◌, OnOk}, String.string_bytes};
ghost use Rattle.mh_tell_cycles.specs.Lines.{blocks_text, counts_text, head_text, line_text, spent_text, times_text};

use crate::tally::{DeedCounts, Units};
use crate::underway::BlockCounts;
use mh_model::memory::NoMemory;
use std::fmt::Write;

/// How a cycle ended.
#[derive(Clone, Copy)]
pub struct Ending {
    /// The number of the event whose quantum ended it, and the units of the run after that.
    pub event: u64,
    pub at: u128,
    pub blocks: BlockCounts,
}

/// What is written of a cycle.
#[derive(Clone, Copy)]
pub struct CycleLine {
    pub number: u128,
    pub is_asked: bool,
    /// The number of the event whose quantum started it, and the units of the run before that.
    pub first: u64,
    pub at: u128,
    pub quanta: u64,
    /// The most that one quantum spent.
    pub greatest: u64,
    pub mutator: u64,
    pub collector: u64,
    pub units: Units,
    pub counts: DeedCounts,
    /// The longest that the grey list was.
    pub grey: u128,
    pub before: BlockCounts,
    /// None of one that still runs.
    pub ending: Option<Ending>,
}

/// Adds when it ran.
fn push_times(
    text: &mut String,
    first: u64,
    at: u128,
    ending: Option<Ending>,
) -> Result<(), NoMemory>
    ensures { OnOk result (string_bytes text.new ≡ string_bytes text.old ++ times_text first at ending) }
{
    match ending {
        Some(ending) => write!(
            text,
            " events {first} {} at {at} {}",
            ending.event, ending.at
        )?,
        None => write!(text, " events {first} none at {at} none")?,
    }
    Ok(())
}

/// Adds which cycle it is, why it started, and when it ran.
fn push_head(text: &mut String, line: &CycleLine) -> Result<(), NoMemory>
    ensures { OnOk result (string_bytes text.new ≡ string_bytes text.old ++ head_text line.now) }
{
    let cause = if line.is_asked { "asked" } else { "trigger" };
    write!(text, "cycle {} cause {cause}", line.number)?;
    push_times(text, line.first, line.at, line.ending)
}

/// Adds what it spent.
fn push_spent(text: &mut String, line: &CycleLine) -> Result<(), NoMemory>
    ensures { OnOk result (string_bytes text.new ≡ string_bytes text.old ++ spent_text line.now) }
{
    let units = line.units;
    write!(
        text,
        " quanta {} greatest {} mutator {} collector {}",
        line.quanta, line.greatest, line.mutator, line.collector
    )?;
    write!(
        text,
        " roots {} mark {} sweep {} defrag {}",
        units.roots, units.mark, units.sweep, units.defrag
    )?;
    Ok(())
}

/// Adds what was marked, made, freed and moved.
fn push_counts(text: &mut String, counts: &DeedCounts, grey: u128) -> Result<(), NoMemory>
    ensures { OnOk result (string_bytes text.new ≡ string_bytes text.old ++ counts_text counts.now grey) }
{
    write!(
        text,
        " marked {} made {} opened {} shaded {} grey {grey}",
        counts.marked, counts.made, counts.opened, counts.shaded
    )?;
    write!(
        text,
        " freed {} dropped {} emptied {} sparse {} moved {} words {}",
        counts.freed, counts.dropped, counts.emptied, counts.sparse, counts.moved, counts.words
    )?;
    Ok(())
}

/// Adds what was in the heap before it and after it.
fn push_blocks(
    text: &mut String,
    before: BlockCounts,
    ending: Option<Ending>,
) -> Result<(), NoMemory>
    ensures { OnOk result (string_bytes text.new ≡ string_bytes text.old ++ blocks_text before ending) }
{
    match ending {
        Some(Ending { blocks: after, .. }) => write!(
            text,
            " free {} {} live {} {} old {} {}\n",
            before.free, after.free, before.live, after.live, before.old, after.old
        )?,
        None => write!(
            text,
            " free {} none live {} none old {} none\n",
            before.free, before.live, before.old
        )?,
    }
    Ok(())
}

/// Adds a line.
pub fn push_line(text: &mut String, line: &CycleLine) -> Result<(), NoMemory>
    ensures { OnOk result (string_bytes text.new ≡ string_bytes text.old ++ line_text line.now) }
{
    push_head(text, line)?;
    push_spent(text, line)?;
    push_counts(text, &line.counts, line.grey)?;
    push_blocks(text, line.before, line.ending)
}
