//! A run in so many pages: with which trigger it is looked at, and what is seen of it.
//!
//! The trigger is the first of five with which no reply is a full heap and the run has room, or else the first with
//! which no reply is a full heap.
ghost use Rattle.std.specs.Prelude.{◌≡◌, ◌≤◌, length, IfOk};
ghost use Rattle.mh_model.specs.Limits.{most_entries};
ghost use Rattle.mh_size_runs.specs.{Auxiliary.{IsLooked, is_roomless}, Rows.IsOutcome};

use crate::full::first_full;
use crate::seen::{HasRoom, Seen, seen_of};
use crate::tried::{TRIGGERS, heap_with, trigger_at};
use mh_model::command::Event;
use mh_model::config::Config;
use mh_model::memory::NoMemory;
use mh_scan::scan::Scanner;
use std::alloc::Global;

/// What looking at a run in so many pages came to.
#[derive(Clone, Copy, Debug, PartialEq, Eq)]
pub enum PagesOutcome {
    Fits { trigger: u32, seen: Seen },
    /// Some reply is a full heap with each of the triggers, to the event of this number at the latest.
    Full(u64),
}

/// What looking at a run in one heap came to.
#[derive(Clone, Copy)]
pub(crate) enum Looked {
    /// The first event that is answered by a full heap.
    Full(u64),
    Fits(Seen),
}

/// Whether there is no room, though a cycle has run.
fn is_roomless(room: HasRoom) -> bool
    ensures { result ≡ is_roomless room }
{
    matches!(room, HasRoom::No)
}

/// Looks at a run in one heap. Its replies are looked at first, since most runs that are full end early.
fn look<S: Scanner>(
    alloc: Global,
    heap: Config,
    events: &[Event],
    window: u64,
    scanner: &mut S,
) -> Result<Looked, NoMemory>
    requires { length events.now ≤ most_entries }
    ensures { IfOk result (IsLooked heap events.now window) }
{
    match first_full(alloc, heap, events, scanner)? {
        Some(event) => Ok(Looked::Full(event)),
        None => Ok(Looked::Fits(seen_of(alloc, heap, events, window, scanner)?)),
    }
}

/// Looks at a run in so many pages.
pub fn outcome_of<S: Scanner>(
    alloc: Global,
    config: &Config,
    events: &[Event],
    pages: u32,
    window: u64,
    scanner: &mut S,
) -> Result<PagesOutcome, NoMemory>
    requires few { length events.now ≤ most_entries }
    requires pages { (1 ≤ pages) × (pages ≤ 4096) }
    ensures { IfOk result (IsOutcome config.now events.now pages window) }
{
    let mut latest = 0;
    let mut first = None;
    for place in 0..TRIGGERS {
        let trigger = trigger_at(pages, place);
        match look(
            alloc,
            heap_with(config, pages, trigger),
            events,
            window,
            scanner,
        )? {
            Looked::Full(event) => latest = event.max(latest),
            Looked::Fits(seen) if is_roomless(seen.room) => {
                first = first.or(Some((trigger, seen)));
            }
            Looked::Fits(seen) => return Ok(PagesOutcome::Fits { trigger, seen }),
        }
    }
    match first {
        Some((trigger, seen)) => Ok(PagesOutcome::Fits { trigger, seen }),
        None => Ok(PagesOutcome::Full(latest)),
    }
}
