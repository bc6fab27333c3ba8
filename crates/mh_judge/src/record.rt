//! Histories that are replayed, and written as records of version 2.
//!
//! A record has the machine's replies and units for the events of a history. Its own replies aren't looked at; in a legal
//! one they are the same. A line waits only until the buffer is full. So a record takes no more memory than the replies
//! of a run do. Whatever ends a call early leaves a prefix of the record.
ghost use Rattle.std.specs.Prelude.{◌≤◌, length};
ghost use Rattle.mh_model.specs.{HistoryTexts.{migrated, recorded_text}, Limits.most_entries};
ghost use Rattle.mh_script.specs.{Histories.history_run, Texts.IsWriting};

use crate::events::{Events, OfEntries};
use mh_machine::machine::Machine;
use mh_model::config::Config;
use mh_model::history::Entry;
use mh_scan::scan::OneScan;
use mh_script::fault::WriteError;
use mh_script::history::{History, header};
use mh_script::lines::Lines;
use mh_script::texts::{flush, flush_full};
use mh_text::sink::Sink;
use std::alloc::Global;

/// Does events from the first machine on, and writes each with its reply and its units as a history of version 2.
pub(crate) fn write_events<E: Events, W: Sink>(
    alloc: Global,
    config: Config,
    mut events: E,
    sink: &mut W,
) -> Result<(), WriteError>
    requires sound { E.sound events }
    requires few { length (E.left events) ≤ most_entries }
    ensures { IsWriting (W.device sink.old) (W.device sink.new) (history_run config (E.left events)) result }
{
    let mut machine = Machine::open(alloc, config)?;
    let mut text = header(alloc, config)?;
    let mut scanner = OneScan::new(alloc);
    while let Some(event) = events.next_event()? {
        History.add(&mut (), &mut machine, event, &mut scanner, &mut text)?;
        flush_full(sink, &mut text)?;
    }
    flush(sink, &mut text)?;
    Ok(())
}

/// Replays the events of a history from the first machine on, and writes each with its reply and its units as a history of
/// version 2.
pub fn write_record<W: Sink>(
    alloc: Global,
    config: Config,
    entries: &[Entry],
    sink: &mut W,
) -> Result<(), WriteError>
    requires { length entries.now ≤ most_entries }
    ensures { IsWriting (W.device sink.old) (W.device sink.new) (recorded_text (migrated config entries.now)) result }
{
    write_events(alloc, config, OfEntries { entries }, sink)
}
