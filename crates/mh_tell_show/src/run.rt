//! Runs of scripts that are written as a page, exactly.
//!
//! Three constants draw it. After the first stand the names of sessions, the configuration, each event, and the
//! points of the curve of its trace. All that is said of `run_script` holds too. What a browser makes of the
//! constants no clause says.
ghost use Rattle.std.specs.{Prelude.{◌≡◌, ◌-◌, ◌≤◌, length, take, drop, IfOk}, String.string_bytes};
ghost use Rattle.mh_model.specs.Limits.{most_entries};
ghost use Rattle.mh_script.specs.{Promised.IsPromisedRun, Run.transcript};
ghost use Rattle.mh_tell_show.specs.Page.{ShowsReplies, events_asked, events_before, page_text, run_text};
ghost use Rattle.mh_tell_show.specs.Auxiliary.{joined_pieces};
ghost use Rattle.mh_text.specs.Devices.{IsWrite};

use crate::controls::CONTROLS;
use crate::drawing::DRAWING;
use crate::names::names_text;
use crate::numbers::part_text;
use crate::page::HEAD;
use mh_model::command::Event;
use mh_model::config::Config;
use mh_model::memory::NoMemory;
use mh_orders::range::RangeOptions;
use mh_promise::promise::replies_are_promised;
use mh_scan::scan::{OneScan, Scanner};
use mh_script::end::End;
use mh_script::fault::{ScriptFault, WriteError};
use mh_script::transcript::{Transcript, transcribe};
use mh_text::device::DeviceFailed;
use mh_text::sink::Sink;
use mh_text::source::Source;
use mh_text::stream::write_text;
use mh_window_curve::script::machine_after;
use std::alloc::Global;

/// How many events of a script are before these, and how many up to their last.
#[tactic(auto, using(crate::proofs::RunLemmas::asked_is))]
fn bounds(options: RangeOptions, events: &[Event]) -> (usize, usize)
    ensures before { result.0 ≡ length (events_before options events.now) }
    ensures order { result.0 ≤ result.1 }
    ensures within { result.1 ≤ length events.now }
    ensures asked { take (result.1 - result.0) (drop result.0 events.now) ≡ events_asked options events.now }
{
    let before = (options.from as usize).saturating_sub(1).min(events.len());
    (before, (options.to as usize).min(events.len()).max(before))
}

/// The numbers of these events of a run.
fn run_text(
    alloc: Global,
    options: RangeOptions,
    config: Config,
    events: &[Event],
) -> Result<String, NoMemory>
    requires { length events.now ≤ most_entries }
    ensures { IfOk result (λ text. string_bytes text ≡ run_text options config events.now) }
{
    let (before, end) = bounds(options, events);
    let mut scanner = OneScan::new(alloc);
    let mut machine = machine_after(alloc, config, &events[..before], &mut scanner)?;
    let asked = &events[before..end];
    part_text(alloc, config, events.len(), &mut machine, before, asked)
}

/// Writes these texts, each after the one before.
fn write_pieces<W: Sink>(sink: &mut W, pieces: &[&[u8]]) -> Result<(), DeviceFailed>
    ensures { IsWrite (W.device sink.old) (W.device sink.new) (joined_pieces pieces.now) result }
{
    for piece in pieces {
        let Ok(()) = write_text(sink, piece) else {
            return Err(DeviceFailed);
        };
    }
    Ok(())
}

/// A run of which these events are written as a page, which shows them in a browser.
#[derive(Clone, Copy, Debug, PartialEq, Eq)]
struct Shown {
    options: RangeOptions,
}

impl Transcript for Shown {
    ghost text_of = { λ shown. page_text shown.options };

    ghost becomes = { λ old config events new. Unit {0} };

    // Each block is a deed of its own, so no scanner is asked.
    fn write<C: Scanner, W: Sink>(
        &mut self,
        alloc: Global,
        script: &[u8],
        config: Config,
        events: &[Event],
        _scanner: &mut C,
        sink: &mut W,
    ) -> Result<(), WriteError> {
        let names = names_text(alloc, script)?;
        let numbers = run_text(alloc, self.options, config, events)?;
        let pieces = [
            HEAD,
            names.as_slice(),
            numbers.as_bytes(),
            DRAWING,
            CONTROLS,
        ];
        write_pieces(sink, &pieces)?;
        Ok(())
    }
}

/// Reads a whole script, and then writes the page of these events of its run under these rules. Of a script that is outside
/// the grammar it writes the one line that names the first bad line.
pub fn show_script<S: Source, W: Sink>(
    alloc: Global,
    source: &mut S,
    sink: &mut W,
    options: RangeOptions,
) -> Result<End, ScriptFault>
    ensures { IsPromisedRun (ShowsReplies options) options.rules (transcript (page_text options) options.rules) (S.device source.old) (S.device source.new) (W.device sink.old) (W.device sink.new) result }
{
    replies_are_promised();
    transcribe(
        alloc,
        &mut Shown { options },
        source,
        sink,
        options.rules,
        &mut OneScan::new(alloc),
    )
}
