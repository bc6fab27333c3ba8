//! What a run is written as, and the run of a whole script from its bytes on.
//!
//! What `run` says of replies holds of whatever a run is written as: `transcribe` reads the script, and a `Transcript`
//! writes what is made of its events.
//!
//! A source is read until it has given more bytes than a script may have, and no further. The text is then refused with
//! line 0 whatever comes after. The first 1,000,000 events are answered, as many as a history has entries. If more are
//! left, the run then ends with `history full`.
ghost use Rattle.std.specs.Prelude.{◌≡◌, ◌≤◌, List, length, take, OnOk};
ghost use Rattle.mh_model.specs.{declared.command.Event.Event, declared.config.Config.Config, Bytes.Text};
ghost use Rattle.mh_model.specs.{Configs.with_rules, Limits.most_entries, Script.Means};
ghost use Rattle.mh_script.specs.{Run.{IsTranscript, transcript_of}, Tasks.{IsDone, IsPerformed}, Texts.IsWriting};

use crate::end::{End, LineRefusal};
use crate::fault::{ScriptFault, WriteError};
use crate::texts::write_verdict;
use mh_model::command::Event;
use mh_model::config::{Config, Rules};
use mh_model::history::Verdict;
use mh_model::limits::MOST_ENTRIES;
use mh_scan::scan::Scanner;
use mh_text::device::DeviceFailed;
use mh_text::script::{SCRIPT_BYTES, Script, parse};
use mh_text::sink::Sink;
use mh_text::source::Source;
use mh_text::stream::read_text;
use mh_text::text_error::TextError;
use std::alloc::Global;

const MOST_ANSWERED: usize = MOST_ENTRIES as usize;

/// What a run is written as: its replies, its history, or its steps.
pub trait Transcript {
    // the text of a run of these events, which a script with this text has
    ghost text_of: { Self → Text → Config → List Event → Text };

    // what it was, and what it is once it has written the text of a run of these events
    ghost becomes: { Self → Config → List Event → Self → Type 0 };

    /// Does the events of a script from the first machine on, and writes the text of that run.
    fn write<C: Scanner, W: Sink>(
        &mut self,
        alloc: Global,
        script: &[u8],
        config: Config,
        events: &[Event],
        scanner: &mut C,
        sink: &mut W,
    ) -> Result<(), WriteError>
        requires short { length script.now ≤ SCRIPT_BYTES }
        requires few { length events.now ≤ most_entries }
        ensures becomes { OnOk result (becomes self.old config events.now self.new) }
        ensures written { IsWriting (W.device sink.old) (W.device sink.new) (text_of self.old script.now config events.now) result };
}

/// The events that are answered.
#[tactic(auto, using(crate::proofs::RunLemmas::take_min, crate::proofs::RunLemmas::front_is_few), unfolding(mh_model::specs::Limits::most_entries))]
fn answered(events: &[Event]) -> &[Event]
    ensures events { result.now ≡ take most_entries events.now }
    ensures few { length result.now ≤ most_entries }
{
    &events[..events.len().min(MOST_ANSWERED)]
}

/// Answers the events of a script under these rules, as far as a history has room.
fn write_answers<T: Transcript, C: Scanner, W: Sink>(
    alloc: Global,
    form: &mut T,
    text: &[u8],
    script: &Script,
    rules: Rules,
    scanner: &mut C,
    sink: &mut W,
) -> Result<(), WriteError>
    requires short { length text.now ≤ SCRIPT_BYTES }
    ensures becomes { OnOk result (T.becomes form.old (with_rules rules script.now.config) (take most_entries script.now.events) form.new) }
    ensures written { IsWriting (W.device sink.old) (W.device sink.new) (transcript_of (T.text_of form.old text.now) rules (Means script.now)) result }
{
    let config = script.config().with_rules(rules);
    let events = answered(script.events());
    form.write(alloc, text, config, events, scanner, sink)
}

/// Writes the transcript of the run of a text, or the one line that names its first bad line.
// The loop over events is built into whoever reads the text, where its values stay in registers.
#[inline(always)]
fn write_transcript<T: Transcript, C: Scanner, W: Sink>(
    alloc: Global,
    form: &mut T,
    text: &[u8],
    rules: Rules,
    scanner: &mut C,
    sink: &mut W,
) -> Result<End, ScriptFault>
    ensures { IsPerformed (IsTranscript (T.text_of form.old) rules (λ config events. T.becomes form.old config events form.new)) (W.device sink.old) (W.device sink.new) result text.now }
{
    match parse(alloc, text) {
        Ok(script) => match write_answers(alloc, form, text, &script, rules, scanner, sink) {
            Ok(()) if script.events().len() > MOST_ANSWERED => Err(ScriptFault::HistoryFull),
            Ok(()) => Ok(End::Done),
            Err(WriteError::Device) => Err(ScriptFault::Write),
            Err(WriteError::NoMemory) => Err(ScriptFault::NoMemory),
        },
        Err(TextError::Line(line)) => match write_verdict(Verdict::Refused(line), sink) {
            Ok(()) => Ok(End::Refused(LineRefusal::of(text, line))),
            Err(DeviceFailed) => Err(ScriptFault::Write),
        },
        Err(TextError::NoMemory) => Err(ScriptFault::NoMemory),
    }
}

/// Reads a whole script, and then writes the transcript of its run under these rules. Of a script that is outside the grammar
/// it writes the one line that names the first bad line. The scanner doesn't change what is written.
pub fn transcribe<T: Transcript, C: Scanner, S: Source, W: Sink>(
    alloc: Global,
    form: &mut T,
    source: &mut S,
    sink: &mut W,
    rules: Rules,
    scanner: &mut C,
) -> Result<End, ScriptFault>
    ensures { IsDone (IsTranscript (T.text_of form.old) rules (λ config events. T.becomes form.old config events form.new)) SCRIPT_BYTES (S.device source.old) (S.device source.new) (W.device sink.old) (W.device sink.new) result }
{
    let text = read_text(alloc, source, SCRIPT_BYTES)?;
    write_transcript(alloc, form, text.as_slice(), rules, scanner, sink)
}
