//! Scripts that are read from a source, and what is written of their sizes.
//!
//! A script is refused as by a run, with its reason. One of more than 1,000,000 events ends as a full history, after
//! the sizes of the first 1,000,000 were written. Nothing is written if memory is refused or the source fails, and a
//! prefix if the sink fails. A device failed exactly when it is blamed.
ghost use Rattle.std.specs.{Prelude.{◌≡◌, ◌≤◌, length, take, IfOk}, String.string_bytes};
ghost use Rattle.mh_model.specs.{Bytes.Text, Limits.most_entries, Script.{Means, reading}};
ghost use Rattle.mh_script.specs.Tasks.{IsPerformed};
ghost use Rattle.mh_size_text.specs.Scripts.{IsSizeText, IsSized, IsSizing, IsTextOfRun, window_of};
ghost use Rattle.mh_size_text.specs.Auxiliary.{ended_with};

use crate::end::SizeEnd;
use crate::lines::{is_short, push_heaps, push_live, push_script, session_count};
use crate::progress::Progress;
use crate::sizes::{Heaps, Run, sizes_of};
use mh_model::command::Event;
use mh_model::config::Config;
use mh_model::history::Verdict;
use mh_model::limits::MOST_ENTRIES;
use mh_model::memory::NoMemory;
use mh_orders::order::SizeOptions;
use mh_script::end::LineRefusal;
use mh_script::fault::ScriptFault;
use mh_script::texts::write_verdict;
use mh_text::device::DeviceFailed;
use mh_text::script::{SCRIPT_BYTES, Script, parse};
use mh_text::sink::Sink;
use mh_text::source::Source;
use mh_text::stream::{read_text, write_text};
use mh_text::text_error::TextError;
use std::alloc::Global;

const MOST_ANSWERED: usize = MOST_ENTRIES as usize;

/// The events that a run answers.
#[tactic(auto, using(mh_script::proofs::RunLemmas::take_min), unfolding(mh_model::specs::Limits::most_entries))]
fn answered(events: &[Event]) -> &[Event]
    ensures { result.now ≡ take most_entries events.now }
{
    &events[..events.len().min(MOST_ANSWERED)]
}

/// The length of the windows.
fn window_of(options: &SizeOptions, config: &Config) -> u64
    ensures { result ≡ window_of options.now config.now }
{
    match options.window {
        Some(window) => window,
        None => 10 * (u64::from(config.every) + u64::from(config.quantum)),
    }
}

/// A text of sizes, and whether some pages suffice.
#[derive(Drop)]
struct RunText {
    text: String,
    is_found: bool,
}

/// What is written of a run.
fn run_text<P: Progress>(
    alloc: Global,
    run: &Run<'_>,
    progress: &mut P,
) -> Result<RunText, NoMemory>
    requires { length run.now.events.now ≤ most_entries }
    ensures { IfOk result (λ made. IsTextOfRun run.now.config run.now.events.now run.now.window (string_bytes made.text) made.is_found) }
{
    let sizes = sizes_of(alloc, run, progress)?;
    let mut text = String::new(alloc);
    let sessions = session_count(run.events);
    push_script(
        &mut text,
        &run.config,
        run.events.len(),
        sessions,
        &sizes.live,
    )?;
    push_live(&mut text, sizes.live.quarters, is_short(&sizes.heaps))?;
    push_heaps(&mut text, &sizes.heaps)?;
    let is_found = matches!(sizes.heaps, Heaps::Found(..));
    Ok(RunText { text, is_found })
}

/// What is written of a script.
fn script_text<P: Progress>(
    alloc: Global,
    script: &Script,
    options: &SizeOptions,
    progress: &mut P,
) -> Result<RunText, NoMemory>
    ensures { IfOk result (λ made. IsSizeText options.now made.is_found (Means script.now) (string_bytes made.text)) }
{
    let config = script.config().with_rules(options.rules);
    let run = Run {
        config,
        events: answered(script.events()),
        window: window_of(options, &config),
    };
    run_text(alloc, &run, progress)
}

/// How a sizing ended that was written.
fn ended(is_found: bool) -> SizeEnd
    ensures { result ≡ ended_with is_found }
{
    if is_found {
        SizeEnd::Sized
    } else {
        SizeEnd::NoSize
    }
}

/// Sizes a script, and then writes that.
fn write_size<P: Progress, W: Sink>(
    alloc: Global,
    script: &Script,
    options: &SizeOptions,
    progress: &mut P,
    sink: &mut W,
) -> Result<SizeEnd, ScriptFault>
    ensures { (text : Text) → reading text ≡ Means script.now → IsPerformed (IsSized options.now) (W.device sink.old) (W.device sink.new) result text }
{
    let RunText { text, is_found } = script_text(alloc, script, options, progress)?;
    match write_text(sink, text.as_bytes()) {
        Ok(()) if script.events().len() > MOST_ANSWERED => Err(ScriptFault::HistoryFull),
        Ok(()) => Ok(ended(is_found)),
        Err(DeviceFailed) => Err(ScriptFault::Write),
    }
}

/// Writes the sizes of a text, or the one line that names its first bad line.
fn write_sizes<P: Progress, W: Sink>(
    alloc: Global,
    text: &[u8],
    options: &SizeOptions,
    progress: &mut P,
    sink: &mut W,
) -> Result<SizeEnd, ScriptFault>
    ensures { IsPerformed (IsSized options.now) (W.device sink.old) (W.device sink.new) result text.now }
{
    match parse(alloc, text) {
        Ok(script) => write_size(alloc, &script, options, progress, sink),
        Err(TextError::Line(line)) => match write_verdict(Verdict::Refused(line), sink) {
            Ok(()) => Ok(SizeEnd::Refused(LineRefusal::of(text, line))),
            Err(DeviceFailed) => Err(ScriptFault::Write),
        },
        Err(TextError::NoMemory) => Err(ScriptFault::NoMemory),
    }
}

/// Reads a whole script, and then writes the sizes of its run under the rules of the options. Of a script that is outside
/// the grammar it writes the one line that names the first bad line. The whole text is made before its first byte is
/// written. `progress` hears what is looked at.
pub fn size_script<S: Source, W: Sink, P: Progress>(
    alloc: Global,
    source: &mut S,
    sink: &mut W,
    options: &SizeOptions,
    progress: &mut P,
) -> Result<SizeEnd, ScriptFault>
    ensures { IsSizing options.now (S.device source.old) (S.device source.new) (W.device sink.old) (W.device sink.new) result }
{
    let text = read_text(alloc, source, SCRIPT_BYTES)?;
    write_sizes(alloc, text.as_slice(), options, progress, sink)
}
