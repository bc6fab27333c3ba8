//! Runs of scripts that are written as Chrome trace events, exactly.
//!
//! The file is one object of JSON with an event a line. Cycles, their phases, quanta and counters are those of the whole
//! run; commands, controls and steps those of the events that are asked for. All that is said of `run_script` holds too.
//!
//! - A block's life has no arrows: in a run of 20,000 events there would be 8,000.
//! - Controls are instants on a thread of their own, since a viewer takes them for slices. One that runs a quantum stands
//!   before it.
//! - A cycle that still runs at the end ends with the trace, and so does its phase.
//! - Sessions are named by their numbers, as in histories.
ghost use Rattle.std.specs.{Prelude.{◌≡◌, ◌++◌, IfOk, OnOk}, String.string_bytes};
ghost use Rattle.mh_script.specs.{Promised.IsPromisedRun, Run.transcript};
ghost use Rattle.mh_model.specs.Machine.{first_machine};
ghost use Rattle.mh_tell_steps.specs.Figures.{counts_of};
ghost use Rattle.mh_tell_chrome.specs.Runs.{DrawsReplies, Scene, chrome_text, chrome_told, first_scene, head_text, is_told, open_ends, scene_of};
ghost use Rattle.mh_tell_chrome.specs.TraceEvents.{next_texts};

use crate::counters::{push_all_counters, push_counters};
use crate::course::Slices;
use crate::event::{CONTROLS, push_ran, push_told};
use crate::quantum::{CYCLES, QUANTA};
use crate::trace_event::{push_end, push_thread};
use mh_deeds::account::Account;
use mh_machine::machine::Machine;
use mh_model::command::Event;
use mh_model::config::Config;
use mh_model::history::Entry;
use mh_model::memory::NoMemory;
use mh_orders::range::RangeOptions;
use mh_promise::promise::replies_are_promised;
use mh_scan::scan::{OneScan, Scanner};
use mh_script::end::End;
use mh_script::fault::ScriptFault;
use mh_script::lines::{ByLines, Lines};
use mh_script::transcript::transcribe;
use mh_tell_steps::figures::{EventSpan, heap_counts, trace_units};
use mh_tell_steps::run::answer_told;
use mh_text::sink::Sink;
use mh_text::source::Source;
use std::alloc::Global;

/// What a run has drawn so far: the slices that are open, and the sessions that have a thread. The account is that of the
/// last event.
#[derive(Drop)]
struct Drawn {
    slices: Slices,
    seen: Vec<u8>,
    account: Account,
}

/// Whether the event of this number is asked for.
fn is_told(options: RangeOptions, number: u64) -> bool
    ensures { result ≡ is_told options number }
{
    u64::from(options.from) <= number && number <= u64::from(options.to)
}

/// What stands before the first event: the names of the process and of three threads, and what is in the heap.
fn head_text(alloc: Global, machine: &Machine) -> Result<Vec<u8>, NoMemory>
    ensures { IfOk result (λ text. text.items ≡ head_text (counts_of machine.now.machine.heap.collector)) }
{
    let mut text = String::new(alloc);
    text.push_str("{\"displayTimeUnit\":\"ns\",\"traceEvents\":[\n")?;
    text.push_str(
        "{\"ph\":\"M\",\"pid\":1,\"name\":\"process_name\",\"args\":{\"name\":\"metroheap\"}}",
    )?;
    push_thread(&mut text, CYCLES, "cycles")?;
    push_thread(&mut text, QUANTA, "quanta")?;
    push_thread(&mut text, CONTROLS, "controls")?;
    push_all_counters(&mut text, 0, heap_counts(machine))?;
    Ok(text.into_bytes())
}

/// Adds the ends of a cycle that still runs, and of its phase.
#[tactic(auto, using(crate::proofs::TextLemmas::next_texts_append))]
fn push_open_ends(text: &mut String, now: u128, slices: Slices) -> Result<(), NoMemory>
    ensures { OnOk result (string_bytes text.new ≡ string_bytes text.old ++ next_texts (open_ends now slices)) }
{
    if slices.phase.is_some() {
        push_end(text, now, CYCLES)?;
    }
    if slices.cycle {
        push_end(text, now, CYCLES)?;
    }
    Ok(())
}

/// A run that is written as trace events.
#[derive(Clone, Copy)]
struct Chrome {
    options: RangeOptions,
}

impl Lines for Chrome {
    type Kept = Drawn;

    ghost State = { Scene };

    ghost state = { λ chrome drawn running. scene_of running drawn };

    ghost holds = { λ chrome scene. Unit {0} };

    ghost first = { λ chrome. first_scene };

    ghost head = { λ chrome script config. head_text (counts_of (first_machine config).heap.collector) };

    ghost told = { λ chrome. chrome_told chrome.options };

    ghost text_of = { λ chrome. chrome_text chrome.options };

    fn head_bytes(
        self,
        alloc: Global,
        _script: &[u8],
        _config: Config,
        machine: &Machine,
    ) -> Result<Vec<u8>, NoMemory> {
        head_text(alloc, machine)
    }

    fn begin(self, alloc: Global, _config: Config, _machine: &Machine) -> Drawn {
        Drawn {
            slices: Slices {
                cycle: false,
                phase: None,
            },
            seen: Vec::new(alloc),
            account: Account::new(alloc),
        }
    }

    // Each block is a deed of its own, so no scanner is asked.
    #[tactic(auto, using(crate::proofs::TextLemmas::next_texts_append), unfolding(mh_model::specs::Limits::most_entries))]
    fn add<C: Scanner>(
        self,
        drawn: &mut Drawn,
        machine: &mut Machine,
        event: Event,
        _scanner: &mut C,
        text: &mut String,
    ) -> Result<(), NoMemory> {
        let number = machine.done() + 1;
        let told = is_told(self.options, number);
        let at = trace_units(machine);
        let before = machine.trace().mutator_count();
        let shown = heap_counts(machine);
        let reply = answer_told(machine, event, &mut drawn.account)?;
        let moment = EventSpan {
            number,
            at,
            mutator: machine.trace().mutator_count().saturating_sub(before),
        };
        let entry = Entry { event, reply };
        let deeds = drawn.account.command.deeds();
        push_told(text, told, &mut drawn.seen, moment, &entry, deeds)?;
        let course = push_ran(text, told, moment, drawn.slices, shown, &drawn.account)?;
        drawn.slices = course.slices;
        push_counters(
            text,
            trace_units(machine),
            course.shown,
            heap_counts(machine),
        )?;
        Ok(())
    }

    // A cycle that still runs ends with the trace, and so does its phase.
    fn finish(self, drawn: &Drawn, machine: &Machine, text: &mut String) -> Result<(), NoMemory> {
        push_open_ends(text, trace_units(machine), drawn.slices)?;
        text.push_str("\n]}\n")?;
        Ok(())
    }
}

/// Reads a whole script, and then writes its run as trace events, under the rules of the options. Of a script that is
/// outside the grammar it writes the one line that names the first bad line.
pub fn chrome_script<S: Source, W: Sink>(
    alloc: Global,
    source: &mut S,
    sink: &mut W,
    options: RangeOptions,
) -> Result<End, ScriptFault>
    ensures { IsPromisedRun (DrawsReplies options) options.rules (transcript (chrome_text options) options.rules) (S.device source.old) (S.device source.new) (W.device sink.old) (W.device sink.new) result }
{
    replies_are_promised();
    transcribe(
        alloc,
        &mut ByLines(Chrome { options }),
        source,
        sink,
        options.rules,
        &mut OneScan::new(alloc),
    )
}
