//! Runs of scripts that are written as their histories.
//!
//! The replies in what was written are those of an outcome that keeps the promise, as those of `run_script`.
//!
//! A run that ends well has written its history in the second version and nothing else, or the line that refuses the
//! script. That history is legal if it isn't too long. Whatever ends the run early leaves a prefix of it. The number
//! of workers changes nothing of this. All else that is said of `run_script` holds too.
//!
//! The history is written line by line, as the script runs, like its replies. So it takes no more memory than they
//! do. The units of an event are read off the counts of the trace, before it and after it.
ghost use Rattle.std.specs.{Prelude.{◌≡◌, ◌<◌, ◌≤◌, suc, IfOk, OnOk}, String.string_bytes};
ghost use Rattle.mh_model.specs.{HistoryTexts.measured_step, Limits.most_entries, Machine.{event_step, first_machine}};
ghost use Rattle.mh_script.specs.Histories.{IsHistoryRun, header, history_run, record_told};
ghost use Rattle.mh_model.specs.Machine as model;

use crate::end::End;
use crate::fault::ScriptFault;
use crate::lines::{ByLines, Lines};
use crate::transcript::transcribe;
use mh_history::entry_text::HeaderText;
use mh_history::measured_line::push_measured_line;
use mh_machine::machine::Machine;
use mh_model::command::Event;
use mh_model::config::{Config, Rules};
use mh_model::history::{Entry, Measured};
use mh_model::memory::NoMemory;
use mh_promise::promise::replies_are_promised;
use mh_scan::crew_scan::{CrewGate, CrewScan};
use mh_scan::scan::Scanner;
use mh_text::sink::Sink;
use mh_text::source::Source;
use mh_text_laws::run_histories::run_histories_are_legal;
use std::alloc::Global;
use std::fmt::Write;
use std::thread::Threads;

/// The first line of a history.
pub fn header(alloc: Global, config: Config) -> Result<String, NoMemory>
    ensures { IfOk result (λ text. string_bytes text ≡ header config) }
{
    let mut text = String::new(alloc);
    let line = HeaderText(config);
    writeln!(text, "{line}")?;
    Ok(text)
}

/// Does an event, and gives the entry that a history has of it.
pub fn measure<C: Scanner>(
    machine: &mut Machine,
    event: Event,
    scanner: &mut C,
) -> Result<Measured, NoMemory>
    requires { machine.old.done < most_entries }
    ensures entry { IfOk result (λ measured. measured ≡ measured_step machine.old.machine event (event_step machine.old.machine event)) }
    ensures machine { OnOk result (machine.new.machine ≡ (event_step machine.old.machine event).state) }
    ensures done { OnOk result (machine.new.done ≡ suc machine.old.done) }
{
    let mutator = machine.trace().mutator_count();
    let collector = machine.trace().collector_count();
    let reply = machine.step_in_room(event, scanner)?;
    let trace = machine.trace();
    Ok(Measured {
        entry: Entry { event, reply },
        mutator: trace.mutator_count().saturating_sub(mutator),
        collector: trace.collector_count().saturating_sub(collector),
    })
}

/// A line for each event with its reply and its units, below the line of the configuration.
#[derive(Clone, Copy)]
pub struct History;

impl Lines for History {
    type Kept = ();

    ghost State = { model.Machine };

    ghost state = { λ form kept running. running.machine };

    ghost holds = { λ form state. Unit {0} };

    ghost first = { λ form config. first_machine config };

    ghost head = { λ form script config. header config };

    ghost told = { λ form. record_told (λ event. event) };

    ghost text_of = { λ form script config events. history_run config events };

    fn head_bytes(
        self,
        alloc: Global,
        _script: &[u8],
        config: Config,
        _machine: &Machine,
    ) -> Result<Vec<u8>, NoMemory> {
        Ok(header(alloc, config)?.into_bytes())
    }

    fn begin(self, _alloc: Global, _config: Config, _machine: &Machine) {}

    fn add<C: Scanner>(
        self,
        _kept: &mut (),
        machine: &mut Machine,
        event: Event,
        scanner: &mut C,
        text: &mut String,
    ) -> Result<(), NoMemory> {
        let measured = measure(machine, event, scanner)?;
        push_measured_line(text, &measured)
    }

    fn finish(self, _kept: &(), _machine: &Machine, _text: &mut String) -> Result<(), NoMemory> {
        Ok(())
    }
}

/// Reads a whole script, and then writes the history of its run under these rules, of version 2. Of a script that is outside
/// the grammar it writes the one line that names the first bad line. At most `workers` threads scan at a time, the calling
/// one among them. Neither their number nor the hook changes what is written.
pub fn run_history<R: Threads, S: Source, W: Sink, G: CrewGate>(
    rt: &R,
    alloc: Global,
    source: &mut S,
    sink: &mut W,
    workers: usize,
    rules: Rules,
    gate: &G,
) -> Result<End, ScriptFault>
    requires { (0 < workers) × (workers ≤ 64) }
    ensures { IsHistoryRun rules (S.device source.old) (S.device source.new) (W.device sink.old) (W.device sink.new) result }
{
    run_histories_are_legal();
    replies_are_promised();
    let mut scanner = CrewScan::new(rt, alloc, workers, gate);
    transcribe(
        alloc,
        &mut ByLines(History),
        source,
        sink,
        rules,
        &mut scanner,
    )
}
