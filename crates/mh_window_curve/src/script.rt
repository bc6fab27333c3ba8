//! The curves of runs of scripts.
//!
//! What is written is exactly the curve of the trace of the run, and all that is said of `run_script` holds of it. A
//! script is refused as by a run, and a failed sink and out of memory leave a prefix. The trace of a run has fewer
//! than 2 ^ 62 units by a law, so no script is too long for its curve. What is promised of all windows is judged once
//! the curve is written.
ghost use Rattle.std.specs.{Prelude.{◌≡◌, ◌<◌, ◌≤◌, length, IfOk}, String.string_bytes};
ghost use Rattle.mh_window_curve.specs.{Points.trace_counts, Runs.{IsDrawingRun, IsFoundOfRun, IsJudgedRun, curve_run}};
ghost use Rattle.mh_window_curve.specs.Auxiliary.{IsEndOf, IsFoundIf};
ghost use Rattle.mh_model.specs.{Limits.most_entries, Machine.{first_machine, machine_after}};

use crate::end::CurveEnd;
use crate::form::curve_text;
use crate::point::TraceCounts;
use crate::points::curve_points;
use crate::promises::{PromiseJudgement, judge_promises};
use mh_machine::machine::Machine;
use mh_model::command::Event;
use mh_model::config::{Config, Rules};
use mh_model::memory::NoMemory;
use mh_orders::curve::CurveOptions;
use mh_report::trace::Trace;
use mh_run_laws::bounds::runs_stay_within_their_events;
use mh_scan::crew_scan::{CrewGate, CrewScan};
use mh_scan::scan::Scanner;
use mh_script::end::End;
use mh_script::fault::{ScriptFault, WriteError};
use mh_script::transcript::{Transcript, transcribe};
use mh_text::sink::Sink;
use mh_text::source::Source;
use mh_text::stream::write_text;
use std::alloc::Global;
use std::thread::Threads;

fn counts_of(trace: &Trace) -> TraceCounts
    ensures { result ≡ trace_counts trace.now.trace }
{
    TraceCounts {
        mutator: trace.mutator_count(),
        collector: trace.collector_count(),
        quanta: Some(trace.quanta()),
        greatest: trace.greatest(),
    }
}

/// The machine after events.
pub fn machine_after<C: Scanner>(
    alloc: Global,
    config: Config,
    events: &[Event],
    scanner: &mut C,
) -> Result<Machine, NoMemory>
    requires few { length events.now ≤ most_entries }
    ensures machine { IfOk result (λ machine. machine.machine ≡ machine_after (first_machine config) events.now) }
    ensures count { IfOk result (λ machine. machine.done ≡ length events.now) }
{
    let mut machine = Machine::open(alloc, config)?;
    for event in events {
        machine.step_in_room(*event, scanner)?;
    }
    Ok(machine)
}

/// The curve of the trace of a run of events, and what it breaks of what was promised.
fn run_text<C: Scanner>(
    alloc: Global,
    options: CurveOptions,
    config: Config,
    events: &[Event],
    scanner: &mut C,
) -> Result<(String, PromiseJudgement), NoMemory>
    requires { length events.now ≤ most_entries }
    ensures text { IfOk result (λ drawn. string_bytes drawn.0 ≡ curve_run options.form config events.now) }
    ensures judgement { IfOk result (λ drawn. IsJudgedRun options.promises config events.now drawn.1) }
{
    runs_stay_within_their_events();
    let machine = machine_after(alloc, config, events, scanner)?;
    let (_, mut trace) = machine.into_parts();
    let judgement = judge_promises(&trace, &options.promises);
    let counts = counts_of(&trace);
    let points = curve_points(alloc, &config, &mut trace)?;
    let text = curve_text(alloc, options.form, counts, points.as_slice())?;
    Ok((text, judgement))
}

/// A run that is written as its curve, and what it breaks of what was promised.
#[derive(Clone, Copy)]
struct Drawn {
    options: CurveOptions,
    judgement: Option<PromiseJudgement>,
}

impl Transcript for Drawn {
    ghost text_of = { λ drawn _. curve_run drawn.options.form };

    ghost becomes = { λ old config events new. IsFoundOfRun old.options.promises config events new.judgement };

    fn write<C: Scanner, W: Sink>(
        &mut self,
        alloc: Global,
        _script: &[u8],
        config: Config,
        events: &[Event],
        scanner: &mut C,
        sink: &mut W,
    ) -> Result<(), WriteError> {
        let (text, judgement) = run_text(alloc, self.options, config, events, scanner)?;
        self.judgement = Some(judgement);
        write_text(sink, text.as_bytes())?;
        Ok(())
    }
}

/// How the curve of a run ended that ended so, of which this was found.
fn curve_end(
    ended: Result<End, ScriptFault>,
    found: Option<PromiseJudgement>,
) -> Result<CurveEnd, ScriptFault>
    requires { IsFoundIf ended found }
    ensures { IsEndOf ended found result }
{
    match (ended, found) {
        (Ok(End::Refused(refusal)), _) => Ok(CurveEnd::ScriptRefused(refusal)),
        (Ok(End::Done), Some(judgement)) => Ok(CurveEnd::Drawn(judgement)),
        (Err(ScriptFault::HistoryFull), Some(judgement)) => Ok(CurveEnd::HistoryFull(judgement)),
        (Ok(End::Done) | Err(ScriptFault::HistoryFull), None) => unreachable!(),
        (Err(fault), _) => Err(fault),
    }
}

/// Reads a whole script, and then writes the curve of its run under these rules. Of a script that is outside the grammar it
/// writes the one line that names the first bad line. At most `workers` threads scan at a time, the calling one among them.
/// Neither their number nor the hook changes what is written. What was found of these promises stands in the result, also
/// of a script that has more events than a history: it is that of the events that were done.
pub fn curve_script<R: Threads, S: Source, W: Sink, G: CrewGate>(
    rt: &R,
    alloc: Global,
    options: CurveOptions,
    source: &mut S,
    sink: &mut W,
    workers: usize,
    rules: Rules,
    gate: &G,
) -> Result<CurveEnd, ScriptFault>
    requires { (0 < workers) × (workers ≤ 64) }
    ensures { IsDrawingRun options rules (S.device source.old) (S.device source.new) (W.device sink.old) (W.device sink.new) result }
{
    let mut scanner = CrewScan::new(rt, alloc, workers, gate);
    let mut drawn = Drawn {
        options,
        judgement: None,
    };
    let ended = transcribe(alloc, &mut drawn, source, sink, rules, &mut scanner);
    curve_end(ended, drawn.judgement)
}
