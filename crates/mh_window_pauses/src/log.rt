//! Logs of pauses, as traces.
//!
//! Neither the mutator nor the collector has to alternate, and a run may be of no unit. So a reader of another log may cut
//! a pause in two. From 2 ^ 62 units on no more are counted, but lines are still read, so that a bad one is found.
ghost use Rattle.std.specs.Prelude.{◌≡◌, ◌+◌, ◌<◌, ◌↔◌, List, ◌∷◌, ◌++◌, [], length, replicate, IsTrue, IfOk, IfErr, OnOk, IsErrOf};
ghost use Rattle.mh_history.specs.Beginnings.{HasEntry, entries_left};
ghost use Rattle.mh_model.specs.{declared.birth.TheConstants.LIFE, Script.{BadLine, Means}};
ghost use Rattle.mh_window_pauses.specs.declared.line.PauseLine.{PauseLine};
ghost use Rattle.mh_window_pauses.specs.Logs.{BeginsWithLine, line_as_pause, pause_reading};
ghost use Rattle.mh_window_pauses.specs.Auxiliary.{IsShort, IsTraceOf};
ghost use Rattle.mh_report.specs.Segments.{letter_of};
ghost use Rattle.mh_text.specs.TextErrors.{Refuses};

use crate::line::PauseLine;
use mh_history::lines::next_entry;
use mh_history::record::RECORD_BYTES;
use mh_model::birth::LIFE;
use mh_model::memory::NoMemory;
use mh_report::segment::Unit;
use mh_report::trace::Trace;
use mh_text::pieces::Lines;
use mh_text::text_error::TextError;
use std::alloc::Global;

/// The trace of lines, which is kept as long as it has fewer than 2 ^ 62 units.
#[derive(Drop)]
pub(crate) struct Traced {
    trace: Trace,
    is_short: bool,
}

/// Whether a trace is short with so many units more.
#[tactic(auto, using(mh_report::proofs::SegmentLemmas::counts_whole))]
fn is_short_with(trace: &Trace, count: u64) -> bool
    ensures { IsTrue result ↔ (length trace.now.trace.letters + count < LIFE) }
{
    let letters = trace
        .mutator_count()
        .saturating_add(trace.collector_count());
    letters.saturating_add(count) < LIFE
}

/// Adds a run to a trace.
fn extend(trace: &mut Trace, unit: Unit, count: u64) -> Result<(), NoMemory>
    requires short { length trace.old.trace.letters + count < LIFE }
    requires bounded { IsShort trace.old.trace }
    ensures letters { OnOk result (trace.new.trace.letters ≡ trace.old.trace.letters ++ replicate count (letter_of unit)) }
    ensures bounded { OnOk result (IsShort trace.new.trace) }
{
    trace.room()?;
    match unit {
        Unit::Mutator => trace.mutator(count),
        Unit::Collector if count == 0 => {}
        Unit::Collector => trace.spent(count),
    }
    Ok(())
}

impl Traced {
    /// That of no line, which takes no memory.
    fn open(alloc: Global) -> Traced
        ensures trace { IsTraceOf [] result }
        ensures bounded { IsShort result.trace.trace }
    {
        Traced {
            trace: Trace::open(alloc),
            is_short: true,
        }
    }

    /// Adds a line.
    fn add(&mut self, line: PauseLine) -> Result<(), NoMemory>
        requires { IsShort self.old.trace.trace }
        ensures trace { OnOk result ((lines : List PauseLine) → IsTraceOf lines self.old → IsTraceOf (lines ++ line ∷ []) self.new) }
        ensures bounded { OnOk result (IsShort self.new.trace.trace) }
    {
        let PauseLine::Run(unit, count) = line else {
            return Ok(());
        };
        if !self.is_short {
            return Ok(());
        }
        if !is_short_with(&self.trace, count) {
            self.is_short = false;
            return Ok(());
        }
        extend(&mut self.trace, unit, count)
    }
}

/// The trace of the lines that are left of a log.
fn trace_lines(alloc: Global, mut lines: Lines<'_>) -> Result<Traced, TextError>
    ensures trace { IfOk result (λ traced. (read : List PauseLine) × (entries_left line_as_pause lines.entry ≡ Means read) × IsTraceOf read traced) }
    ensures bounded { IfOk result (λ traced. IsShort traced.trace.trace) }
    ensures line { IfErr result (Refuses (entries_left line_as_pause lines.entry)) }
    ensures memory { IsErrOf result TextError.NoMemory → HasEntry line_as_pause lines.entry }
{
    let mut traced = Traced::open(alloc);
    while let Some(line) = next_entry::<PauseLine>(alloc, &mut lines)? {
        traced.add(line)?;
    }
    Ok(traced)
}

/// The trace that a log means. An error has the number of its first bad line, 1 if it has no byte, and 0 if it has 2 ^ 62
/// units or more, or more than 2,147,483,648 bytes.
pub fn read_log(alloc: Global, text: &[u8]) -> Result<Trace, TextError>
    ensures letters { IfOk result (λ trace. pause_reading text.now ≡ Means trace.trace.letters) }
    ensures short { IfOk result (λ trace. length trace.trace.letters < LIFE) }
    ensures line { IfErr result (Refuses (pause_reading text.now)) }
    ensures memory { IsErrOf result TextError.NoMemory → BeginsWithLine text.now }
{
    if text.len() > RECORD_BYTES {
        return Err(TextError::Line(0));
    }
    if text.is_empty() {
        return Err(TextError::Line(1));
    }
    let Traced { trace, is_short } = trace_lines(alloc, Lines::new(text))?;
    if is_short {
        Ok(trace)
    } else {
        Err(TextError::Line(0))
    }
}
