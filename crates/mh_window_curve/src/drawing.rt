//! What is drawn of the texts of histories and of logs of pauses. It is found before anything is written, so `text` has
//! only to write it.
ghost use Rattle.std.specs.{Prelude.{◌≡◌, IfOk, OnErr}, String.string_bytes};
ghost use Rattle.mh_window_curve.specs.{Histories.{IsShortTrace, traced_curve}, Auxiliary.IsDrawnText};
ghost use Rattle.mh_window_curve.specs.Drawings.{TakesToDraw};
ghost use Rattle.mh_window_curve.specs.declared.kind.TextKind.TheVariants as kind;

use crate::form::curve_text;
use crate::kind::TextKind;
use crate::pause_table::log_curve;
use crate::point::TraceCounts;
use crate::points::curve_points;
use crate::promises::{PromiseJudgement, judge_promises};
use crate::tally::tally_lines;
use mh_history::lines::RefusedLine;
use mh_history::record::record_lines;
use mh_model::config::Config;
use mh_model::memory::NoMemory;
use mh_orders::curve::{CurveForm, CurveOptions};
use mh_report::trace::Trace;
use mh_text::text_error::TextError;
use mh_window_pauses::log::read_log;
use std::alloc::Global;

/// What is to be written of a text.
#[derive(Drop)]
pub(crate) enum Drawing {
    /// Its curve, and what was found of what was promised of its trace.
    Curve(String, PromiseJudgement),
    /// The first bad line.
    Refused(u64),
    /// The trace of a history has 2 ^ 62 units or more.
    TooLong,
}

/// The curve of the trace of a history.
fn recorded_text(
    alloc: Global,
    form: CurveForm,
    config: Config,
    trace: &mut Trace,
) -> Result<String, NoMemory>
    requires { IsShortTrace trace.old.trace }
    ensures text { IfOk result (λ text. string_bytes text ≡ traced_curve form config trace.old.trace) }
    ensures kept { trace.new.trace ≡ trace.old.trace }
{
    let counts = TraceCounts {
        mutator: trace.mutator_count(),
        collector: trace.collector_count(),
        quanta: None,
        greatest: trace.greatest(),
    };
    let points = curve_points(alloc, &config, trace)?;
    curve_text(alloc, form, counts, points.as_slice())
}

/// What is drawn of a history of version 2. It takes no memory for a text that is refused before its first entry.
fn drawn_history(alloc: Global, options: CurveOptions, text: &[u8]) -> Result<Drawing, NoMemory>
    ensures drawn { IfOk result (IsDrawnText kind.History options text.now) }
    ensures memory { OnErr result (TakesToDraw kind.History text.now) }
{
    let (config, lines) = match record_lines(text) {
        Ok(read) => read,
        Err(RefusedLine(line)) => return Ok(Drawing::Refused(line)),
    };
    let mut tally = match tally_lines(alloc, lines) {
        Ok(tally) => tally,
        Err(TextError::Line(line)) => return Ok(Drawing::Refused(line)),
        Err(TextError::NoMemory) => return Err(NoMemory),
    };
    if !tally.is_short {
        return Ok(Drawing::TooLong);
    }
    let curve = recorded_text(alloc, options.form, config, &mut tally.trace)?;
    let judgement = judge_promises(&tally.trace, &options.promises);
    Ok(Drawing::Curve(curve, judgement))
}

/// What is drawn of a log of pauses. It takes no memory for a text that is refused at its first line.
fn drawn_log(alloc: Global, options: CurveOptions, text: &[u8]) -> Result<Drawing, NoMemory>
    ensures drawn { IfOk result (IsDrawnText kind.Pauses options text.now) }
    ensures memory { OnErr result (TakesToDraw kind.Pauses text.now) }
{
    let trace = match read_log(alloc, text) {
        Ok(trace) => trace,
        Err(TextError::Line(line)) => return Ok(Drawing::Refused(line)),
        Err(TextError::NoMemory) => return Err(NoMemory),
    };
    let curve = log_curve(alloc, options, &trace)?;
    let judgement = judge_promises(&trace, &options.promises);
    Ok(Drawing::Curve(curve, judgement))
}

/// What is drawn of a text of this kind.
pub(crate) fn drawn(
    alloc: Global,
    kind: TextKind,
    options: CurveOptions,
    text: &[u8],
) -> Result<Drawing, NoMemory>
    ensures drawn { IfOk result (IsDrawnText kind options text.now) }
    ensures memory { OnErr result (TakesToDraw kind text.now) }
{
    match kind {
        TextKind::History => drawn_history(alloc, options, text),
        TextKind::Pauses => drawn_log(alloc, options, text),
    }
}
