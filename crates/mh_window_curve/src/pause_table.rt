//! The curve of a log of pauses, as a table or as a picture. A line of the table has a window, its least and the first
//! place of that, what each window from this length on has, and the floor that was promised.
ghost use Rattle.std.specs.{Prelude.{◌≡◌, ◌<◌, ◌++◌, List, Some, length, IfOk, OnOk}, String.string_bytes};
ghost use Rattle.mh_window_curve.specs.Places.{GoOn};
ghost use Rattle.mh_window_curve.specs.PauseTexts.{IsLogCurve, log_text, log_words, percentile_words, row_text, row_words, rows_text};
ghost use Rattle.mh_model.specs.{Bytes.joined, declared.birth.TheConstants.LIFE, Trace.Letter};
ghost use Rattle.mh_orders.specs.declared.curve.CurveForm.TheVariants.{Table, Picture};
ghost use Rattle.mh_windows.specs.Always.{GoToTheEnd};

use crate::form::curve_text;
use crate::places::{Placed, drawn_points, floor_by, place_points};
use crate::point::TraceCounts;
use mh_model::memory::NoMemory;
use mh_orders::curve::{CurveForm, CurveOptions};
use mh_orders::promises::Round;
use mh_report::trace::Trace;
use mh_report::windows::{PercentText, share};
use mh_text::reply_text::OptionalText;
use mh_windows::always::{WindowLeast, share_from};
use mh_windows::pause::longest_pause;
use mh_windows::pauses::{PauseCounts, pause_counts};
use std::alloc::Global;
use std::fmt;
use std::fmt::Write;

/// What a log counts.
#[derive(Clone, Copy, Debug, PartialEq, Eq)]
pub struct LogCounts {
    pub mutator: u64,
    pub collector: u64,
    pub pauses: PauseCounts,
    /// The units of the longest pause.
    pub greatest: u64,
}

/// The percentiles of pauses.
#[derive(Clone, Copy)]
struct PercentilesText(PauseCounts);

impl fmt::Display for PercentilesText {
    ghost output = { λ text. Some (joined (percentile_words text.0)) };

    fn fmt<W: fmt::Write>(&self, f: &mut fmt::Formatter<W>) -> fmt::Result {
        let median = OptionalText(self.0.median);
        let p90 = OptionalText(self.0.p90);
        let p99 = OptionalText(self.0.p99);
        write!(f, "median {median} p90 {p90} p99 {p99}")
    }
}

impl fmt::Display for LogCounts {
    ghost output = { λ counts. Some (joined (log_words counts)) };

    fn fmt<W: fmt::Write>(&self, f: &mut fmt::Formatter<W>) -> fmt::Result {
        let LogCounts {
            mutator,
            collector,
            pauses,
            greatest,
        } = *self;
        let count = pauses.pauses;
        let percentiles = PercentilesText(pauses);
        write!(
            f,
            "mutator {mutator} collector {collector} pauses {count} greatest {greatest} {percentiles}"
        )
    }
}

/// What a table says of a window.
#[derive(Clone, Copy, Debug, PartialEq, Eq)]
pub struct Row {
    pub point: WindowLeast,
    /// How many units are before the first place in which it has its least.
    pub place: u64,
    /// What each window of this length or longer has, in parts of ten thousand.
    pub always: u128,
    pub floor: Option<u64>,
}

impl fmt::Display for Row {
    ghost output = { λ row. Some (joined (row_words row)) };

    fn fmt<W: fmt::Write>(&self, f: &mut fmt::Formatter<W>) -> fmt::Result {
        let WindowLeast { window, least } = self.point;
        let place = self.place;
        let share = PercentText(share(least, window));
        let always = PercentText(self.always);
        let floor = OptionalText(self.floor);
        write!(f, "window {window} least {least} at {place}")?;
        write!(f, " share {share} always {always} floor {floor}")
    }
}

/// Adds the line of the first of these points.
fn push_row(
    text: &mut String,
    round: Option<Round>,
    points: &[WindowLeast],
    place: u64,
) -> Result<(), NoMemory>
    requires { (letters : List Letter) × GoToTheEnd letters points.now }
    ensures { OnOk result (string_bytes text.new ≡ string_bytes text.old ++ row_text round points.now place) }
{
    let point = points[0];
    let row = Row {
        point,
        place,
        always: share_from(points),
        floor: floor_by(round, point.window),
    };
    writeln!(text, "{row}")?;
    Ok(())
}

/// Adds a line of each point.
fn push_rows(text: &mut String, round: Option<Round>, placed: &Placed) -> Result<(), NoMemory>
    requires points { (letters : List Letter) × GoOn letters placed.now.points.items }
    requires places { length placed.now.points.items ≡ length placed.now.places.items }
    ensures { OnOk result (string_bytes text.new ≡ string_bytes text.old ++ rows_text round placed.now.points.items placed.now.places.items) }
{
    let points = placed.points.as_slice();
    let mut i = 0;
    for place in placed.places.as_slice() {
        push_row(text, round, &points[i..], *place)?;
        i += 1;
    }
    Ok(())
}

/// The picture of a log with these counts and points.
fn log_picture(
    alloc: Global,
    round: Option<Round>,
    counts: LogCounts,
    placed: &Placed,
) -> Result<String, NoMemory>
    ensures { IfOk result (λ text. string_bytes text ≡ log_text Picture round counts placed.now.points.items placed.now.places.items) }
{
    let drawn = drawn_points(alloc, round, placed.points.as_slice())?;
    let counts = TraceCounts {
        mutator: counts.mutator,
        collector: counts.collector,
        quanta: None,
        greatest: counts.greatest,
    };
    curve_text(alloc, CurveForm::Picture, counts, drawn.as_slice())
}

/// Its table.
fn log_table(
    alloc: Global,
    round: Option<Round>,
    counts: LogCounts,
    placed: &Placed,
) -> Result<String, NoMemory>
    requires points { (letters : List Letter) × GoOn letters placed.now.points.items }
    requires places { length placed.now.points.items ≡ length placed.now.places.items }
    ensures { IfOk result (λ text. string_bytes text ≡ log_text Table round counts placed.now.points.items placed.now.places.items) }
{
    let mut text = String::new(alloc);
    writeln!(text, "{counts}")?;
    push_rows(&mut text, round, placed)?;
    Ok(text)
}

/// The curve of the trace of a log.
pub(crate) fn log_curve(
    alloc: Global,
    options: CurveOptions,
    trace: &Trace,
) -> Result<String, NoMemory>
    requires { length trace.now.trace.letters < LIFE }
    ensures { IfOk result (λ text. IsLogCurve options trace.now.trace.letters (string_bytes text)) }
{
    let longest = longest_pause(trace);
    let placed = place_points(alloc, trace, longest.units)?;
    let counts = LogCounts {
        mutator: trace.mutator_count(),
        collector: trace.collector_count(),
        pauses: pause_counts(trace),
        greatest: longest.units,
    };
    let round = options.promises.round;
    match options.form {
        CurveForm::Table => log_table(alloc, round, counts, &placed),
        CurveForm::Picture => log_picture(alloc, round, counts, &placed),
    }
}
