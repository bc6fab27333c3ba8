//! A curve as a table: a line with what its trace counts, and then a line for each window with its numbers.
ghost use Rattle.std.specs.{Prelude.{◌≡◌, ◌++◌, Some, OnOk}, String.string_bytes};
ghost use Rattle.mh_model.specs.Bytes.{joined};
ghost use Rattle.mh_window_curve.specs.Texts.{counts_line_words, point_words, table_text};

use crate::parts::{Part, push_parts};
use crate::point::{CurvePoint, TraceCounts};
use mh_model::memory::NoMemory;
use mh_report::windows::{PercentText, share};
use mh_text::reply_text::OptionalText;
use std::fmt;
use std::fmt::Write;

/// What a trace counts, without the end of its line.
#[derive(Clone, Copy)]
pub(crate) struct CountsText(pub(crate) TraceCounts);

impl fmt::Display for CountsText {
    ghost output = { λ text. Some (joined (counts_line_words text.0)) };

    fn fmt<W: fmt::Write>(&self, f: &mut fmt::Formatter<W>) -> fmt::Result {
        let TraceCounts {
            mutator,
            collector,
            quanta,
            greatest,
        } = self.0;
        match quanta {
            None => write!(
                f,
                "mutator {mutator} collector {collector} greatest {greatest}"
            ),
            Some(quanta) => write!(
                f,
                "mutator {mutator} collector {collector} quanta {quanta} greatest {greatest}"
            ),
        }
    }
}

/// A point, without the end of its line.
#[derive(Clone, Copy)]
pub(crate) struct PointText(pub(crate) CurvePoint);

impl fmt::Display for PointText {
    ghost output = { λ text. Some (joined (point_words text.0)) };

    fn fmt<W: fmt::Write>(&self, f: &mut fmt::Formatter<W>) -> fmt::Result {
        let CurvePoint {
            window,
            least,
            floor,
        } = self.0;
        let share = PercentText(share(least, window));
        let floor = OptionalText(floor);
        write!(
            f,
            "window {window} least {least} share {share} floor {floor}"
        )
    }
}

/// Adds the table of a curve to a text. After an error the text may end with a part of it.
pub(crate) fn push_table(
    text: &mut String,
    counts: TraceCounts,
    points: &[CurvePoint],
) -> Result<(), NoMemory>
    ensures { OnOk result (string_bytes text.new ≡ string_bytes text.old ++ table_text counts points.now) }
{
    let counts = CountsText(counts);
    writeln!(text, "{counts}")?;
    push_parts(text, Part::Row, points)
}
