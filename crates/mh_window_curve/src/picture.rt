//! A curve as a picture. It is text as well, so it is a function of the points.
ghost use Rattle.std.specs.{Prelude.{◌≡◌, ◌++◌, OnOk}, String.string_bytes};
ghost use Rattle.mh_window_curve.specs.Texts.{head_text, labels_text, legend_of, lines_text, picture_text};

use crate::parts::{Part, push_parts};
use crate::point::{CurvePoint, TraceCounts};
use crate::skeleton::{AXES, COUNTS, END, FLOOR_LEGEND, HEAD, LEGEND, SHARES, WINDOWS};
use crate::table::CountsText;
use mh_model::memory::NoMemory;
use std::fmt::Write;

/// What the line of the floors is, if there are floors.
fn legend(points: &[CurvePoint]) -> &'static str
    ensures { result.now ≡ legend_of points.now }
{
    match points.first() {
        Some(CurvePoint { floor: Some(_), .. }) => FLOOR_LEGEND,
        _ => "",
    }
}

/// Adds the title, the counts and the axes.
fn push_head(text: &mut String, counts: TraceCounts) -> Result<(), NoMemory>
    ensures { OnOk result (string_bytes text.new ≡ string_bytes text.old ++ head_text counts) }
{
    let counts = CountsText(counts);
    write!(text, "{HEAD}{counts}{COUNTS}{counts}{AXES}")?;
    Ok(())
}

/// Adds the labels of the windows and of the lines.
fn push_labels(text: &mut String, points: &[CurvePoint]) -> Result<(), NoMemory>
    ensures { OnOk result (string_bytes text.new ≡ string_bytes text.old ++ labels_text points.now) }
{
    push_parts(text, Part::Tick, points)?;
    text.push_str(WINDOWS)?;
    text.push_str(legend(points))?;
    text.push_str(LEGEND)?;
    Ok(())
}

/// Adds the two lines.
fn push_lines(text: &mut String, points: &[CurvePoint]) -> Result<(), NoMemory>
    ensures { OnOk result (string_bytes text.new ≡ string_bytes text.old ++ lines_text points.now) }
{
    push_parts(text, Part::Floor, points)?;
    text.push_str(SHARES)?;
    push_parts(text, Part::Share, points)?;
    text.push_str(END)?;
    Ok(())
}

/// Adds the picture of a curve to a text, in SVG. After an error the text may end with a part of it.
pub(crate) fn push_picture(
    text: &mut String,
    counts: TraceCounts,
    points: &[CurvePoint],
) -> Result<(), NoMemory>
    ensures { OnOk result (string_bytes text.new ≡ string_bytes text.old ++ picture_text counts points.now) }
{
    push_head(text, counts)?;
    push_labels(text, points)?;
    push_lines(text, points)
}
