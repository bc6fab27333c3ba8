//! What the texts of curves have of each of their points. A table has a line of each. A picture has a step of each in
//! either of its lines, and the label of six windows at most. One loop adds any of these parts.
ghost use Rattle.std.specs.{Prelude.{◌≡◌, ◌+◌, ◌<◌, ◌≤◌, ◌++◌, OnOk}, String.string_bytes};
ghost use Rattle.mh_window_curve.specs.Texts.{floor_step, part_text, parts_text, place_x, place_y, step_text, tick_text};

use crate::point::CurvePoint;
use crate::table::PointText;
use mh_model::memory::NoMemory;
use mh_report::windows::share;
use std::fmt::Write;

/// A part of the text of a curve.
#[derive(Clone, Copy)]
pub(crate) enum Part {
    /// The lines of a table.
    Row,
    /// The line of the least shares.
    Share,
    /// The line of the floors.
    Floor,
    /// The labels of the windows.
    Tick,
}

/// Where window `i` of so many begins, from left to right.
fn place_x(count: u64, i: u64) -> u128
    requires { 0 < count }
    ensures { result ≡ place_x count i }
{
    70 + 700 * u128::from(i) / u128::from(count)
}

/// Where a share is drawn, from the top down.
fn place_y(share: u128) -> u128
    ensures { result ≡ place_y share }
{
    60 + 10_000_u128.saturating_sub(share) / 32
}

/// Adds the step of a line over a window.
fn push_step(text: &mut String, count: u64, i: u64, share: u128) -> Result<(), NoMemory>
    requires { i < count }
    ensures { OnOk result (string_bytes text.new ≡ string_bytes text.old ++ step_text count i share) }
{
    let left = place_x(count, i);
    let right = place_x(count, i + 1);
    let y = place_y(share);
    write!(text, "{left},{y} {right},{y} ")?;
    Ok(())
}

/// Adds the step of the floor of a window, if it has one.
fn push_floor(text: &mut String, count: u64, i: u64, point: CurvePoint) -> Result<(), NoMemory>
    requires { i < count }
    ensures { OnOk result (string_bytes text.new ≡ string_bytes text.old ++ floor_step count i point.window point.floor) }
{
    match point.floor {
        None => Ok(()),
        Some(floor) => push_step(text, count, i, share(floor, point.window)),
    }
}

/// Adds the label of a window, if it is one that has one.
fn push_tick(text: &mut String, count: u64, i: u64, window: u64) -> Result<(), NoMemory>
    requires { i < count }
    ensures { OnOk result (string_bytes text.new ≡ string_bytes text.old ++ tick_text count i window) }
{
    if i % (count / 6 + 1) == 0 {
        let x = place_x(count, i);
        writeln!(text, "<text x=\"{x}\" y=\"390\">{window}</text>")?;
    }
    Ok(())
}

fn push_part(
    text: &mut String,
    part: Part,
    count: u64,
    i: u64,
    point: CurvePoint,
) -> Result<(), NoMemory>
    requires { i < count }
    ensures { OnOk result (string_bytes text.new ≡ string_bytes text.old ++ part_text part count i point) }
{
    match part {
        Part::Row => {
            let line = PointText(point);
            writeln!(text, "{line}")?;
            Ok(())
        }
        Part::Share => push_step(text, count, i, share(point.least, point.window)),
        Part::Floor => push_floor(text, count, i, point),
        Part::Tick => push_tick(text, count, i, point.window),
    }
}

/// Adds what a part has of each point.
pub(crate) fn push_parts(
    text: &mut String,
    part: Part,
    points: &[CurvePoint],
) -> Result<(), NoMemory>
    ensures { OnOk result (string_bytes text.new ≡ string_bytes text.old ++ parts_text part points.now) }
{
    let count = points.len() as u64;
    let mut i = 0;
    for point in points {
        push_part(text, part, count, i, *point)?;
        i += 1;
    }
    Ok(())
}
