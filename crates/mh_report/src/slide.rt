//! A stretch of one length that slides on over a trace, for whoever wants to know what passes at its ends.
//!
//! Letters that are alike at either end pass in one go, so it takes steps as the trace has segments, not letters.
ghost use Rattle.std.specs.Prelude.{◌≡◌, ◌+◌, ◌-◌, ◌^◌, ◌<◌, ◌≤◌, ◌++◌, [], ℕ, List, drop, length, replicate};
ghost use Rattle.mh_model.specs.Trace.{Letter};
ghost use Rattle.mh_report.specs.{Auxiliary.IsPoint, Points.after, Segments.{letter_of, letters_of}};
ghost use Rattle.mh_report.specs.Slides.{Passing, alike, passings, passings_of};

use crate::point::Point;
use crate::segment::{Segment, Unit};

/// Who looks on as a stretch slides over a trace.
pub trait Slider {
    // What it was, and what it is once these have passed.
    ghost slides: { Self → List Passing → Self → Type 0 };

    // How many more may pass.
    ghost room: { Self → ℕ };

    /// So many units alike leave the stretch at its start, and as many alike enter it at its end.
    fn pass(&mut self, leaves: Unit, enters: Unit, count: u64)
        requires { count ≤ room self.old }
        ensures slides { slides self.old (alike count (letter_of leaves) (letter_of enters)) self.new }
        ensures room { room self.new + count ≡ room self.old };

    ghost still: { (slider : Self) → slides slider [] slider };

    ghost onward: { (old mid new : Self) (before after : List Passing) → slides old before mid → slides mid after new → slides old (before ++ after) new };
}

/// The point after so many letters.
fn point_after(segments: &[Segment], many: u64) -> Point
    requires some { 0 < length segments.now }
    requires long { many ≤ length (letters_of segments.now) }
    ensures point { IsPoint segments.now result }
    ensures after { after segments.now result ≡ drop many (letters_of segments.now) }
{
    let mut point = Point {
        segment: 0,
        passed: 0,
    };
    let mut left = many;
    while left > 0 {
        let passed = point.pass(segments, left);
        left -= passed.count;
    }
    point
}

/// The stretch slides on as letters alike enter it.
fn slide_over<S: Slider>(
    segments: &[Segment],
    leaving: &mut Point,
    entering: Segment,
    slider: &mut S,
)
    requires point { IsPoint segments.now leaving.old }
    requires there { entering.count ≤ length (after segments.now leaving.old) }
    requires room { entering.count ≤ S.room slider.old }
    ensures point { IsPoint segments.now leaving.new }
    ensures left { length (after segments.now leaving.new) + entering.count ≡ length (after segments.now leaving.old) }
    ensures room { S.room slider.new + entering.count ≡ S.room slider.old }
    ensures slides { (rest : List Letter) → (before : List Passing) × S.slides slider.old before slider.new
        × (passings (after segments.now leaving.old) (replicate entering.count (letter_of entering.unit) ++ rest) ≡ before ++ passings (after segments.now leaving.new) rest) }
{
    let mut left = entering.count;
    while left > 0 {
        let leaves = leaving.pass(segments, left);
        slider.pass(leaves.unit, entering.unit, leaves.count);
        left -= leaves.count;
    }
}

/// A stretch of a length slides from the start of a trace to its end, which has so many letters.
pub(crate) fn slide<S: Slider>(segments: &[Segment], window: u64, letters: u64, slider: &mut S)
    requires some { 0 < length segments.now }
    requires letters { letters ≡ length (letters_of segments.now) }
    requires window { window ≤ letters }
    requires room { letters - window ≤ S.room slider.old }
    ensures slides { S.slides slider.old (passings_of window (letters_of segments.now)) slider.new }
{
    let mut leaving = point_after(segments, 0);
    let mut entering = point_after(segments, window);
    let mut left = letters - window;
    while left > 0 {
        let enters = entering.pass(segments, left);
        slide_over(segments, &mut leaving, enters, slider);
        left -= enters.count;
    }
}
