//! A stretch that slides over a trace, by letters alike at once, and finds the least that it ever has of the mutator.
ghost use Rattle.std.specs.Prelude.{◌≡◌, ◌+◌, ◌^◌, ◌<◌, ◌≤◌, ◌++◌, Some, List, length, replicate, take};
ghost use Rattle.mh_model.specs.Trace.{Letter, least_mutator, mutator_count};
ghost use Rattle.mh_report.specs.{Segments.{letter_of, letters_of}, Auxiliary.HasSlid};

use crate::point::Point;
use crate::segment::Segment;

/// A stretch that slides on over a trace: the points at which it begins and ends, how many letters are before its end,
/// how many of the mutator it has, and the least that it had.
#[derive(Clone, Copy, Default)]
pub struct Walk {
    pub window: u64,
    pub leaving: Point,
    pub entering: Point,
    pub end: u64,
    pub count: u64,
    pub least: u64,
}

impl Walk {
    ghost use Rattle.mh_report.specs.{Auxiliary.{IsPoint, IsWalk}, Points.after};

    /// The first stretch of this length.
    pub fn first(segments: &[Segment], window: u64) -> Walk
        requires some { 0 < length segments.now }
        requires long { window ≤ length (letters_of segments.now) }
        ensures walk { IsWalk segments.now result }
        ensures window { result.window ≡ window }
        ensures count { result.count ≡ mutator_count (take window (letters_of segments.now)) }
    {
        let start = Point {
            segment: 0,
            passed: 0,
        };
        let mut entering = start;
        let mut count = 0;
        let mut left = window;
        while left > 0 {
            let passed = entering.pass(segments, left);
            count += passed.mutator_units();
            left -= passed.count;
        }
        Walk {
            window,
            leaving: start,
            entering,
            end: window,
            count,
            least: count,
        }
    }

    /// The stretch as it has slid on over letters that are alike.
    fn over(self, segments: &[Segment], entering: Segment) -> Walk
        requires point { IsPoint segments.now self.leaving }
        requires there { entering.count ≤ length (after segments.now self.leaving) }
        requires fits { self.count + entering.count < 2 ^ 63 }
        ensures point { IsPoint segments.now result.leaving }
        ensures slid { (letters rest : List Letter)
            → HasSlid self.window letters self.count self.least (after segments.now self.leaving) (replicate entering.count (letter_of entering.unit) ++ rest)
            → HasSlid self.window letters result.count result.least (after segments.now result.leaving) rest }
        ensures left { length (after segments.now result.leaving) + entering.count ≡ length (after segments.now self.leaving) }
        ensures count { result.count ≤ self.count + entering.count }
        ensures same { result ≡ record self { leaving = result.leaving; count = result.count; least = result.least } }
    {
        let mut walk = self;
        let mut left = entering.count;
        while left > 0 {
            let leaves = walk.leaving.pass(segments, left);
            let enters = Segment {
                unit: entering.unit,
                count: leaves.count,
            };
            walk.count = (walk.count + enters.mutator_units()).saturating_sub(
                leaves.mutator_units(),
            );
            walk.least = walk.least.min(walk.count);
            left -= leaves.count;
        }
        walk
    }

    /// The stretch as it has slid on to the end of the trace, which has so many letters.
    pub fn to_end(self, segments: &[Segment], letters: u64) -> Walk
        requires walk { IsWalk segments.now self }
        requires letters { letters ≡ length (letters_of segments.now) }
        requires fits { letters < 2 ^ 62 }
        ensures walk { IsWalk segments.now result }
        ensures window { result.window ≡ self.window }
        ensures least { least_mutator self.window (letters_of segments.now) ≡ Some result.least }
    {
        let mut walk = self;
        while walk.end < letters {
            let entering = walk.entering.pass(segments, letters - walk.end);
            walk = walk.over(segments, entering);
            walk.end += entering.count;
        }
        walk
    }
}
