//! Points in the segments of a trace, from which letters that are alike are passed in one go.
ghost use Rattle.std.specs.Prelude.{◌≡◌, ◌+◌, ◌-◌, ◌<◌, ◌≤◌, ◌++◌, length, replicate};
ghost use Rattle.mh_report.specs.Segments.{letter_of};

use crate::segment::Segment;

/// A point in a trace: how many letters of a segment are before it.
#[derive(Clone, Copy, Default)]
pub struct Point {
    pub segment: usize,
    pub passed: u64,
}

impl Point {
    ghost use Rattle.mh_report.specs.{Auxiliary.IsPoint, Points.after};

    /// Passes letters that are alike: so many, or fewer and to the next segment, if there is one.
    #[tactic(auto, using(crate::proofs::PointLemmas::inside_list, crate::proofs::PointLemmas::inside_segment))]
    pub fn pass(&mut self, segments: &[Segment], most: u64) -> Segment
        requires point { IsPoint segments.now self.old }
        requires most { most ≤ length (after segments.now self.old) }
        ensures point { IsPoint segments.now self.new }
        ensures passed { after segments.now self.old ≡ replicate result.count (letter_of result.unit) ++ after segments.now self.new }
        ensures within { result.count ≤ most }
        ensures goes { 0 < most → most - result.count + (length segments.now - self.new.segment) < most + (length segments.now - self.old.segment) }
    {
        let Segment { unit, count } = segments[self.segment];
        let left = count - self.passed;
        if most < left {
            self.passed += most;
            return Segment { unit, count: most };
        }
        if self.segment + 1 < segments.len() {
            self.segment += 1;
            self.passed = 0;
        } else {
            self.passed = count;
        }
        Segment { unit, count: left }
    }
}
