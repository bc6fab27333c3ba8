//! Where in a trace the stretches of one length have the fewest units of the mutator.
ghost use Rattle.std.specs.Prelude.{◌≡◌, ◌<◌, ◌≤◌, ◌^◌, length, IfSome, IfNone, Some};
ghost use Rattle.mh_model.specs.{declared.birth.TheConstants.LIFE, Trace.least_mutator};
ghost use Rattle.mh_windows.specs.{Lowest.{IsLowest, LowestState, here, slid_over}, Auxiliary.first_lowest};

use mh_report::segment::{Segment, Unit};
use mh_report::slide::Slider;
use mh_report::trace::Trace;
use std::marker::Model;

/// A stretch that slides on, and the lowest place that it has had.
#[derive(Drop)]
struct Sliding {
    start: u64,
    count: u64,
    least: u64,
    at: u64,
    left: u64,
}

impl Model for Sliding {
    ghost use Rattle.std.specs.Prelude.{◌+◌, ◌<◌, ◌≤◌, ◌^◌};
    ghost use Rattle.mh_windows.specs.Lowest.{LowestState};

    ghost Value = { LowestState };

    ghost view = { λ s. record { start = s.start; count = s.count; least = s.least; at = s.at; left = s.left } };

    ghost invariant = { λ s. (s.start + s.left < 2 ^ 62) × (s.count + s.left < 2 ^ 63) × (s.least ≤ s.count) };
}

impl Slider for Sliding {
    ghost use Rattle.std.specs.Prelude.{◌≡◌};
    ghost use Rattle.mh_windows.specs.Lowest.{slid_onward, slid_over};

    ghost slides = { λ old passed new. new ≡ slid_over old passed };

    ghost room = { λ s. s.left };

    fn pass(&mut self, leaves: Unit, enters: Unit, count: u64) {
        let leaving = Segment {
            unit: leaves,
            count,
        };
        let entering = Segment {
            unit: enters,
            count,
        };
        let before = self.count;
        self.count = (before + entering.mutator_units()).saturating_sub(leaving.mutator_units());
        if self.count < self.least {
            self.least = self.count;
            self.at = self.start + (before - self.count);
        }
        self.start += count;
        self.left -= count;
    }

    ghost still = { λ s i. s };

    ghost onward = { slid_onward };
}

/// The lowest place of the stretches of a length.
#[derive(Clone, Copy, Debug, PartialEq, Eq)]
pub struct Lowest {
    /// How many units of the mutator it has.
    pub least: u64,
    /// How many units of the trace are before it.
    pub at: u64,
}

/// Where the stretches of a length have the fewest units of the mutator, the first place of several. None if the trace is
/// shorter.
pub fn lowest_of(trace: &Trace, window: u64) -> Option<Lowest>
    requires { length trace.now.trace.letters < LIFE }
    ensures least { IfSome result (λ lowest. least_mutator window trace.now.trace.letters ≡ Some lowest.least) }
    ensures place { IfSome result (λ lowest. IsLowest trace.now.trace.letters window lowest.least lowest.at) }
    ensures none { IfNone result (length trace.now.trace.letters < window) }
{
    let letters = trace.mutator_count() + trace.collector_count();
    if window > letters {
        return None;
    }
    let count = trace.units_in_first(window);
    let mut sliding = Sliding {
        start: 0,
        count,
        least: count,
        at: 0,
        left: letters - window,
    };
    trace.slide(window, &mut sliding);
    Some(Lowest {
        least: sliding.least,
        at: sliding.at,
    })
}
