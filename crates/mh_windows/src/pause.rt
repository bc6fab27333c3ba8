//! The longest pause of a trace: the most units of the collector in a row.
//!
//! A stretch of no unit slides over the trace, so what enters it is what stands next.
ghost use Rattle.std.specs.Prelude.{◌≡◌, ◌+◌, ◌<◌, ◌^◌, length};
ghost use Rattle.mh_model.specs.declared.birth.TheConstants.{LIFE};
ghost use Rattle.mh_report.specs.Segments.{letter_of};
ghost use Rattle.mh_windows.specs.{Pauses.IsLongest, Auxiliary.{here_after, longer_of}};

use mh_report::segment::Unit;
use mh_report::slide::Slider;
use mh_report::trace::Trace;
use std::marker::Model;

/// So many units of the collector in a row, after so many units of the trace.
#[derive(Clone, Copy, Debug, PartialEq, Eq)]
pub struct Pause {
    pub start: u64,
    pub units: u64,
}

/// How many of the last units are the collector's, after so many units alike more.
fn here_after(unit: Unit, count: u64, here: u64) -> u64
    requires { here + count < 2 ^ 62 }
    ensures { result ≡ here_after (letter_of unit) count here }
{
    match unit {
        Unit::Mutator if count == 0 => here,
        Unit::Mutator => 0,
        Unit::Collector => here + count,
    }
}

/// The longer of two pauses, the first of two that are as long.
fn longer_of(pause: Pause, other: Pause) -> Pause
    ensures { result ≡ longer_of pause other }
{
    if pause.units < other.units {
        other
    } else {
        pause
    }
}

/// What goes over a trace, and the longest pause that it has met.
#[derive(Drop)]
struct Going {
    place: u64,
    here: u64,
    longest: Pause,
    left: u64,
}

impl Model for Going {
    ghost use Rattle.std.specs.Prelude.{◌+◌, ◌<◌, ◌≤◌, ◌^◌};
    ghost use Rattle.mh_windows.specs.Pauses.{PauseState};

    ghost Value = { PauseState };

    ghost view = { λ g. record { place = g.place; here = g.here; longest = g.longest; left = g.left } };

    ghost invariant = { λ g. (g.place + g.left < 2 ^ 62) × (g.here ≤ g.place) };
}

impl Slider for Going {
    ghost use Rattle.mh_windows.specs.{Pauses.Goes, PauseRules.{pauses_onward, pauses_still}};

    ghost slides = { Goes };

    ghost room = { λ g. g.left };

    fn pass(&mut self, leaves: Unit, _enters: Unit, count: u64) {
        self.place += count;
        self.left -= count;
        self.here = here_after(leaves, count, self.here);
        let last = Pause {
            start: self.place - self.here,
            units: self.here,
        };
        self.longest = longer_of(self.longest, last);
    }

    ghost still = { pauses_still };

    ghost onward = { pauses_onward };
}

/// The longest pause, the first of several. One of no unit if there is none.
pub fn longest_pause(trace: &Trace) -> Pause
    requires { length trace.now.trace.letters < LIFE }
    ensures { IsLongest trace.now.trace.letters result }
{
    let mut going = Going {
        place: 0,
        here: 0,
        longest: Pause { start: 0, units: 0 },
        left: trace.mutator_count() + trace.collector_count(),
    };
    trace.slide(0, &mut going);
    going.longest
}
