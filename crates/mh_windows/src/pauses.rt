//! How many pauses a trace has, and percentiles of their lengths.
//!
//! No list of pauses is kept, so no memory is taken. A stretch of no unit slides over the trace and counts pauses, and
//! those of so many units at most. A percentile is found by halving, so it costs a walk for each bit of the longest pause.
ghost use Rattle.std.specs.Prelude.{◌≡◌, ◌+◌, ◌*◌, ◌<◌, ◌≤◌, ◌^◌, nat_le, length};
ghost use Rattle.mh_model.specs.declared.birth.TheConstants.{LIFE};
ghost use Rattle.mh_windows.specs.Lengths.{AreCounts, AreInTurn, IsPercentileIfAny, pause_of, pauses_of, within};

use crate::pause::longest_pause;
use mh_report::segment::Unit;
use mh_report::slide::Slider;
use mh_report::trace::Trace;
use std::marker::Model;

/// How many pauses there are, and what a half, nine tenths and 99 hundredths of them don't exceed: none if there is no
/// pause.
#[derive(Clone, Copy, Debug, PartialEq, Eq)]
pub struct PauseCounts {
    pub pauses: u64,
    pub median: Option<u64>,
    pub p90: Option<u64>,
    pub p99: Option<u64>,
}

/// So many pauses, and how many of them are within a bound.
#[derive(Clone, Copy)]
struct PauseCount {
    pauses: u64,
    within: u64,
}

impl PauseCount {
    /// With one pause more, if it has a unit.
    fn with_pause(self, units: u64, bound: u64) -> PauseCount
        requires fits { self.pauses + units < 2 ^ 62 }
        requires few { self.within ≤ self.pauses }
        ensures pauses { result.pauses ≡ self.pauses + length (pause_of units) }
        ensures within { result.within ≡ self.within + within bound (pause_of units) }
    {
        if units == 0 {
            return self;
        }
        PauseCount {
            pauses: self.pauses + 1,
            within: self.within + u64::from(units <= bound),
        }
    }

    /// Whether so many hundredths of the pauses are within the bound.
    fn covers(self, part: u64) -> bool
        requires part { part ≤ 100 }
        ensures { result ≡ nat_le (part * self.pauses) (100 * self.within) }
    {
        u128::from(part) * u128::from(self.pauses) <= 100 * u128::from(self.within)
    }
}

/// What goes over a trace and counts its pauses: the last units are the collector's.
#[derive(Drop)]
struct Counting {
    bound: u64,
    here: u64,
    tally: PauseCount,
    left: u64,
}

impl Model for Counting {
    ghost use Rattle.std.specs.Prelude.{◌+◌, ◌<◌, ◌≤◌, ◌^◌};
    ghost use Rattle.mh_windows.specs.Lengths.{CountState};

    ghost Value = { CountState };

    ghost view = { λ c. record { bound = c.bound; here = c.here; tally = c.tally; left = c.left } };

    ghost invariant = { λ c. (c.tally.pauses + c.here + c.left < 2 ^ 62) × (c.tally.within ≤ c.tally.pauses) };
}

impl Slider for Counting {
    ghost use Rattle.mh_windows.specs.Lengths.{CountsOn, counts_onward, counts_still};

    ghost slides = { CountsOn };

    ghost room = { λ c. c.left };

    fn pass(&mut self, leaves: Unit, _enters: Unit, count: u64) {
        self.left -= count;
        match leaves {
            Unit::Collector => self.here += count,
            Unit::Mutator if count == 0 => {}
            Unit::Mutator => {
                self.tally = self.tally.with_pause(self.here, self.bound);
                self.here = 0;
            }
        }
    }

    ghost still = { counts_still };

    ghost onward = { counts_onward };
}

/// Counts the pauses, and those of so many units at most.
fn tally_of(trace: &Trace, bound: u64) -> PauseCount
    requires { length trace.now.trace.letters < LIFE }
    ensures pauses { result.pauses ≡ length (pauses_of trace.now.trace.letters) }
    ensures within { result.within ≡ within bound (pauses_of trace.now.trace.letters) }
{
    let mut counting = Counting {
        bound,
        here: 0,
        tally: PauseCount {
            pauses: 0,
            within: 0,
        },
        left: trace.mutator_count() + trace.collector_count(),
    };
    trace.slide(0, &mut counting);
    counting.tally.with_pause(counting.here, bound)
}

/// The least length that so many hundredths of these pauses don't exceed.
fn percentile(trace: &Trace, part: u64, pauses: u64, longest: u64) -> Option<u64>
    requires some { 0 < part }
    requires part { part ≤ 100 }
    requires short { length trace.now.trace.letters < LIFE }
    requires pauses { pauses ≡ length (pauses_of trace.now.trace.letters) }
    requires longest { within longest (pauses_of trace.now.trace.letters) ≡ pauses }
    ensures { IsPercentileIfAny part (pauses_of trace.now.trace.letters) result }
{
    if pauses == 0 {
        return None;
    }
    let mut low = 0;
    let mut high = longest;
    while low < high {
        let middle = low + (high - low) / 2;
        if tally_of(trace, middle).covers(part) {
            high = middle;
        } else {
            low = middle + 1;
        }
    }
    Some(high)
}

/// How many pauses a trace has, and the median and two more percentiles of their lengths.
pub fn pause_counts(trace: &Trace) -> PauseCounts
    requires { length trace.now.trace.letters < LIFE }
    ensures counts { AreCounts trace.now.trace.letters result }
    ensures turns { AreInTurn trace.now.trace.letters (pauses_of trace.now.trace.letters) }
{
    let longest = longest_pause(trace).units;
    let pauses = tally_of(trace, longest).pauses;
    PauseCounts {
        pauses,
        median: percentile(trace, 50, pauses, longest),
        p90: percentile(trace, 90, pauses, longest),
        p99: percentile(trace, 99, pauses, longest),
    }
}
