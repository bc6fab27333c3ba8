//! Whether each stretch of a length or more has a share of the mutator. One that hasn't is shown.
//!
//! A stretch of the length slides over the trace. Of all places up to its start the worst to begin at is kept, so one
//! comparison at each end of letters alike decides on all stretches that end there.
ghost use Rattle.std.specs.Prelude.{◌≡◌, ◌+◌, ◌*◌, ◌<◌, ◌≤◌, ◌^◌, ◌⊎◌, nat_lt, length, IfSome, IfNone, MatchOption};
ghost use Rattle.mh_model.specs.declared.birth.TheConstants.{LIFE};
ghost use Rattle.mh_report.specs.{Segments.letter_of, Walk.mutator_units};
ghost use Rattle.mh_run_laws.specs.Windows.{KeepsShare};
ghost use Rattle.mh_windows.specs.Shares.{IsShort};

use mh_report::segment::{Segment, Unit};
use mh_report::slide::Slider;
use mh_report::trace::Trace;
use std::marker::Model;

/// A place in a trace: how many units are before it, and how many of them are the mutator's.
#[derive(Clone, Copy)]
struct Place {
    place: u64,
    units: u64,
}

impl Place {
    /// The place after so many units alike.
    fn after(self, unit: Unit, count: u64) -> Place
        requires place { self.place + count < 2 ^ 62 }
        requires units { self.units ≤ self.place }
        ensures place { result.place ≡ self.place + count }
        ensures units { result.units ≡ self.units + mutator_units (letter_of unit) count }
    {
        let passed = Segment { unit, count };
        Place {
            place: self.place + count,
            units: self.units + passed.mutator_units(),
        }
    }
}

/// A part of a trace, by how many units are before its start and before its end.
#[derive(Clone, Copy, Debug, PartialEq, Eq)]
pub struct Stretch {
    pub start: u64,
    pub end: u64,
}

/// Whether from one place to the other the mutator falls back behind so many parts of a hundred.
fn falls_back(part: u64, start: Place, end: Place) -> bool
    requires part { part ≤ 100 }
    ensures { result ≡ nat_lt (100 * end.units + part * start.place) (100 * start.units + part * end.place) }
{
    let part = u128::from(part);
    let had = 100 * u128::from(start.units) + part * u128::from(end.place);
    let has = 100 * u128::from(end.units) + part * u128::from(start.place);
    has < had
}

/// The worse of two places to begin at.
fn worse(part: u64, peak: Place, start: Place) -> Place
    requires part { part ≤ 100 }
    ensures one { (result ≡ peak) ⊎ (result ≡ start) }
    ensures of_peak { 100 * peak.units + part * result.place ≤ 100 * result.units + part * peak.place }
    ensures of_start { 100 * start.units + part * result.place ≤ 100 * result.units + part * start.place }
{
    if falls_back(part, start, peak) {
        start
    } else {
        peak
    }
}

/// The stretch between two places, if it has less than so many parts of a hundred.
fn shortfall(part: u64, start: Place, end: Place) -> Option<Stretch>
    requires part { part ≤ 100 }
    ensures { MatchOption result (100 * start.units + part * end.place ≤ 100 * end.units + part * start.place)
        (λ stretch. (stretch ≡ record { start = start.place; end = end.place }) × (100 * end.units + part * start.place < 100 * start.units + part * end.place)) }
{
    if !falls_back(part, start, end) {
        return None;
    }
    Some(Stretch {
        start: start.place,
        end: end.place,
    })
}

/// A stretch that slides on, and what it has found.
#[derive(Drop)]
struct Sharing {
    part: u64,
    start: Place,
    end: Place,
    peak: Place,
    broken: Option<Stretch>,
    left: u64,
}

impl Model for Sharing {
    ghost use Rattle.std.specs.Prelude.{◌+◌, ◌<◌, ◌≤◌, ◌^◌};
    ghost use Rattle.mh_windows.specs.Shares.{ShareState};

    ghost Value = { ShareState };

    ghost view = { λ s. record { part = s.part; start = s.start; end = s.end; peak = s.peak; broken = s.broken; left = s.left } };

    ghost invariant = { λ s. (s.part ≤ 100) × (s.start.place ≤ s.end.place) × (s.end.place + s.left < 2 ^ 62) × (s.start.units ≤ s.start.place) × (s.end.units ≤ s.end.place) };
}

impl Slider for Sharing {
    ghost use Rattle.mh_windows.specs.{Shares.Slides, ShareRules.{shares_onward, shares_still}};

    ghost slides = { Slides };

    ghost room = { λ s. s.left };

    fn pass(&mut self, leaves: Unit, enters: Unit, count: u64) {
        self.start = self.start.after(leaves, count);
        self.end = self.end.after(enters, count);
        self.left -= count;
        self.peak = worse(self.part, self.peak, self.start);
        if self.broken.is_none() {
            self.broken = shortfall(self.part, self.peak, self.end);
        }
    }

    ghost still = { shares_still };

    ghost onward = { shares_onward };
}

/// A stretch of so many units or more that has less of the mutator than so many parts of a hundred, if there is one.
pub fn short_stretch(trace: &Trace, part: u64, from: u64) -> Option<Stretch>
    requires part { part ≤ 100 }
    requires short { length trace.now.trace.letters < LIFE }
    ensures none { IfNone result (KeepsShare part 100 from trace.now.trace.letters) }
    ensures some { IfSome result (IsShort part from trace.now.trace.letters) }
{
    let letters = trace.mutator_count() + trace.collector_count();
    if from > letters {
        return None;
    }
    let start = Place { place: 0, units: 0 };
    let end = Place {
        place: from,
        units: trace.units_in_first(from),
    };
    if let Some(stretch) = shortfall(part, start, end) {
        return Some(stretch);
    }
    let mut sharing = Sharing {
        part,
        start,
        end,
        peak: start,
        broken: None,
        left: letters - from,
    };
    trace.slide(from, &mut sharing);
    sharing.broken
}
