//! What the deeds of a cycle count and cost, added up as they come.
ghost use Rattle.std.specs.Prelude.{◌≡◌, ◌+◌, ◌<◌, ◌^◌, length};
ghost use Rattle.mh_model.specs.Deeds.{deed_units, units_of};
ghost use Rattle.mh_tell_laws.specs.Cycles.{begins_page, grey_after_deed, opens_by, phase_after_deed};
ghost use Rattle.mh_tell_cycles.specs.Tallies.{HasRoom, counts_of, counts_sum, counts_total, first_tally, tally_all, tally_with, units_with};

use mh_model::cycle::Phase;
use mh_model::deed::{Deed, Fate, Tier};
use mh_model::place::Place;
use mh_tell_steps::deed_fields::deed_units;

/// The units of a cycle by its phases.
#[derive(Clone, Copy)]
pub struct Units {
    pub roots: u128,
    pub mark: u128,
    pub sweep: u128,
    pub defrag: u128,
}

/// How many deeds of each kind a cycle had.
#[derive(Clone, Copy)]
pub struct DeedCounts {
    /// Blocks marked through.
    pub marked: u128,
    /// Parts made, and pages opened for them.
    pub made: u128,
    pub opened: u128,
    /// Blocks that barriers shaded.
    pub shaded: u128,
    /// Blocks freed, and forwarders.
    pub freed: u128,
    pub dropped: u128,
    /// Pages that became free.
    pub emptied: u128,
    /// Sparse pages that defragmentation came to.
    pub sparse: u128,
    /// Blocks that moved, and the words of their classes.
    pub moved: u128,
    pub words: u128,
}

/// What deeds have come to so far.
#[derive(Clone, Copy)]
pub struct Tally {
    /// The phase in which the next deed is done.
    pub phase: Phase,
    /// The length of the grey list, and the greatest that it had.
    pub grey: u128,
    pub longest: u128,
    pub units: Units,
    pub counts: DeedCounts,
}

const NO_COUNTS: DeedCounts = DeedCounts {
    marked: 0,
    made: 0,
    opened: 0,
    shaded: 0,
    freed: 0,
    dropped: 0,
    emptied: 0,
    sparse: 0,
    moved: 0,
    words: 0,
};

/// 1 for slot 0 of a page.
fn begins_page(place: Place) -> u128
    ensures { result ≡ begins_page place }
{
    if place.slot() == 0 { 1 } else { 0 }
}

fn opens_by(tier: Tier) -> u128
    ensures { result ≡ opens_by tier }
{
    match tier {
        Tier::Fresh => 1,
        Tier::Dense | Tier::Sparse => 0,
    }
}

impl DeedCounts {
    /// What one deed counts.
    fn of(deed: &Deed) -> DeedCounts
        ensures { result ≡ counts_of deed.now }
    {
        let mut counts = NO_COUNTS;
        match *deed {
            Deed::Mark { .. } => counts.marked = 1,
            Deed::Make { tier, .. } => {
                counts.made = 1;
                counts.opened = opens_by(tier);
            }
            Deed::Shade { .. } => counts.shaded = 1,
            Deed::Sweep { fate, .. } => match fate {
                Fate::Freed(_) => counts.freed = 1,
                Fate::FreedForwarder(_) => counts.dropped = 1,
                Fate::Empty | Fate::Kept(_) => {}
            },
            Deed::FreePage { .. } => counts.emptied = 1,
            Deed::Stay { place } => counts.sparse = begins_page(place),
            Deed::Move {
                place,
                class_size,
                ..
            } => {
                counts.sparse = begins_page(place);
                counts.moved = 1;
                counts.words = class_size as u128;
            }
            _ => {}
        }
        counts
    }

    fn add(&mut self, more: DeedCounts)
        requires { counts_total (counts_sum self.old more) < 2 ^ 128 }
        ensures { self.new ≡ counts_sum self.old more }
    {
        self.marked += more.marked;
        self.made += more.made;
        self.opened += more.opened;
        self.shaded += more.shaded;
        self.freed += more.freed;
        self.dropped += more.dropped;
        self.emptied += more.emptied;
        self.sparse += more.sparse;
        self.moved += more.moved;
        self.words += more.words;
    }
}

/// The length of the grey list after a deed.
fn grey_after(grey: u128, deed: &Deed) -> u128
    requires { grey < 2 ^ 127 }
    ensures { result ≡ grey_after_deed grey deed.now }
{
    match *deed {
        Deed::Root { edge, .. } | Deed::Reference { edge, .. } if edge.is_shaded => grey + 1,
        Deed::Shade { .. } => grey + 1,
        Deed::Mark { .. } => grey.saturating_sub(1),
        _ => grey,
    }
}

/// The phase after a deed.
fn phase_after(phase: Phase, deed: &Deed) -> Phase
    ensures { result ≡ phase_after_deed phase deed.now }
{
    match *deed {
        Deed::Enter { phase: next } => next,
        Deed::End => Phase::Idle,
        _ => phase,
    }
}

impl Units {
    fn add(&mut self, phase: Phase, units: u128)
        requires { self.old.roots + self.old.mark + self.old.sweep + self.old.defrag + units < 2 ^ 128 }
        ensures { self.new ≡ units_with self.old phase units }
    {
        match phase {
            Phase::Idle => {}
            Phase::Roots => self.roots += units,
            Phase::Mark => self.mark += units,
            Phase::Sweep => self.sweep += units,
            Phase::Defrag => self.defrag += units,
        }
    }
}

impl Tally {
    /// Before the first deed of a cycle.
    pub fn new() -> Tally
        ensures { result ≡ first_tally }
    {
        Tally {
            phase: Phase::Idle,
            grey: 0,
            longest: 0,
            units: Units {
                roots: 0,
                mark: 0,
                sweep: 0,
                defrag: 0,
            },
            counts: NO_COUNTS,
        }
    }

    /// Notes a deed.
    fn note(&mut self, deed: &Deed)
        requires room { HasRoom (2 ^ 126) self.old }
        requires units { deed_units deed.now < 2 ^ 64 }
        ensures { self.new ≡ tally_with self.old deed.now }
    {
        self.units.add(self.phase, deed_units(deed));
        self.counts.add(DeedCounts::of(deed));
        self.grey = grey_after(self.grey, deed);
        self.longest = self.longest.max(self.grey);
        self.phase = phase_after(self.phase, deed);
    }

    /// Notes deeds in order.
    pub fn note_all(&mut self, deeds: &[Deed])
        requires room { HasRoom (2 ^ 125) self.old }
        requires units { units_of deeds.now < 2 ^ 64 }
        ensures value { self.new ≡ tally_all self.old deeds.now }
        ensures few { length deeds.now < 2 ^ 64 }
    {
        for deed in deeds {
            self.note(deed);
        }
    }
}
