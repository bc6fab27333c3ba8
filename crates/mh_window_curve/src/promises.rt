//! What is promised of all windows of a trace, and what of it isn't so. Each promise is decided by few windows, and what
//! breaks one is shown. So is each promise that no trace of as few units can break.
ghost use Rattle.std.specs.Prelude.{◌≡◌, ◌+◌, ◌-◌, ◌<◌, ◌≤◌, length};
ghost use Rattle.mh_window_curve.specs.Promises.{IsJudged, JudgesPauses, JudgesRound, JudgesShare, is_kept, untried_pause, untried_round, untried_share};
ghost use Rattle.mh_model.specs.declared.birth.TheConstants.{LIFE};
ghost use Rattle.mh_run_laws.specs.Windows.{units_in};

use crate::places::floor_by;
use crate::points::letter_count;
use mh_orders::promises::{Promises, Round, Share};
use mh_report::trace::Trace;
use mh_windows::floor::{BrokenFloor, broken_floor};
use mh_windows::pause::{Pause, longest_pause};
use mh_windows::share::{Stretch, short_stretch};

/// A pause that is longer than was promised.
#[derive(Clone, Copy, Debug, PartialEq, Eq)]
pub struct LongPause {
    pub pause: Pause,
    /// The most units that were promised of a pause.
    pub promised: u64,
}

/// A stretch that has less of the mutator than was promised.
#[derive(Clone, Copy, Debug, PartialEq, Eq)]
pub struct ShortStretch {
    pub stretch: Stretch,
    /// So many of its units are the mutator's.
    pub units: u64,
    pub promised: Share,
}

/// What was promised of a trace and isn't so.
#[derive(Clone, Copy, Debug, PartialEq, Eq)]
pub struct Broken {
    pub floor: Option<BrokenFloor>,
    pub pause: Option<LongPause>,
    pub stretch: Option<ShortStretch>,
}

/// Promises that no trace of so few units breaks, whatever they are.
#[derive(Clone, Copy, Debug, PartialEq, Eq)]
pub struct Untried {
    /// The units of the trace.
    pub units: u64,
    /// Rounds by which none of its windows has a floor.
    pub floor: Option<Round>,
    /// A longest pause that has no fewer units.
    pub pause: Option<u64>,
    /// A share of stretches that are longer than the trace.
    pub stretch: Option<Share>,
}

/// What was found of promises: those that a trace breaks, and those that it is too short to break.
#[derive(Clone, Copy, Debug, PartialEq, Eq)]
pub struct PromiseJudgement {
    pub broken: Broken,
    pub untried: Untried,
}

impl PromiseJudgement {
    /// Whether each promise was tried and is kept.
    pub fn is_kept(&self) -> bool
        ensures { result ≡ is_kept self.now }
    {
        let PromiseJudgement { broken, untried } = self;
        let is_broken = broken.floor.is_some()
            || broken.pause.is_some()
            || broken.stretch.is_some();
        let is_untried = untried.floor.is_some()
            || untried.pause.is_some()
            || untried.stretch.is_some();
        !(is_broken || is_untried)
    }
}

fn judge_round(trace: &Trace, round: Option<Round>) -> Option<BrokenFloor>
    requires { length trace.now.trace.letters < LIFE }
    ensures { JudgesRound trace.now.trace.letters round result }
{
    let round = round?;
    broken_floor(trace, round.every, round.quantum)
}

fn judge_pauses(trace: &Trace, longest: Option<u64>) -> Option<LongPause>
    requires { length trace.now.trace.letters < LIFE }
    ensures { JudgesPauses trace.now.trace.letters longest result }
{
    let promised = longest?;
    let pause = longest_pause(trace);
    if pause.units <= promised {
        return None;
    }
    Some(LongPause { pause, promised })
}

/// How many units of the mutator are in a stretch.
fn units_in(trace: &Trace, stretch: Stretch) -> u64
    requires ordered { stretch.start ≤ stretch.end }
    requires inside { stretch.end ≤ length trace.now.trace.letters }
    ensures { result ≡ units_in trace.now.trace.letters stretch.start (stretch.end - stretch.start) }
{
    trace.units_in_first(stretch.end) - trace.units_in_first(stretch.start)
}

fn judge_share(trace: &Trace, share: Option<Share>) -> Option<ShortStretch>
    requires { length trace.now.trace.letters < LIFE }
    ensures { JudgesShare trace.now.trace.letters share result }
{
    let promised = share?;
    let stretch = short_stretch(trace, promised.percent, promised.from)?;
    Some(ShortStretch {
        stretch,
        units: units_in(trace, stretch),
        promised,
    })
}

/// The rounds, if no window of so many units or fewer has a floor by them.
fn untried_round(units: u64, round: Option<Round>) -> Option<Round>
    ensures { result ≡ untried_round units round }
{
    match floor_by(round, units) {
        Some(0) => round,
        _ => None,
    }
}

/// The longest pause that was promised, if so many units have no longer one.
fn untried_pause(units: u64, longest: Option<u64>) -> Option<u64>
    ensures { result ≡ untried_pause units longest }
{
    let promised = longest?;
    if promised < units {
        return None;
    }
    Some(promised)
}

/// The share that was promised, if so many units have no stretch as long.
fn untried_share(units: u64, share: Option<Share>) -> Option<Share>
    ensures { result ≡ untried_share units share }
{
    let promised = share?;
    if units < promised.from {
        Some(promised)
    } else {
        None
    }
}

/// What of these promises isn't so of a trace, and which of them it is too short to break.
pub fn judge_promises(trace: &Trace, promises: &Promises) -> PromiseJudgement
    requires { length trace.now.trace.letters < LIFE }
    ensures { IsJudged promises.now trace.now.trace.letters result }
{
    let units = letter_count(trace);
    PromiseJudgement {
        broken: Broken {
            floor: judge_round(trace, promises.round),
            pause: judge_pauses(trace, promises.longest),
            stretch: judge_share(trace, promises.share),
        },
        untried: Untried {
            units,
            floor: untried_round(units, promises.round),
            pause: untried_pause(units, promises.longest),
            stretch: untried_share(units, promises.share),
        },
    }
}
