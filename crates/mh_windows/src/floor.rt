//! Whether each window has its floor: one window decides on all.
ghost use Rattle.std.specs.Prelude.{◌≡◌, ◌+◌, ◌<◌, length, IfSome, IfNone};
ghost use Rattle.mh_model.specs.declared.birth.TheConstants.{LIFE};
ghost use Rattle.mh_run_laws.specs.Windows.{KeepsFloor};
ghost use Rattle.mh_windows.specs.Always.{IsBroken};

use crate::lowest::lowest_of;
use mh_report::trace::Trace;

/// A window that has less than its floor.
#[derive(Clone, Copy, Debug, PartialEq, Eq)]
pub struct BrokenFloor {
    pub window: u64,
    /// So many units of the mutator are in its lowest place.
    pub least: u64,
    /// How many units are before that.
    pub at: u64,
    /// How many units of the mutator have to be there.
    pub floor: u64,
}

/// A window that has less than its floor, if there is one: a quantum of at most `k` units after each `m` of the mutator
/// leaves each window so many of them. It is the window of one such round that decides, or the whole trace if that is shorter.
pub fn broken_floor(trace: &Trace, m: u64, k: u64) -> Option<BrokenFloor>
    requires some { 0 < m + k }
    requires round { m + k < LIFE }
    requires short { length trace.now.trace.letters < LIFE }
    ensures none { IfNone result (KeepsFloor m k trace.now.trace.letters) }
    ensures broken { IfSome result (IsBroken m k trace.now.trace.letters) }
{
    let letters = trace.mutator_count() + trace.collector_count();
    let window = letters.min(m + k);
    let Some(lowest) = lowest_of(trace, window) else {
        unreachable!();
    };
    let floor = window.saturating_sub(k);
    if floor <= lowest.least {
        return None;
    }
    Some(BrokenFloor {
        window,
        least: lowest.least,
        at: lowest.at,
        floor,
    })
}
