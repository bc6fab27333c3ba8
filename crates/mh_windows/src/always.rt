//! A share that each window from one on has, by the least of few windows.
//!
//! The least share isn't the same for longer windows, nor does it only grow. Between two windows no window has less than
//! follows from the units of both, so a table says something of all windows.
ghost use Rattle.std.specs.Prelude.{◌≡◌, ◌<◌, ◌≤◌, ◌-◌, ◌∷◌, [], List, length};
ghost use Rattle.mh_model.specs.Trace.{Letter};
ghost use Rattle.mh_run_laws.specs.Windows.{KeepsShare};
ghost use Rattle.mh_windows.specs.Always.{GoToTheEnd, share_from, share_until};
ghost use Rattle.mh_windows.specs.declared.always.WindowLeast.{WindowLeast};

use mh_report::windows::share;

/// The least of one window.
#[derive(Clone, Copy, Debug, PartialEq, Eq)]
pub struct WindowLeast {
    pub window: u64,
    pub least: u64,
}

/// The share that each window from one point to the next has, in parts of ten thousand.
fn share_until(point: WindowLeast, next: WindowLeast) -> u128
    requires more { point.least ≤ next.least }
    requires fits { next.least - point.least ≤ next.window }
    ensures { result ≡ share_until point next }
{
    share(point.least, next.window - (next.least - point.least))
}

/// The share that each window has from the first of these points on, in parts of ten thousand.
pub fn share_from(points: &[WindowLeast]) -> u128
    requires { (letters : List Letter) × GoToTheEnd letters points.now }
    ensures share { result ≡ share_from points.now }
    ensures keeps { (letters : List Letter) (point : WindowLeast) (rest : List WindowLeast) → points.now ≡ point ∷ rest → GoToTheEnd letters points.now → KeepsShare result 10000 point.window letters }
{
    let last = points[points.len() - 1];
    let mut kept = share(last.least, last.window);
    let mut i = 0;
    while i + 1 < points.len() {
        kept = kept.min(share_until(points[i], points[i + 1]));
        i += 1;
    }
    kept
}
