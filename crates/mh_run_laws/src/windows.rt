//! Laws of the windows of a trace: what the least shares of few windows say of all others. Each is what a function with
//! nothing to do ensures.
ghost use Rattle.mh_run_laws.specs.WindowLaws.{LeastGrows, LeastIsOfStretches, OneWindowDecides, SharesBetween};

/// The least of a window is that of its stretches.
pub fn least_is_of_stretches()
    ensures { LeastIsOfStretches }
{}

/// The least of a window grows with it, and no faster.
pub fn least_grows()
    ensures { LeastGrows }
{}

/// One window decides on the floors of all.
pub fn one_window_decides()
    ensures { OneWindowDecides }
{}

/// Between two windows no window falls below a share.
pub fn shares_between()
    ensures { SharesBetween }
{}
