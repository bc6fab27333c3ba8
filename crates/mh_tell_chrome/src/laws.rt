//! Laws of the trace events of a run: each is what a function with nothing to do ensures.
ghost use Rattle.mh_tell_chrome.specs.Laws.{SlicesAddUp, SlicesNest, TimesNeverFall};

/// Times never fall.
pub fn times_never_fall()
    ensures { TimesNeverFall }
{}

/// On each thread what begins ends, in the order of a stack.
pub fn slices_nest()
    ensures { SlicesNest }
{}

/// Quanta and commands are as long together as a report says.
#[tactic(auto, using(crate::proofs::TotalLemmas::total_is_quanta, crate::proofs::TotalLemmas::total_is_session))]
pub fn slices_add_up()
    ensures { SlicesAddUp }
{}
