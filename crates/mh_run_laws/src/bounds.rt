//! A law of the counts of runs.
ghost use Rattle.mh_run_laws.specs.Bounds.{RunsStayWithinTheirEvents};

/// No count of a run grows past a small multiple of the number of its events.
pub fn runs_stay_within_their_events()
    ensures { RunsStayWithinTheirEvents }
{}
