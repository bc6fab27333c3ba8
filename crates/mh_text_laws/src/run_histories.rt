//! Laws of runs of scripts as they are written.
ghost use Rattle.mh_text_laws.specs.RunHistories.{RunHistoriesAreLegal};

/// What a run writes as its history is read back, and is a legal history with the run's replies.
pub fn run_histories_are_legal()
    ensures { RunHistoriesAreLegal }
{}
