//! Laws of answers line by line: what they have to do with a run, and that each text has some.
ghost use Rattle.mh_live.specs.Laws.{ScriptsAreAnsweredAsRun, TextsHaveAnswers};

/// A script of at most 1,000,000 events is answered with the output of its run, if memory is never refused.
#[tactic(auto, using(crate::proofs::RunAnswers::answered_as_run))]
pub fn scripts_are_answered_as_run()
    ensures { ScriptsAreAnsweredAsRun }
{}

/// Each text can be answered so, also in a world.
#[tactic(auto, using(crate::proofs::RunAnswers::have_answers))]
pub fn texts_have_answers()
    ensures { TextsHaveAnswers }
{}
