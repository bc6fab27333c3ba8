//! Laws of reasons: a line of a script or of a history that has a reason is outside the grammar.
ghost use Rattle.mh_reasons.specs.Laws.{EntriesWithReasonsAreWrong, FirstLinesWithReasonsAreWrong, LinesWithReasonsAreWrong};

/// A line of a script with a reason is outside the grammar.
#[tactic(auto, using(crate::proofs::WrongLines::reason_wrong))]
pub fn lines_with_reasons_are_wrong()
    ensures { LinesWithReasonsAreWrong }
{}

/// A first line with a reason is no first line of a history.
#[tactic(auto, using(crate::proofs::WrongHeaders::first_wrong))]
pub fn first_lines_with_reasons_are_wrong()
    ensures { FirstLinesWithReasonsAreWrong }
{}

/// A line after the first with a reason is no entry.
#[tactic(auto, using(crate::proofs::WrongEntries::entry_wrong))]
pub fn entries_with_reasons_are_wrong()
    ensures { EntriesWithReasonsAreWrong }
{}
