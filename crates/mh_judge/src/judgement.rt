//! What is found of a text that is judged: a verdict, with the reason for a bad line or what is wrong with a bad entry.
//! It is one type for histories and logs, so that one function gives its exit status. The statuses are in
//! `mh_program`, above the crates of the texts.
ghost use Rattle.std.specs.Prelude.{◌≡◌};
ghost use Rattle.mh_judge.specs.Judgements.{IsRefusal, verdict_of};
ghost use Rattle.mh_reasons.specs.HistoryReasons.{IsRefusedAt};

use crate::entry_fault::EntryFault;
use mh_model::history::{Verdict, Version};
use mh_reasons::history::history_reason;
use mh_reasons::history_reason::HistoryReason;

/// A verdict on a text, with the reason for its bad line or what is wrong with a bad entry.
#[derive(Debug, Drop)]
pub enum Judgement<R, F> {
    /// How many entries it has.
    Legal(u64),
    /// The first bad line, counted from 1; 0 if the text is too long.
    Refused { line: u64, reason: R },
    /// The first bad entry, counted from 1.
    FirstBad { number: u64, fault: F },
}

impl<R, F> Judgement<R, F> {
    /// Without what is wrong.
    pub fn verdict(&self) -> Verdict
        ensures { result ≡ verdict_of self.now }
    {
        match self {
            Judgement::Legal(count) => Verdict::Legal(*count),
            Judgement::Refused { line, .. } => Verdict::Refused(*line),
            Judgement::FirstBad { number, .. } => Verdict::FirstBad(*number),
        }
    }
}

/// What is found of a history.
pub type HistoryJudgement = Judgement<HistoryReason, EntryFault>;

/// That a text is refused as a history of this version, with its first bad line. It takes no memory.
pub fn refused(version: Version, text: &[u8], line: u64) -> HistoryJudgement
    requires { IsRefusedAt version text.now line }
    ensures { IsRefusal version text.now line result }
{
    Judgement::Refused {
        line,
        reason: history_reason(version, text, line),
    }
}
