//! What is found of a history by what its sessions see.
use crate::tally::EntryCounts;
use mh_judge::judgement::HistoryJudgement;

/// What is found of a history by what its sessions see, and what was looked through for that.
#[derive(Debug, Drop)]
pub struct SessionsJudgement {
    pub judgement: HistoryJudgement,
    /// None if the text is refused, but for one that was cut off after entries.
    pub tally: Option<EntryCounts>,
}
