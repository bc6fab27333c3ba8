//! How the curve of a text ended. What is wrong with a text is said of it in the words of its kind: a script, a history
//! or a log of pauses. A history may also have too many units.
use crate::promises::PromiseJudgement;
use mh_reasons::history_reason::HistoryReason;
use mh_script::end::LineRefusal;
use mh_window_pauses::reason::PauseReason;

/// How the curve of a text ended.
#[derive(Debug, Drop)]
pub enum CurveEnd {
    /// It was drawn, and this was found of what was promised of its trace.
    Drawn(PromiseJudgement),
    /// It was drawn of as many events as a history has, and the script has more. This was found of their trace.
    HistoryFull(PromiseJudgement),
    /// The script was refused.
    ScriptRefused(LineRefusal),
    /// The first bad line of a history, counted from 1; 0 if the text is too long.
    HistoryRefused { line: u64, reason: HistoryReason },
    /// The history has 2 ^ 62 units or more. This is line 0.
    HistoryTooLong,
    /// The first bad line of a log of pauses, counted from 1; 0 if the text is too long or has too many units.
    LogRefused { line: u64, reason: PauseReason },
}
