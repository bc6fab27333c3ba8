//! Histories that are judged as whole texts.
//!
//! The verdict reported is the one that the text has. A history of the first version has it by a configuration, one
//! of the second by its own. What is reported beside it is true of the text: the reason for its bad line, and what is
//! wrong with its first bad entry. The line of the verdict was written and nothing else. A failed sink leaves a
//! prefix of that line. A failed source or out of memory leaves nothing written. A device failed exactly when it is
//! blamed. Of a text that is given the same verdict is found.
//!
//! The replies of a text that is found legal are those of an outcome that keeps the promise of `mh_promise`.
//!
//! A fault of the text comes before a bad entry, in whatever lines they are. So entries are judged as they are read,
//! none is kept, and after the first bad one the lines are still read to the end. The first bad entry is the least
//! number up to which the history isn't legal. So it is 1,000,001 if the machine's replies are right that far.
//!
//! One entry is kept at a time, also one whose reply is a dump of any length. An item of a dump takes 32 bytes, and
//! has at least 6 bytes of text. A legal dump has at most 266,240 items. So only a text with a longer one, which is
//! bad, takes more than 9 MB for an entry. No machine is opened before there is an entry. So memory is refused only
//! for bytes that the source gave, or for a text that begins with an entry.
ghost use Rattle.std.specs.Prelude.{◌≡◌, ℕ, [], IfOk, OnErr};
ghost use Rattle.mh_model.specs.{HistoryTexts.IsChecked, Script.BadLine};
ghost use Rattle.mh_reasons.specs.HistoryReasons.{IsRefusedAt, most_bytes};
ghost use Rattle.mh_history.specs.Beginnings.{BeginsWithEntry, HasEntry, entries_left};
ghost use Rattle.mh_judge.specs.{Auxiliary.IsJudgement, Judgements.{IsCheckExplained, IsRefusal, verdict_of}};
ghost use Rattle.mh_judge.specs.{Judged.{IsAuditing, IsChecking, IsToldAs, IsVerdictLine}, Histories.IsExplainedAs};

use crate::bad_entry::BadEntry;
use crate::following::{Follower, follow_lines};
use crate::judgement::{HistoryJudgement, Judgement, refused};
use crate::replay::Replay;
use crate::text_entry::TextEntry;
use mh_history::lines::RefusedLine;
use mh_model::config::Config;
use mh_model::history::{Entry, Measured, Version};
use mh_model::memory::NoMemory;
use mh_promise::promise::replies_are_promised;
use mh_script::fault::ScriptFault;
use mh_script::task::{Task, done_with};
use mh_script::texts::write_verdict;
use mh_text::device::DeviceFailed;
use mh_text::pieces::Lines;
use mh_text::sink::Sink;
use mh_text::source::Source;
use mh_text::text_error::TextError;
use std::alloc::Global;

/// What is found of a text of this version whose lines that are left are all to be entries.
#[tactic(auto, using(crate::proofs::FollowingLemmas::bad_line, crate::proofs::FollowingLemmas::judged_refused))]
fn judge_lines<F: Follower>(
    alloc: Global,
    mut follower: F,
    mut lines: Lines<'_>,
    version: Version,
    text: &[u8],
) -> Result<HistoryJudgement, NoMemory>
    requires begun { F.follows follower [] follower }
    requires refused { (line : ℕ) → entries_left (F.of_line follower) lines ≡ BadLine line → IsRefusedAt version text.now line }
    ensures found { IfOk result (IsJudgement (IsRefusal version text.now) (F.lawful follower) (F.wrong follower) (entries_left (F.of_line follower) lines.entry)) }
    ensures memory { OnErr result (HasEntry (F.of_line follower) lines.entry) }
{
    match follow_lines(alloc, &mut follower, &mut lines) {
        Ok(_) if !lines.is_empty() => Ok(refused(version, text, lines.number())),
        Ok(Some(BadEntry { number, fault })) => Ok(Judgement::FirstBad { number, fault }),
        Ok(None) => Ok(Judgement::Legal(follower.followed())),
        Err(error) => match error {
            TextError::Line(line) => Ok(refused(version, text, line)),
            TextError::NoMemory => Err(NoMemory),
        },
    }
}

/// The verdict on a text of some version, and what is wrong with the text. Each line of it is read once.
pub(crate) fn judge_text<E: TextEntry>(
    alloc: Global,
    given: E::Given,
    text: &[u8],
) -> Result<HistoryJudgement, NoMemory>
    ensures verdict { IfOk result (λ judgement. E.judged given text.now (verdict_of judgement)) }
    ensures explained { IfOk result (IsExplainedAs E.version (E.is_fault given) text.now) }
    ensures memory { OnErr result (E.begins text.now) }
{
    match E::lines(given, text) {
        Ok((config, lines)) => {
            judge_lines(
                alloc,
                Replay::<E>::new(alloc, config),
                lines,
                E::version(),
                text,
            )
        }
        Err(RefusedLine(line)) => Ok(refused(E::version(), text, line)),
    }
}

/// The verdict on a text of version 1, and what is wrong with the text.
pub fn judge_history(
    alloc: Global,
    config: Config,
    text: &[u8],
) -> Result<HistoryJudgement, NoMemory>
    ensures verdict { IfOk result (λ judgement. IsChecked config text.now (verdict_of judgement)) }
    ensures explained { IfOk result (IsCheckExplained config text.now) }
    ensures memory { OnErr result (BeginsWithEntry text.now) }
{
    judge_text::<Entry>(alloc, config, text)
}

/// A text of some version that is judged, and of which the line of the verdict is written.
#[derive(Drop)]
struct Judging<E: TextEntry> {
    given: E::Given,
}

impl<E: TextEntry> Task for Judging<E> {
    type Done = HistoryJudgement;

    ghost most = { most_bytes E.version };

    ghost does = { λ old text ended out new. IsVerdictLine verdict_of (E.judged old.given) (IsToldAs E.version (E.is_fault old.given) (E.promised old.given)) E.begins text ended out };

    fn most_bytes() -> usize {
        E::most_bytes()
    }

    fn perform<W: Sink>(
        &mut self,
        alloc: Global,
        text: &[u8],
        sink: &mut W,
    ) -> Result<HistoryJudgement, ScriptFault> {
        replies_are_promised();
        let judgement = judge_text::<E>(alloc, self.given, text)?;
        match write_verdict(judgement.verdict(), sink) {
            Ok(()) => Ok(judgement),
            Err(DeviceFailed) => Err(ScriptFault::Write),
        }
    }
}

/// Reads a whole history of version 1, replays it with one worker under a configuration, and then writes the line of its
/// verdict, for which it takes no memory.
pub fn check_script<S: Source, W: Sink>(
    alloc: Global,
    config: Config,
    source: &mut S,
    sink: &mut W,
) -> Result<HistoryJudgement, ScriptFault>
    ensures { IsChecking config (S.device source.old) (S.device source.new) (W.device sink.old) (W.device sink.new) result }
{
    done_with(alloc, &mut Judging::<Entry> { given: config }, source, sink)
}

/// Reads a whole history of version 2, replays it with one worker under its own configuration, and then writes the line of
/// its verdict, for which it takes no memory.
pub fn audit_script<S: Source, W: Sink>(
    alloc: Global,
    source: &mut S,
    sink: &mut W,
) -> Result<HistoryJudgement, ScriptFault>
    ensures { IsAuditing (S.device source.old) (S.device source.new) (W.device sink.old) (W.device sink.new) result }
{
    done_with(alloc, &mut Judging::<Measured> { given: () }, source, sink)
}
