//! Whole texts of either version that are judged by what their sessions see.
//!
//! The verdict is the one that the text has. What is reported beside it is true of the text: the reason for its bad
//! line, and what is wrong with its first bad entry. The rules are those that are asked for, or else those that it
//! names. Version 1 names none, and has the first. So each legal history of ours is legal by this judge, under its
//! own rules. The line of the verdict was written and nothing else. A failed sink leaves a prefix of that line. A
//! failed source or out of memory leaves nothing written. A device failed exactly when it is blamed. Memory is
//! refused only for bytes that the source gave, or for a text that begins with an entry.
//!
//! Of a history that was cut off within its last line the whole lines are judged. Its verdict is that of the entries
//! before, unless these are legal. A crash is when its author most wants the verdict. If nothing before is wrong, the
//! line that was cut off is refused: nobody knows what it was to be. `check_script` and `audit_script` refuse such a
//! text in any case.
//!
//! Each line is read once, whatever the text is: entries are followed and counted as they are read.
ghost use Rattle.std.specs.Prelude.{◌≡◌, Bool, Option, IfOk, IfErr, OnErr};
ghost use Rattle.mh_model.specs.{declared.config.Rules.Rules, declared.history.Verdict.TheVariants.Refused};
ghost use Rattle.mh_model.specs.{Bytes.cut_after, Script.BadLine};
ghost use Rattle.mh_model.specs.Sessions.{entries_reading, is_of_version_one, rules_named, rules_or};
ghost use Rattle.mh_judge.specs.{Judgements.verdict_of, Judged.IsVerdictLine};
ghost use Rattle.mh_judge_sessions.specs.Texts.{BeginsWithEither, IsSeenExplained, IsSeenThroughBy, IsSeenTold, IsSessionsFound, IsSessionsJudging, found_verdict, version_of};
ghost use Rattle.mh_judge_sessions.specs.Auxiliary.{IsRefusedWith, IsOpened};

use crate::sessions_judgement::SessionsJudgement;
use crate::watch::Watch;
use mh_history::header::header_of;
use mh_history::history::HISTORY_BYTES;
use mh_history::lines::RefusedLine;
use mh_history::record::RECORD_BYTES;
use mh_judge::bad_entry::BadEntry;
use mh_judge::following::{Follower, follow_lines};
use mh_judge::judgement::{HistoryJudgement, Judgement, refused};
use mh_model::config::Rules;
use mh_model::history::Version;
use mh_model::memory::NoMemory;
use mh_script::fault::ScriptFault;
use mh_script::task::{Task, done_with};
use mh_script::texts::write_verdict;
use mh_text::device::DeviceFailed;
use mh_text::pieces::{Lines, Words, split_at_byte};
use mh_text::sink::Sink;
use mh_text::source::Source;
use mh_text::text_error::TextError;
use mh_text::word::is_word;
use std::alloc::Global;

/// Whether a text begins with the first line of a history of version 1.
fn is_of_version_one(text: &[u8]) -> bool
    ensures { result ≡ is_of_version_one (cut_after 10 text.now) }
{
    match split_at_byte(text, b'\n') {
        Some((line, _)) => is_word(line, b"history 1"),
        None => false,
    }
}

/// The version as which a text is read, by its first line.
fn version_of(text: &[u8]) -> Version
    ensures { result ≡ version_of text.now }
{
    if is_of_version_one(text) {
        Version::One
    } else {
        Version::Two
    }
}

/// The version of a text and its lines after the first, not read yet.
fn seen_lines(text: &[u8]) -> Result<(Version, Lines<'_>), RefusedLine>
    ensures lines { IfOk result (λ read. IsOpened text.now read.0 read.1) }
    ensures line { IfErr result (λ refused. IsRefusedWith text.now refused.0) }
{
    if text.len() > RECORD_BYTES {
        return Err(RefusedLine(0));
    }
    let mut lines = Lines::new(text);
    let Some((_, line)) = lines.next_line() else {
        return Err(RefusedLine(1));
    };
    if is_word(line, b"history 1") {
        return if text.len() > HISTORY_BYTES {
            Err(RefusedLine(0))
        } else {
            Ok((Version::One, lines))
        };
    }
    match header_of(Words::new(line)) {
        Some(_) => Ok((Version::Two, lines)),
        None => Err(RefusedLine(1)),
    }
}

/// The rules that the first line of a text names, which are the first ones in version 1.
fn rules_named(text: &[u8]) -> Rules
    ensures { result ≡ rules_named text.now }
{
    let Some((line, _)) = split_at_byte(text, b'\n') else {
        return Rules::First;
    };
    match header_of(Words::new(line)) {
        Some(config) => config.rules(),
        None => Rules::First,
    }
}

/// The rules that are asked for, or else those that a text names.
fn rules_for(asked: Option<Rules>, text: &[u8]) -> Rules
    ensures { result ≡ rules_or asked (rules_named text.now) }
{
    match asked {
        Some(rules) => rules,
        None => rules_named(text),
    }
}

/// That a text is refused with its first bad line, and why.
#[tactic(auto, using(crate::proofs::ExplainedLemmas::refusal_explained))]
fn refused_at(text: &[u8], line: u64) -> HistoryJudgement
    requires { entries_reading text.now ≡ BadLine line }
    ensures verdict { verdict_of result ≡ Refused line }
    ensures explained { (may_be_full : Bool) (asked : Option Rules) → IsSeenExplained may_be_full asked text.now result }
{
    refused(version_of(text), text, line)
}

/// The verdict on a text of either version by what its sessions see, under the rules that are asked for or that it names,
/// what is wrong with the text, and what was looked through. Of a history that was cut off the entries before are judged.
pub fn judge_sessions(
    alloc: Global,
    may_be_full: bool,
    asked: Option<Rules>,
    text: &[u8],
) -> Result<SessionsJudgement, NoMemory>
    ensures found { IfOk result (IsSessionsFound may_be_full asked text.now) }
    ensures memory { OnErr result (BeginsWithEither text.now) }
{
    let (version, mut lines) = match seen_lines(text) {
        Ok(read) => read,
        Err(RefusedLine(line)) => {
            return Ok(SessionsJudgement {
                judgement: refused_at(text, line),
                tally: None,
            });
        }
    };
    let mut watch = Watch::open(alloc, version, may_be_full, rules_for(asked, text));
    match follow_lines(alloc, &mut watch, &mut lines) {
        Ok(Some(BadEntry { number, fault })) => Ok(SessionsJudgement {
            judgement: Judgement::FirstBad { number, fault },
            tally: Some(watch.tally()),
        }),
        Ok(None) if lines.is_empty() => Ok(SessionsJudgement {
            judgement: Judgement::Legal(watch.followed()),
            tally: Some(watch.tally()),
        }),
        Ok(None) => Ok(SessionsJudgement {
            judgement: refused_at(text, lines.number()),
            tally: Some(watch.tally()),
        }),
        Err(error) => match error {
            TextError::Line(line) => Ok(SessionsJudgement {
                judgement: refused_at(text, line),
                tally: None,
            }),
            TextError::NoMemory => Err(NoMemory),
        },
    }
}

/// A history of either version that is judged by what its sessions see, and of which the line of the verdict is written.
#[derive(Clone, Copy)]
struct Seeing {
    may_be_full: bool,
    asked: Option<Rules>,
}

impl Task for Seeing {
    type Done = SessionsJudgement;

    ghost most = { 2147483648 };

    ghost does = { λ old text ended out new. IsVerdictLine found_verdict (IsSeenThroughBy old.may_be_full old.asked) (IsSeenTold old.may_be_full old.asked) BeginsWithEither text ended out };

    #[tactic(auto, using(crate::proofs::ExplainedLemmas::sessions_long))]
    fn most_bytes() -> usize {
        RECORD_BYTES
    }

    fn perform<W: Sink>(
        &mut self,
        alloc: Global,
        text: &[u8],
        sink: &mut W,
    ) -> Result<SessionsJudgement, ScriptFault> {
        let found = judge_sessions(alloc, self.may_be_full, self.asked, text)?;
        match write_verdict(found.judgement.verdict(), sink) {
            Ok(()) => Ok(found),
            Err(DeviceFailed) => Err(ScriptFault::Write),
        }
    }
}

/// Reads a whole history of either version, judges it by what its sessions see, under the rules that are asked for or that
/// it names, and then writes the line of its verdict, for which it takes no memory. Where no heap may be full, the first
/// full entry is bad.
pub fn check_sessions<S: Source, W: Sink>(
    alloc: Global,
    may_be_full: bool,
    asked: Option<Rules>,
    source: &mut S,
    sink: &mut W,
) -> Result<SessionsJudgement, ScriptFault>
    ensures { IsSessionsJudging may_be_full asked (S.device source.old) (S.device source.new) (W.device sink.old) (W.device sink.new) result }
{
    done_with(alloc, &mut Seeing { may_be_full, asked }, source, sink)
}
