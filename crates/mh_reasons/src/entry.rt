//! What is wrong with a line after the first of a history. Its units come first, then its event, and then its reply.
ghost use Rattle.std.specs.Prelude.{◌≡◌, None, IfSome, IfNone, IsSome};
ghost use Rattle.mh_model.specs.{HistoryTexts.{entry_of, measured_of, event_of}, Replies.reply_of};
ghost use Rattle.mh_reasons.specs.HistoryReasons.{IsEntryReason, IsEntryWordsReason, IsEntryWrong, IsEventReason, IsMeasuredReason, IsReplyReason};

use crate::byte_fault::byte_fault;
use crate::event::{command_reason, control_reason};
use crate::history_reason::HistoryLineReason;
use crate::operands::operands_fault;
use crate::quoted::quote;
use crate::verb::Verb;
use mh_history::event::session_of;
use mh_model::history::Version;
use mh_text::forms::{command_of, control_of};
use mh_text::pieces::Words;
use mh_text::word::is_word;

/// What is wrong with a line after the first of a history of this version.
#[tactic(auto, using(crate::proofs::EntryLemmas::of_one, crate::proofs::EntryLemmas::of_two))]
pub fn entry_line_reason(version: Version, line: &[u8]) -> HistoryLineReason
    requires { IsEntryWrong version line.now }
    ensures { IsEntryReason version line.now result }
{
    if line.is_empty() {
        return HistoryLineReason::Blank;
    }
    if line[0] == b'#' {
        return HistoryLineReason::Comment;
    }
    if let Some(fault) = byte_fault(line) {
        return HistoryLineReason::Bytes(fault);
    }
    match version {
        Version::One => entry_reason(Version::One, Words::new(line)),
        Version::Two => measured_reason(Words::new(line)),
    }
}

fn measured_reason(words: Words<'_>) -> HistoryLineReason
    requires { measured_of words ≡ None }
    ensures { IsMeasuredReason words.entry result }
{
    let Some((entry, units)) = words.cut_at(b"units") else {
        return HistoryLineReason::NoUnits;
    };
    match operands_fault(Verb::Units, units) {
        Some(reason) => HistoryLineReason::Words(reason),
        None => entry_reason(Version::Two, entry),
    }
}

/// What is wrong with the words of an entry of this version, without its units.
pub fn entry_reason(version: Version, words: Words<'_>) -> HistoryLineReason
    requires { entry_of version words ≡ None }
    ensures { IsEntryWordsReason version words.entry result }
{
    let Some((event, reply)) = words.cut_at(b"=") else {
        return HistoryLineReason::NoReply;
    };
    match event_fault(version, event) {
        Some(reason) => reason,
        None => reply_reason(version, reply),
    }
}

/// What is wrong with the words of an event, if anything is.
fn event_fault(version: Version, mut words: Words<'_>) -> Option<HistoryLineReason>
    ensures some { IfSome result (IsEventReason version words.entry) }
    ensures none { IfNone result (IsSome (event_of version words.entry)) }
{
    let Some(word) = words.next_word() else {
        return Some(HistoryLineReason::NoEvent);
    };
    if is_word(word, b"*") {
        return match control_of(version, words.copy()) {
            Some(_) => None,
            None => Some(HistoryLineReason::Words(control_reason(version, words))),
        };
    }
    if session_of(word).is_none() {
        return Some(HistoryLineReason::Session(quote(word)));
    }
    match command_of(words.copy()) {
        Some(_) => None,
        None => Some(HistoryLineReason::Words(command_reason(word, words))),
    }
}

/// What is wrong with the words of a reply.
fn reply_reason(version: Version, mut words: Words<'_>) -> HistoryLineReason
    requires { reply_of version words ≡ None }
    ensures { IsReplyReason version words.entry result }
{
    match words.next_word() {
        Some(word) => HistoryLineReason::Reply(quote(word)),
        None => HistoryLineReason::EmptyReply,
    }
}
