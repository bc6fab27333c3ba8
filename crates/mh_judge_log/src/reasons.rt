//! Why a log with an order is refused at its first bad line. The reason is true of that line. It takes no memory.
//!
//! Of several reasons the first in a fixed order is given. An empty line or a comment comes first, then the bytes, then
//! the words. How many they are comes before each of them, and the times before the command. What follows the times is
//! an entry of a history, and its reason is that of one.
ghost use Rattle.std.specs.Prelude.{◌≡◌, ◌≢◌, ◌∷◌, [], ◌<◌, None, true, false, codes, length, IfSome, IfNone};
ghost use Rattle.mh_judge_log.specs.Logs.{ordered_reading, timed_of};
ghost use Rattle.mh_judge_log.specs.Reasons.{IsCommandReason, IsFirstReason, IsLineReason, IsLogReason, IsOrderReason, IsTimeReason};
ghost use Rattle.mh_model.specs.{Bytes.{is_text, number, words}, Script.BadLine};

use crate::reason::{CommandReason, FirstReason, LogLineReason, LogReason};
use crate::timed::is_of_control;
use mh_history::event::session_of;
use mh_history::record::RECORD_BYTES;
use mh_model::history::Version;
use mh_reasons::byte_fault::byte_fault;
use mh_reasons::entry::entry_reason;
use mh_reasons::line::{first_word, history_version};
use mh_reasons::number_fault::number_fault;
use mh_reasons::quoted::quote;
use mh_text::pieces::{Lines, Words};
use mh_text::word::{is_word, number};

/// What is wrong with a first line that isn't `log 1`.
#[tactic(auto, using(mh_model::proofs::TextLemmas::text_is))]
fn first_reason(line: &[u8]) -> FirstReason
    requires { is_text line.now (codes "log 1") ≡ false }
    ensures { IsFirstReason line.now result }
{
    if let Some(fault) = byte_fault(line) {
        return FirstReason::Bytes(fault);
    }
    let (first, words) = first_word(line);
    if let Some(version) = history_version(first, words) {
        return FirstReason::History(version);
    }
    if is_word(first, b"config") {
        FirstReason::Script
    } else {
        FirstReason::NotLog
    }
}

/// The words that are to be the times of a command, and those after them.
fn timed_words(mut words: Words<'_>) -> Option<(&[u8], &[u8], Words<'_>)>
    ensures split { IfSome result (λ found. words.entry ≡ found.0.now ∷ found.1.now ∷ found.2) }
    ensures some { IfSome result (λ found. found.2 ≢ []) }
    ensures none { IfNone result (length words.entry < 3) }
{
    let begin = words.next_word()?;
    let end = words.next_word()?;
    words.copy().next_word()?;
    Some((begin, end, words))
}

/// What is wrong with a word that is no time.
fn time_reason(word: &[u8]) -> CommandReason
    requires { number word.now ≡ None }
    ensures { IsTimeReason word.now result }
{
    match number_fault(word, u64::MAX) {
        Some(fault) => CommandReason::Time(quote(word), fault),
        None => unreachable!(),
    }
}

/// What is wrong with the words of a line that is no command.
fn command_reason(words: Words<'_>) -> CommandReason
    requires { timed_of words ≡ None }
    ensures { IsCommandReason words.entry result }
{
    let Some((first, second, called)) = timed_words(words) else {
        return CommandReason::FewWords;
    };
    let Some(begin) = number(first) else {
        return time_reason(first);
    };
    let Some(end) = number(second) else {
        return time_reason(second);
    };
    if begin > end {
        return CommandReason::Backwards;
    }
    if is_of_control(called.copy()) {
        return CommandReason::Control;
    }
    CommandReason::Entry(entry_reason(Version::One, called))
}

/// What is wrong with a line of an order, which takes no command.
fn order_reason(line: &[u8]) -> LogLineReason
    ensures { IsOrderReason line.now result }
{
    match session_of(line) {
        Some(_) => LogLineReason::NoneLeft(quote(line)),
        None => LogLineReason::NoSession(quote(line)),
    }
}

/// What is wrong with a line before the order or in it.
fn line_reason(in_order: bool, line: &[u8]) -> LogLineReason
    requires { in_order ≡ false → timed_of (words line.now) ≡ None }
    ensures { IsLineReason in_order line.now result }
{
    if line.is_empty() {
        return LogLineReason::Blank;
    }
    if line[0] == b'#' {
        return LogLineReason::Comment;
    }
    if let Some(fault) = byte_fault(line) {
        return LogLineReason::Bytes(fault);
    }
    if in_order {
        order_reason(line)
    } else {
        LogLineReason::Command(command_reason(Words::new(line)))
    }
}

/// Why a log with an order is refused with this line, its first bad one.
pub(crate) fn log_reason(text: &[u8], line: u64) -> LogReason
    requires { ordered_reading text.now ≡ BadLine line }
    ensures { IsLogReason text.now line result }
{
    if text.len() > RECORD_BYTES {
        return LogReason::TooLong;
    }
    if text.is_empty() {
        return LogReason::Empty;
    }
    let mut lines = Lines::new(text);
    let Some((_, first)) = lines.next_line() else {
        return LogReason::NoNewline;
    };
    if !is_word(first, b"log 1") {
        return LogReason::First(first_reason(first));
    }
    let mut in_order = false;
    while let Some((number, bytes)) = lines.next_line() {
        if number == line {
            return LogReason::Line(line_reason(in_order, bytes));
        }
        in_order |= is_word(bytes, b"order 1");
    }
    if !lines.is_empty() {
        return LogReason::NoNewline;
    }
    if in_order {
        LogReason::CommandsLeft
    } else {
        LogReason::NoOrder
    }
}
