//! What is wrong with a line of a script. The reason is true of that line. A comment comes first, then the bytes, then
//! the words. Of a configuration the first number outside its limits is named.
ghost use Rattle.std.specs.Prelude.{◌≡◌, ℕ, Some, None, true, false, ◌∷◌, IfSome, IfNone, codes};
ghost use Rattle.mh_model.specs.{Limits.is_configuration, Bytes.{words, is_text, is_name}};
ghost use Rattle.mh_model.specs.{Script.{config_words, line_words, Wrong}, declared.history.Version.TheVariants.Two};
ghost use Rattle.mh_model.specs.declared.history.Version.{Version};
ghost use Rattle.mh_reasons.specs.Reasons.{IsWrong, IsLineReason, IsWordsReason, IsWorldReason, IsHistory, is_log, is_in_limits, are_in_limits_before};

use crate::byte_fault::{byte_fault, has_pair};
use crate::event::{command_reason, control_reason};
use crate::operands::operands_reason;
use crate::quoted::quote;
use crate::reason::{ConfigNumber, LineReason};
use crate::verb::Verb;
use mh_model::history::Version;
use mh_model::limits::{LEAST_QUANTUM, MOST_PAGES, MOST_QUANTUM};
use mh_text::pieces::Words;
use mh_text::word::{is_name, is_word, numbers};

/// What is wrong with a line that isn't blank, before or after the configuration.
#[tactic(auto, using(crate::proofs::WordLemmas::event_words, crate::proofs::WordLemmas::of_event, crate::proofs::WordLemmas::of_config))]
pub fn line_reason(configured: bool, line: &[u8]) -> LineReason
    requires { IsWrong configured line.now }
    ensures { IsLineReason configured line.now result }
{
    if has_pair(line, b' ', b'#') {
        return LineReason::Comment;
    }
    if let Some(fault) = byte_fault(line) {
        return LineReason::Bytes(fault);
    }
    let (first, words) = first_word(line);
    if configured {
        event_reason(first, words)
    } else {
        config_reason(first, words)
    }
}

/// What is wrong with a line in a world, which has no configuration.
pub fn world_line_reason(line: &[u8]) -> LineReason
    requires { IsWrong true line.now }
    ensures { IsWorldReason line.now result }
{
    match line_reason(true, line) {
        LineReason::SecondConfig => LineReason::WorldConfig,
        reason => reason,
    }
}

/// The first word of a line, and the others.
pub fn first_word(line: &[u8]) -> (&[u8], Words<'_>)
    ensures { words line.now ≡ result.0.now ∷ result.1 }
{
    let mut words = Words::new(line);
    match words.next_word() {
        Some(first) => (first, words),
        None => unreachable!(),
    }
}

fn config_reason(first: &[u8], words: Words<'_>) -> LineReason
    requires { config_words (first.now ∷ words) ≡ None }
    ensures { IsWordsReason Two false (first.now ∷ words.entry) result }
{
    if let Some(version) = history_version(first, words.copy()) {
        return LineReason::History(version);
    }
    if begins_log(first, words.copy()) {
        return LineReason::Log;
    }
    if !is_word(first, b"config") {
        return LineReason::NotConfig(quote(first));
    }
    let Some(found) = numbers(words.copy()) else {
        return operands_reason(Verb::Config, words);
    };
    match *found.as_slice() {
        [pages, quantum, trigger, _] => LineReason::Limit(outside_limit(pages, quantum, trigger)),
        _ => operands_reason(Verb::Config, words),
    }
}

/// The version of a history that begins with these words.
#[tactic(auto, using(mh_model::proofs::TextLemmas::text_is))]
pub fn history_version(first: &[u8], mut words: Words<'_>) -> Option<Version>
    ensures some { IfSome result (IsHistory (first.now ∷ words.entry)) }
    ensures none { IfNone result ((version : Version) → ¬ IsHistory (first.now ∷ words.entry) version) }
{
    if !is_word(first, b"history") {
        return None;
    }
    let version = words.next_word()?;
    if is_word(version, b"1") {
        Some(Version::One)
    } else if is_word(version, b"2") {
        Some(Version::Two)
    } else {
        None
    }
}

/// Whether a log of threads begins with these words.
pub fn begins_log(first: &[u8], mut words: Words<'_>) -> bool
    ensures { result ≡ is_log (first.now ∷ words.entry) }
{
    match words.next_word() {
        Some(version) => is_word(first, b"log") && is_word(version, b"1"),
        None => false,
    }
}

/// The first number of a configuration that is outside its limits, if not all are within.
pub fn outside_limit(pages: u64, quantum: u64, trigger: u64) -> ConfigNumber
    ensures outside { (every : ℕ) → is_configuration pages quantum trigger every ≡ false → is_in_limits result pages quantum trigger every ≡ false }
    ensures first { (every : ℕ) → are_in_limits_before result pages quantum trigger every ≡ true }
{
    if pages < 1 || pages > u64::from(MOST_PAGES) {
        ConfigNumber::Pages
    } else if quantum < u64::from(LEAST_QUANTUM) || quantum > u64::from(MOST_QUANTUM) {
        ConfigNumber::Quantum
    } else if trigger > pages {
        ConfigNumber::Trigger
    } else {
        ConfigNumber::Every
    }
}

fn event_reason(first: &[u8], words: Words<'_>) -> LineReason
    requires { line_words (first.now ∷ words) ≡ Wrong }
    ensures { IsWordsReason Two true (first.now ∷ words.entry) result }
{
    if is_word(first, b"*") {
        control_reason(Version::Two, words)
    } else if first.len() > 16 {
        LineReason::LongName(quote(first))
    } else if !is_name(first) {
        LineReason::BadName(quote(first))
    } else {
        command_reason(first, words)
    }
}
