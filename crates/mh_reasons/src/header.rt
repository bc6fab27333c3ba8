//! What is wrong with the first line of a history. A script, a history of the other version or a log of
//! threads is named as such.
ghost use Rattle.std.specs.Prelude.{◌≡◌, ◌≢◌, None, ◌∷◌, List, ℕ, IfSome, IfNone, option_map, option_and_then, false};
ghost use Rattle.mh_model.specs.{Bytes.numbers, HistoryTexts.header_by};
ghost use Rattle.mh_reasons.specs.Operands.{fit};
ghost use Rattle.mh_reasons.specs.HistoryReasons.{IsFirstWrong, IsFirstLineReason, IsGivenReason, headed};

use crate::byte_fault::byte_fault;
use crate::history_reason::HistoryLineReason;
use crate::line::{begins_log, first_word, history_version, outside_limit};
use crate::operands::operands_fault;
use crate::verb::Verb;
use mh_model::history::Version;
use mh_text::pieces::Words;
use mh_text::word::{is_word, number, numbers};

/// What is wrong with the first line of a history of this version.
#[tactic(auto, using(mh_model::proofs::TextLemmas::text_is))]
pub fn first_line_reason(version: Version, line: &[u8]) -> HistoryLineReason
    requires { IsFirstWrong version line.now }
    ensures { IsFirstLineReason version line.now result }
{
    if let Some(fault) = byte_fault(line) {
        return HistoryLineReason::Bytes(fault);
    }
    let (first, words) = first_word(line);
    if let Some(of) = history_version(first, words.copy()) {
        if of != version {
            return HistoryLineReason::OtherVersion(of);
        }
    }
    if is_word(first, b"config") {
        return HistoryLineReason::Script;
    }
    if begins_log(first, words.copy()) {
        return HistoryLineReason::Log;
    }
    match version {
        Version::One => HistoryLineReason::NotHistory(Version::One),
        Version::Two => match after_rules(first, words) {
            Some(given) => given_reason(given),
            None => HistoryLineReason::NotHistory(Version::Two),
        },
    }
}

/// The words after `history 2 rules`.
fn after_rules<'a>(first: &[u8], mut words: Words<'a>) -> Option<Words<'a>>
    ensures some { IfSome result (λ given. first.now ∷ words.entry ≡ headed given) }
    ensures none { IfNone result ((given : List (List ℕ)) → first.now ∷ words.entry ≢ headed given) }
{
    let second = words.next_word()?;
    let third = words.next_word()?;
    if is_word(first, b"history") && is_word(second, b"2") && is_word(third, b"rules") {
        Some(words)
    } else {
        None
    }
}

/// What is wrong with the numbers after `history 2 rules`.
fn given_reason(mut words: Words<'_>) -> HistoryLineReason
    requires { option_and_then header_by (numbers words) ≡ None }
    ensures { IsGivenReason words.entry result }
{
    if let Some(reason) = operands_fault(Verb::Rules, words.copy()) {
        return HistoryLineReason::Words(reason);
    }
    let Some(rules) = next_number(&mut words) else {
        unreachable!()
    };
    if rules != 1 && rules != 2 {
        return HistoryLineReason::Rules;
    }
    let Some(found) = numbers(words) else {
        unreachable!()
    };
    match *found.as_slice() {
        [pages, quantum, trigger, _] => {
            HistoryLineReason::Limit(outside_limit(pages, quantum, trigger))
        }
        _ => unreachable!(),
    }
}

/// The number that the next word is.
fn next_number(words: &mut Words<'_>) -> Option<u64>
    ensures some { IfSome result (λ n. numbers words.old ≡ option_map (λ ns. n ∷ ns) (numbers words.new)) }
    ensures none { IfNone result ((bound : ℕ) (bounds : List ℕ) → fit (bound ∷ bounds) words.old ≡ false) }
{
    number(words.next_word()?)
}
