//! Replies whose values stand between key words: those of a quantum, of `stat` and of `report`. The values are kept in
//! an array of a fixed size, so reading them takes no memory.
ghost use Rattle.std.specs.Prelude.{◌≡◌, ◌<◌, ◌∷◌, [], length, codes, Some, None, IfSome, IfNone, option_and_then};
ghost use Rattle.mh_model.specs.Replies.{values, spent_of, stat_of, report_of};
ghost use Rattle.mh_text.specs.Names.{names_shown};

use crate::parts::{optional_of, phase_of};
use arrayvec::ArrayVec;
use mh_model::cycle::Spent;
use mh_model::reply::Reply;
use mh_model::report::Report;
use mh_model::stat::Stat;
use mh_text::pieces::Words;
use mh_text::word::{is_word, number};

/// The most values that stand between keys.
const VALUES: usize = 7;

/// The words between which these keys stand.
#[tactic(auto, using(crate::proofs::KeyedLemmas::values_empty))]
fn values<'a>(mut words: Words<'a>, keys: &[&str]) -> Option<ArrayVec<&'a [u8], VALUES>>
    requires { length keys.now < 7 }
    ensures some { IfSome result
        (λ found. values (names_shown keys.now) words.entry ≡ Some (names_shown found.items)) }
    ensures none { IfNone result (values (names_shown keys.now) words.entry ≡ None) }
{
    let mut found = ArrayVec::new();
    let mut value = words.next_word()?;
    for key in keys {
        if !is_word(words.next_word()?, key.as_bytes()) {
            return None;
        }
        found.push(value);
        value = words.next_word()?;
    }
    if words.next_word().is_some() {
        return None;
    }
    found.push(value);
    Some(found)
}

/// The reply of a quantum whose words these are, without the first.
pub fn spent_of(words: Words<'_>) -> Option<Reply>
    ensures { result ≡ option_and_then spent_of (values (codes "phase" ∷ []) words.entry) }
{
    match *values(words, &["phase"])?.as_slice() {
        [units, phase] => spent_with(units, phase),
        _ => None,
    }
}

fn spent_with(units: &[u8], phase: &[u8]) -> Option<Reply>
    ensures { result ≡ spent_of (units.now ∷ phase.now ∷ []) }
{
    let units = Spent(number(units)?);
    let phase = phase_of(phase)?;
    Some(Reply::Spent { units, phase })
}

/// The reply to `stat` whose words these are, without the first.
#[tactic(auto, using(crate::proofs::KeyedLemmas::stat_five))]
pub fn stat_of(words: Words<'_>) -> Option<Reply>
    ensures { result ≡ option_and_then stat_of
        (values (codes "live" ∷ codes "old" ∷ codes "phase" ∷ codes "cycle" ∷ []) words.entry) }
{
    let keys = ["live", "old", "phase", "cycle"];
    match *values(words, &keys)?.as_slice() {
        [free, live, old, phase, cycle] => stat_with(free, live, old, phase, cycle),
        _ => None,
    }
}

fn stat_with(free: &[u8], live: &[u8], old: &[u8], phase: &[u8], cycle: &[u8]) -> Option<Reply>
    ensures { result ≡ stat_of (free.now ∷ live.now ∷ old.now ∷ phase.now ∷ cycle.now ∷ []) }
{
    let free = number(free)?;
    let live = number(live)?;
    let old = number(old)?;
    let phase = phase_of(phase)?;
    let cycle = number(cycle)?;
    Some(Reply::Stat(Stat {
        free,
        live,
        old,
        phase,
        cycle,
    }))
}

/// The report whose words these are, without the first.
pub fn report_of(words: Words<'_>) -> Option<Reply>
    ensures { result ≡ option_and_then report_of
        (values (codes "collector" ∷ codes "quanta" ∷ codes "greatest" ∷ codes "window" ∷ codes "least" ∷ codes "floor" ∷ []) words.entry) }
{
    let keys = [
        "collector",
        "quanta",
        "greatest",
        "window",
        "least",
        "floor",
    ];
    match *values(words, &keys)?.as_slice() {
        [mutator, collector, quanta, greatest, window, least, floor] => report_with(
            mutator, collector, quanta, greatest, window, least, floor,
        ),
        _ => None,
    }
}

fn report_with(
    mutator: &[u8],
    collector: &[u8],
    quanta: &[u8],
    greatest: &[u8],
    window: &[u8],
    least: &[u8],
    floor: &[u8],
) -> Option<Reply>
    ensures { result ≡ report_of (mutator.now ∷ collector.now ∷ quanta.now ∷ greatest.now ∷ window.now ∷ least.now ∷ floor.now ∷ []) }
{
    let mutator = number(mutator)?;
    let collector = number(collector)?;
    let quanta = number(quanta)?;
    let greatest = number(greatest)?;
    let window = number(window)?;
    let least = optional_of(least)?;
    let floor = optional_of(floor)?;
    Some(Reply::Report(Report {
        mutator,
        collector,
        quanta,
        greatest,
        window,
        least,
        floor,
    }))
}
