//! Entries of histories, each read from its line. Most lines are cut at their first byte `=`, and those of which that
//! says too little word by word, as the model does.
ghost use Rattle.std.specs.Prelude.{◌≡◌, ◌∷◌, ◌++◌, [], codes, true, Some, None, IfOk, IfSome, IfNone, OnErr, IsSome, option_and_then};
ghost use Rattle.mh_model.specs.{Bytes.{words, numbers}, declared.history.Entry.Entry};
ghost use Rattle.mh_model.specs.declared.history.Version.TheVariants.{One};
ghost use Rattle.mh_model.specs.HistoryTexts.{entry_by, entry_of, measured_of, measured_with};
ghost use Rattle.mh_history.specs.Auxiliary.{all_lack, IsAroundEquals};

use crate::event::event_of;
use crate::reply::reply_of;
use mh_model::history::{Entry, Measured, Version};
use mh_model::memory::NoMemory;
use mh_model::reply::Reply;
use mh_text::pieces::{Words, split_at_byte};
use mh_text::word::{is_word, numbers};
use std::alloc::Global;

/// The bytes before the word `=` and those after it, if the byte stands nowhere before it.
#[tactic(auto, using(crate::proofs::HalfLemmas::around_cut))]
fn around_equals(line: &[u8]) -> Option<(&[u8], &[u8])>
    ensures { IfSome result (λ halves. IsAroundEquals line.now halves.0.now halves.1.now) }
{
    let (front, back) = split_at_byte(line, b'=')?;
    if front.is_empty() || back.is_empty() {
        return None;
    }
    let last = front.len() - 1;
    if front[last] == b' ' && back[0] == b' ' {
        Some((&front[..last], &back[1..]))
    } else {
        None
    }
}

/// The entry whose event and reply words are, if the version knows both.
fn entry_between(
    alloc: Global,
    version: Version,
    event: Words<'_>,
    reply: Words<'_>,
) -> Result<Option<Entry>, NoMemory>
    ensures entry { IfOk result (λ entry. entry ≡ entry_by version (record { before = event.entry; after = reply.entry })) }
    ensures memory { OnErr result (IsSome (entry_by version (record { before = event.entry; after = reply.entry }))) }
{
    let Some(event) = event_of(version, event) else {
        return Ok(None);
    };
    match reply_of(alloc, version, reply)? {
        Some(reply) => Ok(Some(Entry { event, reply })),
        None => Ok(None),
    }
}

/// An entry that is answered `ok`, whose event words are.
fn entry_done(version: Version, event: Words<'_>) -> Option<Entry>
    ensures { result ≡ entry_by version (record { before = event.entry; after = codes "ok" ∷ [] }) }
{
    let event = event_of(version, event)?;
    Some(Entry {
        event,
        reply: Reply::Done,
    })
}

/// The entry that words are, if the version knows its event and its reply.
fn entry_of(alloc: Global, version: Version, words: Words<'_>) -> Result<Option<Entry>, NoMemory>
    ensures entry { IfOk result (λ entry. entry ≡ entry_of version words.entry) }
    ensures memory { OnErr result (IsSome (entry_of version words.entry)) }
{
    let Some((event, reply)) = words.cut_at(b"=") else {
        return Ok(None);
    };
    entry_between(alloc, version, event, reply)
}

/// The entry of version 1 that a line is.
#[tactic(auto, using(crate::proofs::HalfLemmas::entry_ok, crate::proofs::HalfLemmas::entry_around))]
pub fn entry_in(alloc: Global, line: &[u8]) -> Result<Option<Entry>, NoMemory>
    ensures entry { IfOk result (λ entry. entry ≡ entry_of One (words line.now)) }
    ensures memory { OnErr result (IsSome (entry_of One (words line.now))) }
{
    match around_equals(line) {
        Some((event, reply)) if is_word(reply, b"ok") => {
            Ok(entry_done(Version::One, Words::new(event)))
        }
        Some((event, reply)) => {
            entry_between(alloc, Version::One, Words::new(event), Words::new(reply))
        }
        None => entry_of(alloc, Version::One, Words::new(line)),
    }
}

/// The units of an entry, which are two numbers.
fn units_of(words: Words<'_>) -> Option<(u64, u64)>
    ensures some { IfSome result (λ units. numbers words.entry ≡ Some (units.0 ∷ units.1 ∷ [])) }
    ensures none { IfNone result
        ((entry : Entry) → option_and_then (measured_with entry) (numbers words.entry) ≡ None) }
{
    match *numbers(words)?.as_slice() {
        [mutator, collector] => Some((mutator, collector)),
        _ => None,
    }
}

/// The entry with its units whose event and rest words are.
#[tactic(auto, using(crate::proofs::HalfLemmas::no_units_in, crate::proofs::HalfLemmas::measured_some, crate::proofs::HalfLemmas::measured_none, crate::proofs::HalfLemmas::measured_memory))]
fn measured_between(
    alloc: Global,
    event: Words<'_>,
    rest: Words<'_>,
) -> Result<Option<Measured>, NoMemory>
    requires no_equals { all_lack 61 event ≡ true }
    requires no_units { all_lack 105 event ≡ true }
    ensures measured { IfOk result (λ measured. measured ≡ measured_of (event.entry ++ codes "=" ∷ rest.entry)) }
    ensures memory { OnErr result (IsSome (measured_of (event.entry ++ codes "=" ∷ rest.entry))) }
{
    let Some((reply, units)) = rest.cut_at(b"units") else {
        return Ok(None);
    };
    let Some((mutator, collector)) = units_of(units) else {
        return Ok(None);
    };
    match entry_between(alloc, Version::Two, event, reply)? {
        Some(entry) => Ok(Some(Measured {
            entry,
            mutator,
            collector,
        })),
        None => Ok(None),
    }
}

/// What follows `ok units` in a text that begins so.
#[tactic(auto, using(crate::proofs::HalfLemmas::units_after_ok))]
fn units_after_ok(text: &[u8]) -> Option<&[u8]>
    ensures { IfSome result (λ units. words text.now ≡ codes "ok" ∷ codes "units" ∷ words units.now) }
{
    if text.len() >= 9 && is_word(&text[..9], b"ok units ") {
        Some(&text[9..])
    } else {
        None
    }
}

/// An entry that is answered `ok`, with its units, whose event and units words are.
#[tactic(auto, using(crate::proofs::HalfLemmas::done_some, crate::proofs::HalfLemmas::done_none))]
fn measured_done(event: Words<'_>, units: Words<'_>) -> Option<Measured>
    requires no_equals { all_lack 61 event ≡ true }
    requires no_units { all_lack 105 event ≡ true }
    ensures { result ≡ measured_of (event.entry ++ codes "=" ∷ codes "ok" ∷ codes "units" ∷ units.entry) }
{
    let Some((mutator, collector)) = units_of(units) else {
        return None;
    };
    let entry = entry_done(Version::Two, event)?;
    Some(Measured {
        entry,
        mutator,
        collector,
    })
}

/// The entry with its units whose event words are, and whose rest is a text.
fn read_measured(alloc: Global, event: Words<'_>, rest: &[u8]) -> Result<Option<Measured>, NoMemory>
    requires no_equals { all_lack 61 event ≡ true }
    requires no_units { all_lack 105 event ≡ true }
    ensures measured { IfOk result (λ measured. measured ≡ measured_of (event.entry ++ codes "=" ∷ words rest.now)) }
    ensures memory { OnErr result (IsSome (measured_of (event.entry ++ codes "=" ∷ words rest.now))) }
{
    match units_after_ok(rest) {
        Some(units) => Ok(measured_done(event, Words::new(units))),
        None => measured_between(alloc, event, Words::new(rest)),
    }
}

/// The entry with its units that words are.
#[tactic(auto, using(crate::proofs::EntryLemmas::no_units))]
fn measured_of(alloc: Global, words: Words<'_>) -> Result<Option<Measured>, NoMemory>
    ensures measured { IfOk result (λ measured. measured ≡ measured_of words.entry) }
    ensures memory { OnErr result (IsSome (measured_of words.entry)) }
{
    let Some((entry, units)) = words.cut_at(b"units") else {
        return Ok(None);
    };
    let Some((mutator, collector)) = units_of(units) else {
        return Ok(None);
    };
    match entry_of(alloc, Version::Two, entry)? {
        Some(entry) => Ok(Some(Measured {
            entry,
            mutator,
            collector,
        })),
        None => Ok(None),
    }
}

/// The entry with its units that a line is. An event without the byte `i` has no word `units`.
#[tactic(auto, using(crate::proofs::HalfLemmas::measured_around, crate::proofs::HalfLemmas::lacks_equals, crate::proofs::HalfLemmas::lacks_units))]
pub fn measured_in(alloc: Global, line: &[u8]) -> Result<Option<Measured>, NoMemory>
    ensures measured { IfOk result (λ measured. measured ≡ measured_of (words line.now)) }
    ensures memory { OnErr result (IsSome (measured_of (words line.now))) }
{
    match around_equals(line) {
        Some((event, rest)) if split_at_byte(event, b'i').is_none() => {
            read_measured(alloc, Words::new(event), rest)
        }
        _ => measured_of(alloc, Words::new(line)),
    }
}
