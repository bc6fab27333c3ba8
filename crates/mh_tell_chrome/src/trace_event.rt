//! Trace events as they are added to a text, each after a comma and on a line of its own. No text in them has a sign
//! that JSON would escape.
ghost use Rattle.std.specs.{Prelude.{◌≡◌, ◌++◌, ◌∷◌, [], codes, decimal, OnOk}, String.string_bytes};
ghost use Rattle.mh_model.specs.Replies.{phase_word, reply_text};
ghost use Rattle.mh_tell_steps.specs.{Fields.{Number, Word, field}, Lines.place_text};
ghost use Rattle.mh_tell_chrome.specs.TraceEvents.{Begin, Counter, End, Rank, Thread, next_text, next_texts, placed_text};

use mh_model::memory::NoMemory;
use mh_model::place::Place;
use mh_orders::steps::StepsForm;
use mh_tell_steps::fields::{push_decimal, push_number, push_page_and_slot, push_quoted};

/// Adds what an event of a thread begins with.
pub(crate) fn push_placed(
    text: &mut String,
    head: &str,
    time: u128,
    thread: u64,
) -> Result<(), NoMemory>
    ensures { OnOk result (string_bytes text.new ≡ string_bytes text.old ++ (44 ∷ 10 ∷ placed_text head.now time thread)) }
{
    text.push_str(",\n")?;
    text.push_str(head)?;
    text.push_str(",\"ts\":")?;
    push_decimal(text, time)?;
    text.push_str(",\"pid\":1,\"tid\":")?;
    push_decimal(text, u128::from(thread))?;
    Ok(())
}

/// Adds the beginning of a slice.
pub(crate) fn push_begin(
    text: &mut String,
    time: u128,
    thread: u64,
    name: &str,
) -> Result<(), NoMemory>
    ensures { OnOk result (string_bytes text.new ≡ string_bytes text.old ++ next_text (Begin time thread name.now [])) }
{
    push_placed(text, "{\"ph\":\"B\"", time, thread)?;
    text.push_str(",\"cat\":\"metroheap\",\"name\":")?;
    push_quoted(text, name)?;
    text.push_str("}")?;
    Ok(())
}

/// Adds the beginning of a slice with a number after its name.
pub(crate) fn push_begin_numbered(
    text: &mut String,
    time: u128,
    thread: u64,
    name: &str,
    number: u128,
) -> Result<(), NoMemory>
    ensures { OnOk result (string_bytes text.new ≡ string_bytes text.old ++ next_text (Begin time thread (name.now ++ decimal number) [])) }
{
    push_placed(text, "{\"ph\":\"B\"", time, thread)?;
    text.push_str(",\"cat\":\"metroheap\",\"name\":\"")?;
    text.push_str(name)?;
    push_decimal(text, number)?;
    text.push_str("\"}")?;
    Ok(())
}

/// Adds the beginning of a slice with a place after its name.
pub(crate) fn push_begin_placed(
    text: &mut String,
    time: u128,
    thread: u64,
    name: &str,
    place: Place,
) -> Result<(), NoMemory>
    ensures { OnOk result (string_bytes text.new ≡ string_bytes text.old ++ next_text (Begin time thread (name.now ++ place_text place) [])) }
{
    push_placed(text, "{\"ph\":\"B\"", time, thread)?;
    text.push_str(",\"cat\":\"metroheap\",\"name\":\"")?;
    text.push_str(name)?;
    push_page_and_slot(text, place)?;
    text.push_str("\"}")?;
    Ok(())
}

/// Adds the end of a slice.
pub(crate) fn push_end(text: &mut String, time: u128, thread: u64) -> Result<(), NoMemory>
    ensures { OnOk result (string_bytes text.new ≡ string_bytes text.old ++ next_text (End time thread)) }
{
    push_placed(text, "{\"ph\":\"E\"", time, thread)?;
    text.push_str("}")?;
    Ok(())
}

fn push_thread_name(text: &mut String, thread: u64, name: &str) -> Result<(), NoMemory>
    ensures { OnOk result (string_bytes text.new ≡ string_bytes text.old ++ next_text (Thread thread name.now)) }
{
    text.push_str(",\n{\"ph\":\"M\",\"pid\":1,\"tid\":")?;
    push_decimal(text, u128::from(thread))?;
    text.push_str(",\"name\":\"thread_name\",\"args\":{\"name\":")?;
    push_quoted(text, name)?;
    text.push_str("}}")?;
    Ok(())
}

fn push_rank(text: &mut String, thread: u64) -> Result<(), NoMemory>
    ensures { OnOk result (string_bytes text.new ≡ string_bytes text.old ++ next_text (Rank thread)) }
{
    text.push_str(",\n{\"ph\":\"M\",\"pid\":1,\"tid\":")?;
    push_decimal(text, u128::from(thread))?;
    text.push_str(",\"name\":\"thread_sort_index\",\"args\":{\"sort_index\":")?;
    push_decimal(text, u128::from(thread))?;
    text.push_str("}}")?;
    Ok(())
}

/// Adds a thread with its name, in the order of the threads' numbers.
#[tactic(auto, using(crate::proofs::TextLemmas::two_written))]
pub(crate) fn push_thread(text: &mut String, thread: u64, name: &str) -> Result<(), NoMemory>
    ensures { OnOk result (string_bytes text.new ≡ string_bytes text.old ++ next_texts (Thread thread name.now ∷ Rank thread ∷ [])) }
{
    push_thread_name(text, thread, name)?;
    push_rank(text, thread)?;
    Ok(())
}

/// Adds a counter up to its first number.
fn push_counter_front(text: &mut String, time: u128, name: &str, key: &str) -> Result<(), NoMemory>
    ensures { OnOk result (string_bytes text.new ≡ string_bytes text.old ++ (codes ",\n{\"ph\":\"C\",\"ts\":" ++ (decimal time ++ (codes ",\"pid\":1,\"cat\":\"metroheap\",\"name\":\"" ++ (name.now ++ (codes "\",\"args\":{\"" ++ (key.now ++ codes "\":"))))))) }
{
    text.push_str(",\n{\"ph\":\"C\",\"ts\":")?;
    push_decimal(text, time)?;
    text.push_str(",\"pid\":1,\"cat\":\"metroheap\",\"name\":\"")?;
    text.push_str(name)?;
    text.push_str("\",\"args\":{\"")?;
    text.push_str(key)?;
    text.push_str("\":")?;
    Ok(())
}

/// Adds a counter of one number.
pub(crate) fn push_counter(
    text: &mut String,
    time: u128,
    name: &str,
    key: &str,
    number: u128,
) -> Result<(), NoMemory>
    ensures { OnOk result (string_bytes text.new ≡ string_bytes text.old ++ next_text (Counter time name.now (field key.now (Number number) ∷ []))) }
{
    push_counter_front(text, time, name, key)?;
    push_decimal(text, number)?;
    text.push_str("}}")?;
    Ok(())
}

/// Adds the counter of blocks.
pub(crate) fn push_blocks(
    text: &mut String,
    time: u128,
    live: u128,
    old: u128,
) -> Result<(), NoMemory>
    ensures { OnOk result (string_bytes text.new ≡ string_bytes text.old ++ next_text (Counter time (codes "blocks") (field (codes "live") (Number live) ∷ field (codes "old") (Number old) ∷ []))) }
{
    push_counter_front(text, time, "blocks", "live")?;
    push_decimal(text, live)?;
    push_number(text, StepsForm::Json, "old", old)?;
    text.push_str("}}")?;
    Ok(())
}
