//! What deeds leave in the heap, and the counters that show it.
//!
//! After an event the heap is asked. Within a quantum its deeds are counted, since a phase begins between two of them.
ghost use Rattle.std.specs.Prelude.{◌≡◌, ◌+◌, ◌<◌, ◌≤◌, ◌^◌, ◌==◌, ◌&&◌, ◌++◌, ◌∷◌, [], length, OnOk};
ghost use Rattle.std.specs.String.{string_bytes};
ghost use Rattle.mh_tell_chrome.specs.TraceEvents.{next_texts};
ghost use Rattle.mh_tell_chrome.specs.Deeds.{blocks_counter, counted, counted_all, counters, grey_counter, pages_counter, swept, unless_same};
ghost use Rattle.mh_tell_chrome.specs.Auxiliary.{total};

use crate::trace_event::{push_blocks, push_counter};
use mh_model::deed::{Deed, Fate, Tier};
use mh_model::memory::NoMemory;
use mh_tell_steps::figures::HeapCounts;

/// What the sweep of a slot leaves in the heap.
fn sweep(counts: HeapCounts, fate: Fate) -> HeapCounts
    ensures counts { result ≡ swept counts fate }
    ensures few { total result ≤ total counts }
{
    match fate {
        Fate::Freed(_) => HeapCounts {
            live: counts.live.saturating_sub(1),
            ..counts
        },
        Fate::FreedForwarder(_) => HeapCounts {
            old: counts.old.saturating_sub(1),
            ..counts
        },
        _ => counts,
    }
}

/// What a deed leaves in the heap.
#[tactic(auto, using(crate::proofs::TextLemmas::counted_few))]
pub(crate) fn count(counts: HeapCounts, deed: &Deed) -> HeapCounts
    requires { total counts + 1 < 2 ^ 128 }
    ensures counts { result ≡ counted counts deed.now }
    ensures few { total result ≤ total counts + 1 }
{
    match *deed {
        Deed::Root { edge, .. } | Deed::Reference { edge, .. } => HeapCounts {
            grey: counts.grey + u128::from(edge.is_shaded),
            ..counts
        },
        Deed::Mark { .. } => HeapCounts {
            grey: counts.grey.saturating_sub(1),
            ..counts
        },
        Deed::Sweep { fate, .. } => sweep(counts, fate),
        Deed::FreePage { .. } => HeapCounts {
            free: counts.free + 1,
            ..counts
        },
        Deed::Move { .. } => HeapCounts {
            old: counts.old + 1,
            ..counts
        },
        Deed::Shade { .. } => HeapCounts {
            grey: counts.grey + 1,
            ..counts
        },
        Deed::Make { tier, .. } => HeapCounts {
            free: counts.free.saturating_sub(u128::from(tier == Tier::Fresh)),
            live: counts.live + 1,
            ..counts
        },
        _ => counts,
    }
}

/// What deeds leave in the heap.
pub(crate) fn count_all(counts: HeapCounts, deeds: &[Deed]) -> HeapCounts
    requires { total counts + length deeds.now < 2 ^ 128 }
    ensures counts { result ≡ counted_all counts deeds.now }
    ensures few { total result ≤ total counts + length deeds.now }
{
    let mut counted = counts;
    for deed in deeds {
        counted = count(counted, deed);
    }
    counted
}

/// Adds the three counters.
pub(crate) fn push_all_counters(
    text: &mut String,
    now: u128,
    counts: HeapCounts,
) -> Result<(), NoMemory>
    ensures { OnOk result (string_bytes text.new ≡ string_bytes text.old ++ next_texts (pages_counter now counts ∷ blocks_counter now counts ∷ grey_counter now counts ∷ [])) }
{
    push_counter(text, now, "pages", "free", counts.free)?;
    push_blocks(text, now, counts.live, counts.old)?;
    push_counter(text, now, "grey", "grey", counts.grey)?;
    Ok(())
}

fn push_pages_unless_same(
    text: &mut String,
    now: u128,
    shown: HeapCounts,
    counts: HeapCounts,
) -> Result<(), NoMemory>
    ensures { OnOk result (string_bytes text.new ≡ string_bytes text.old ++ next_texts (unless_same (shown.free == counts.free) (pages_counter now counts))) }
{
    if shown.free == counts.free {
        return Ok(());
    }
    push_counter(text, now, "pages", "free", counts.free)?;
    Ok(())
}

fn push_blocks_unless_same(
    text: &mut String,
    now: u128,
    shown: HeapCounts,
    counts: HeapCounts,
) -> Result<(), NoMemory>
    ensures { OnOk result (string_bytes text.new ≡ string_bytes text.old ++ next_texts (unless_same ((shown.live == counts.live) && (shown.old == counts.old)) (blocks_counter now counts))) }
{
    let is_same = shown.live == counts.live && shown.old == counts.old;
    if is_same {
        return Ok(());
    }
    push_blocks(text, now, counts.live, counts.old)?;
    Ok(())
}

fn push_grey_unless_same(
    text: &mut String,
    now: u128,
    shown: HeapCounts,
    counts: HeapCounts,
) -> Result<(), NoMemory>
    ensures { OnOk result (string_bytes text.new ≡ string_bytes text.old ++ next_texts (unless_same (shown.grey == counts.grey) (grey_counter now counts))) }
{
    if shown.grey == counts.grey {
        return Ok(());
    }
    push_counter(text, now, "grey", "grey", counts.grey)?;
    Ok(())
}

/// Adds the counters of which a number isn't what was shown last.
pub(crate) fn push_counters(
    text: &mut String,
    now: u128,
    shown: HeapCounts,
    counts: HeapCounts,
) -> Result<(), NoMemory>
    ensures { OnOk result (string_bytes text.new ≡ string_bytes text.old ++ next_texts (counters now shown counts)) }
{
    push_pages_unless_same(text, now, shown, counts)?;
    push_blocks_unless_same(text, now, shown, counts)?;
    push_grey_unless_same(text, now, shown, counts)?;
    Ok(())
}
