//! Dumps as histories write them. Pages and slots ascend strictly. A page without blocks is well formed, and a block
//! before any page isn't. A class size need not be a class.
ghost use Rattle.std.specs.Prelude.{◌≡◌, ◌≢◌, ◌≤◌, ◌∷◌, [], List, length, nat_lt, Bool, true, false, Some, None, IfSome, IfNone, IfOk, OnErr, IsSome, is_some, option_map, option_and_then};
ghost use Rattle.mh_model.specs.{Bytes.parts_at, declared.dump.DumpItem.DumpItem};
ghost use Rattle.mh_model.specs.Replies.{placed_of, is_after, ascends, Ready, with_item, items_from, dump_of};
ghost use Rattle.mh_history.specs.Auxiliary.{placed_numbers};

use crate::parts::{flag_of, tagged};
use mh_model::dump::{Dump, DumpItem};
use mh_model::memory::NoMemory;
use mh_model::reply::Reply;
use mh_text::pieces::{Words, split_at_byte};
use mh_text::word::number;
use std::alloc::Global;

/// The two parts of a text that has this byte once.
fn two_parts(text: &[u8], byte: u8) -> Option<(&[u8], &[u8])>
    ensures some { IfSome result
        (λ parts. parts_at byte text.now ≡ parts.0.now ∷ parts.1.now ∷ []) }
    ensures none { IfNone result (length (parts_at byte text.now) ≢ 2) }
{
    let (first, rest) = split_at_byte(text, byte)?;
    match split_at_byte(rest, byte) {
        Some(_) => None,
        None => Some((first, rest)),
    }
}

/// A slot, and the two numbers after its mark.
#[derive(Clone, Copy)]
struct Placed {
    slot: u64,
    first: u64,
    second: u64,
}

#[tactic(auto, using(crate::proofs::DumpLemmas::placed_unmarked, crate::proofs::DumpLemmas::placed_unpointed, crate::proofs::DumpLemmas::placed_no_slot, crate::proofs::DumpLemmas::placed_no_first, crate::proofs::DumpLemmas::placed_no_second, crate::proofs::DumpLemmas::placed_is))]
fn placed_at(word: &[u8], mark: u8) -> Option<Placed>
    ensures { result ≡ placed_numbers mark word.now }
{
    let (slot, place) = two_parts(word, mark)?;
    let (first, second) = two_parts(place, b'.')?;
    let slot = number(slot)?;
    let first = number(first)?;
    let second = number(second)?;
    Some(Placed {
        slot,
        first,
        second,
    })
}

/// The block or forwarder that a word is.
fn placed_of(word: &[u8]) -> Option<DumpItem>
    ensures { result ≡ placed_of word.now }
{
    if let Some(block) = placed_at(word, b'=') {
        return Some(DumpItem::Block {
            slot: block.slot,
            birth: block.first,
            part: block.second,
        });
    }
    let forwarder = placed_at(word, b'>')?;
    Some(DumpItem::Forwarder {
        slot: forwarder.slot,
        to_page: forwarder.first,
        to_slot: forwarder.second,
    })
}

/// The item that begins with a word. It takes the words after it that belong to the item.
fn item_from(word: &[u8], words: &mut Words<'_>) -> Option<DumpItem>
    ensures some { IfSome result (λ item. items_from Ready (word.now ∷ words.old)
        ≡ with_item (Some item) (items_from Ready words.new)) }
    ensures none { IfNone result (items_from Ready (word.now ∷ words.old) ≡ None) }
    ensures fewer { length words.new ≤ length words.old }
{
    let Some(page) = tagged(word, b'P') else {
        return placed_of(word);
    };
    let class_size = tagged(words.next_word()?, b'C')?;
    let is_flagged = flag_of(words.next_word()?)?;
    Some(DumpItem::Page {
        page,
        class_size,
        is_flagged,
    })
}

/// The page and the slot that a dump has come to.
#[derive(Clone, Copy)]
struct Reached {
    page: Option<u64>,
    slot: Option<u64>,
}

/// Whether a number may come after one before it.
fn is_after(before: Option<u64>, number: u64) -> bool
    ensures { result ≡ is_after before number }
{
    match before {
        None => true,
        Some(before) => before < number,
    }
}

/// Where an item that may come next leads to.
fn after(reached: Reached, item: DumpItem) -> Option<Reached>
    ensures some { IfSome result (λ next. (items : List DumpItem)
        → ascends reached.page reached.slot (item ∷ items) ≡ ascends next.page next.slot items) }
    ensures none { IfNone result ((items : List DumpItem)
        → ascends reached.page reached.slot (item ∷ items) ≡ false) }
{
    match item {
        DumpItem::Page { page, .. } if is_after(reached.page, page) => Some(Reached {
            page: Some(page),
            slot: None,
        }),
        DumpItem::Block { slot, .. } | DumpItem::Forwarder { slot, .. }
            if reached.page.is_some() && is_after(reached.slot, slot) => {
            Some(Reached {
                page: reached.page,
                slot: Some(slot),
            })
        }
        _ => None,
    }
}

/// Whether the words are those of a dump, in order.
#[tactic(auto, using(crate::proofs::DumpLemmas::dump_next, crate::proofs::DumpLemmas::dump_low, crate::proofs::DumpLemmas::dump_wrong))]
fn is_dump(mut words: Words<'_>) -> bool
    ensures { result ≡ is_some (dump_of words.entry) }
{
    let mut reached = Reached {
        page: None,
        slot: None,
    };
    while let Some(word) = words.next_word() {
        let Some(item) = item_from(word, &mut words) else {
            return false;
        };
        match after(reached, item) {
            Some(next) => reached = next,
            None => return false,
        }
    }
    true
}

/// The items that words are, in any order.
#[tactic(auto, using(crate::proofs::DumpLemmas::items_start, crate::proofs::DumpLemmas::items_next, crate::proofs::DumpLemmas::items_wrong, crate::proofs::DumpLemmas::items_done))]
fn items_of(alloc: Global, mut words: Words<'_>) -> Result<Option<Vec<DumpItem>>, NoMemory>
    ensures some { IfOk result (λ found. IfSome found (λ items. items_from Ready words.entry ≡ Some items.items)) }
    ensures none { IfOk result (λ found. IfNone found (items_from Ready words.entry ≡ None)) }
{
    let mut items = Vec::new(alloc);
    while let Some(word) = words.next_word() {
        let Some(item) = item_from(word, &mut words) else {
            return Ok(None);
        };
        items.push(item)?;
    }
    Ok(Some(items))
}

/// The dump that words are, without the first. They are read twice, so that memory is wanted for a dump alone.
pub fn dump_of(alloc: Global, words: Words<'_>) -> Result<Option<Reply>, NoMemory>
    ensures reply { IfOk result (λ reply. reply ≡ dump_of words.entry) }
    ensures memory { OnErr result (IsSome (dump_of words.entry)) }
{
    if !is_dump(words.copy()) {
        return Ok(None);
    }
    match items_of(alloc, words)? {
        Some(items) => Ok(Some(Reply::Dump(Dump::new(alloc, items)?))),
        None => Ok(None),
    }
}
