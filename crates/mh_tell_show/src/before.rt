//! What a page begins with: the heap before its first event, and where the collector was. The blocks are those of the
//! table, page by page and slot by slot. From them and the deeds after them the map of each moment is drawn, so a page
//! needs no event before its first.
ghost use Rattle.std.specs.Prelude.{◌≡◌, ◌<◌, ◌++◌, ◌∷◌, IsSome, IfSome, None, Some, OnOk, codes, decimal, flat_map, length, replicate};
ghost use Rattle.std.specs.String.{string_bytes};
ghost use Rattle.mh_model.specs.{Limits.root_slots, Pages.{HaveTheirSlots, block_at, class_at, page_at}};
ghost use Rattle.mh_tell_show.specs.Before.{before_row, before_text, block_row, cursor_number, page_rows, slot_rows, table_rows};
ghost use Rattle.mh_tell_show.specs.{Auxiliary.slots_at, Cursor.cursor_of, Rows.{listed, root_rows, row_text}};

use crate::event::push_roots;
use crate::rows::{place_number, push_row};
use mh_blocks::blocks::Blocks;
use mh_classes::class::Class;
use mh_machine::machine::Machine;
use mh_model::cycle::Phase;
use mh_model::limits::{PLACES, ROOT_SLOTS};
use mh_model::memory::NoMemory;
use mh_model::place::Place;
use mh_paged::kept::KeptHeap;
use mh_tell_steps::fields::push_decimal;

/// Adds the row of the block at a place.
fn push_block(text: &mut String, blocks: &Blocks, place: Place) -> Result<(), NoMemory>
    requires { IsSome (block_at blocks.now place) }
    ensures { IfSome (block_at blocks.now place) (λ block. OnOk result (string_bytes text.new ≡ string_bytes text.old ++ (row_text (block_row place block) ++ codes ","))) }
{
    push_row(
        text,
        place.0 as u64,
        &[
            Some(blocks.birth(place).0),
            Some(blocks.part(place) as u64),
            Some(blocks.stamp(place)),
            place_number(blocks.forward(place)),
            Some(blocks.reference_count(place) as u64),
            Some(blocks.number_count(place) as u64),
        ],
    )?;
    text.push_str(",")?;
    Ok(())
}

/// Adds the rows of the blocks of a page in use.
fn push_slots(text: &mut String, blocks: &Blocks, page: usize, class: Class) -> Result<(), NoMemory>
    requires class { class_at blocks.now page ≡ Some class }
    requires few { page < 4096 }
    requires slots { HaveTheirSlots blocks.now }
    ensures { OnOk result (string_bytes text.new ≡ string_bytes text.old ++ flat_map (λ row. row_text row ++ codes ",") (slot_rows page 0 (slots_at blocks.now page))) }
{
    for slot in 0..class.slots() {
        let place = Place(PLACES * page + slot);
        if blocks.is_taken(place) {
            push_block(text, blocks, place)?;
        }
    }
    Ok(())
}

/// Adds the rows of a page, if it is in use.
fn push_page(text: &mut String, blocks: &Blocks, page: usize) -> Result<(), NoMemory>
    requires { page < length blocks.now }
    ensures { OnOk result (string_bytes text.new ≡ string_bytes text.old ++ flat_map (λ row. row_text row ++ codes ",") (page_rows page (page_at blocks.now page))) }
{
    // Its contract bounds the number of pages, and says that each has the slots of its class.
    let _ = blocks.len();
    let Some(class) = blocks.class_at(page) else {
        return Ok(());
    };
    let flag = u64::from(blocks.is_flagged(page));
    push_row(text, page as u64, &[Some(class.size() as u64), Some(flag)])?;
    text.push_str(",")?;
    push_slots(text, blocks, page, class)
}

/// Adds the rows of all pages in use, each with its blocks.
fn push_table(text: &mut String, blocks: &Blocks) -> Result<(), NoMemory>
    ensures { OnOk result (string_bytes text.new ≡ string_bytes text.old ++ listed row_text (table_rows 0 blocks.now)) }
{
    text.push_str("[")?;
    for page in 0..blocks.len() {
        push_page(text, blocks, page)?;
    }
    text.push_str("0]")?;
    Ok(())
}

/// Adds the grey list.
fn push_greys(text: &mut String, heap: &KeptHeap) -> Result<(), NoMemory>
    ensures { OnOk result (string_bytes text.new ≡ string_bytes text.old ++ listed decimal heap.now.collector.grey) }
{
    text.push_str("[")?;
    for index in 0..heap.grey_count() {
        let place = heap.grey_at(index);
        push_decimal(text, place.0 as u128)?;
        text.push_str(",")?;
    }
    text.push_str("0]")?;
    Ok(())
}

/// Where the cursor of a collector stands, if it has one.
fn cursor_number(heap: &KeptHeap) -> Option<u64>
    ensures { result ≡ cursor_number (cursor_of heap.now.collector) }
{
    match heap.phase() {
        Phase::Idle | Phase::Mark => None,
        Phase::Roots | Phase::Sweep | Phase::Defrag => Some(heap.cursor() as u64),
    }
}

/// Adds how many events were before, their units, and where the collector was.
fn push_before_row(text: &mut String, number: u64, machine: &Machine) -> Result<(), NoMemory>
    ensures { OnOk result (string_bytes text.new ≡ string_bytes text.old ++ row_text (before_row number machine.now.machine)) }
{
    let trace = machine.trace();
    let heap = &machine.heap().kept;
    push_row(
        text,
        number,
        &[
            Some(trace.mutator_count()),
            Some(trace.collector_count()),
            Some(heap.cycle_number()),
            Some(heap.phase().number()),
            cursor_number(heap),
            Some(u64::from(heap.is_asked())),
        ],
    )
}

/// Adds the roots that aren't empty.
fn push_first_roots(text: &mut String, roots: &[Option<Place>; ROOT_SLOTS]) -> Result<(), NoMemory>
    ensures { OnOk result (string_bytes text.new ≡ string_bytes text.old ++ listed row_text (root_rows 0 (replicate root_slots None) roots.now)) }
{
    push_roots(text, &[None; ROOT_SLOTS], roots)
}

/// Adds what was there after so many events. After an error the text may end with a part of it.
pub(crate) fn push_before(text: &mut String, number: u64, machine: &Machine) -> Result<(), NoMemory>
    ensures { OnOk result (string_bytes text.new ≡ string_bytes text.old ++ before_text number machine.now.machine) }
{
    let heap = &machine.heap().kept;
    text.push_str(",\"before\":")?;
    push_before_row(text, number, machine)?;
    text.push_str(",\"heap\":")?;
    push_table(text, heap.blocks())?;
    text.push_str(",\"grey\":")?;
    push_greys(text, heap)?;
    text.push_str(",\"roots\":")?;
    push_first_roots(text, heap.roots())?;
    Ok(())
}
