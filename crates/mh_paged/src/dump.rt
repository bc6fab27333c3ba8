//! The blocks of the table in order, as a dump has them.
ghost use Rattle.std.specs.Prelude.{◌≡◌, ◌<◌, ◌++◌, IsSome, IfSome, IfOk, Some, length};
ghost use Rattle.mh_model.specs.Pages.{slot_number, page_at, block_at, class_at, HaveTheirSlots};
ghost use Rattle.mh_model.specs.Machine.{dump_block, dump_slots, dump_pages};
ghost use Rattle.mh_paged.specs.Auxiliary.{slots_at, page_items};

use mh_blocks::blocks::Blocks;
use mh_classes::class::Class;
use mh_model::dump::{Dump, DumpItem};
use mh_model::limits::PLACES;
use mh_model::memory::NoMemory;
use mh_model::place::Place;
use std::alloc::Global;
/// What a dump says of the block at a place.
fn block_item(blocks: &Blocks, place: Place) -> DumpItem
    requires { IsSome (block_at blocks.now place) }
    ensures { IfSome (block_at blocks.now place) (λ block. result ≡ dump_block (slot_number place) block block.forward) }
{
    let slot = place.slot() as u64;
    match blocks.forward(place) {
        None => DumpItem::Block {
            slot,
            birth: blocks.birth(place).0,
            part: blocks.part(place) as u64,
        },
        Some(copy) => DumpItem::Forwarder {
            slot,
            to_page: copy.page() as u64,
            to_slot: copy.slot() as u64,
        },
    }
}

/// Adds the blocks of a page in use.
fn add_slots(
    items: &mut Vec<DumpItem>,
    blocks: &Blocks,
    page: usize,
    class: Class,
) -> Result<(), NoMemory>
    requires class { class_at blocks.now page ≡ Some class }
    requires few { page < 4096 }
    requires slots { HaveTheirSlots blocks.now }
    ensures { IfOk result (λ done. items.new.items ≡ items.old.items ++ dump_slots 0 (slots_at blocks.now page)) }
{
    for slot in 0..class.slots() {
        let place = Place(PLACES * page + slot);
        if blocks.is_taken(place) {
            items.push(block_item(blocks, place))?;
        }
    }
    Ok(())
}

/// Adds a page in use with its blocks.
fn add_page(items: &mut Vec<DumpItem>, blocks: &Blocks, page: usize) -> Result<(), NoMemory>
    requires { page < length blocks.now }
    ensures { IfOk result (λ done. items.new.items ≡ items.old.items ++ page_items page (page_at blocks.now page)) }
{
    // Its contract bounds the number of pages, and says that each has the slots of its class.
    let _ = blocks.len();
    let Some(class) = blocks.class_at(page) else {
        return Ok(());
    };
    items.push(DumpItem::Page {
        page: page as u64,
        class_size: class.size() as u64,
        is_flagged: blocks.is_flagged(page),
    })?;
    add_slots(items, blocks, page, class)
}

/// All pages in use, each with its blocks.
pub(crate) fn dump(alloc: Global, blocks: &Blocks) -> Result<Dump, NoMemory>
    ensures { IfOk result (λ dump. dump ≡ dump_pages 0 blocks.now) }
{
    let mut items = Vec::new(alloc);
    for page in 0..blocks.len() {
        add_page(&mut items, blocks, page)?;
    }
    Dump::new(alloc, items)
}
