//! Steps of the sweep. One step is the model's, on the table and for the place of the next step. Several steps in one
//! page, or over free pages one after the other, are as many of the model's.
//!
//! They are functions over the table and no type of their own, since all that they go on from is the collector's
//! cursor. A quantum takes several at a time, and one that tells its deeds takes each by itself.
ghost use Rattle.std.specs.Prelude.{◌≡◌, ◌+◌, ◌<◌, ◌≤◌, Some, length};
ghost use Rattle.mh_model.specs.{Classes.slots_in, Pages.{page_number, page_at, class_at}};
ghost use Rattle.mh_model.specs.Collector.{swept_table, next_place};
ghost use Rattle.mh_sweep.specs.{Auxiliary.{slot_swept, stretch_end, judged, AreFree}, Swept.IsSweptTo};

use crate::slots::sweep_slots;
use mh_blocks::blocks::Blocks;
use mh_classes::class::Class;
use mh_model::limits::PLACES;
use mh_model::place::Place;
/// How far a sweep came: the place of its next step, and the steps that it took.
#[derive(Clone, Copy, Debug, PartialEq, Eq)]
pub struct Swept {
    pub next: Place,
    pub count: usize,
}

/// Frees the block at a place, if it is a forwarder or not marked.
fn sweep_slot(blocks: &mut Blocks, cycle: u64, place: Place)
    ensures { blocks.new ≡ slot_swept cycle blocks.old place }
{
    if !blocks.is_taken(place) {
        return;
    }
    if !blocks.is_forwarder(place) && blocks.is_marked(place, cycle) {
        return;
    }
    blocks.unmake(place, false);
}

/// Frees a page without blocks, and else sets its flag.
fn judge(blocks: &mut Blocks, page: usize, class: Class)
    requires inside { page < length blocks.old }
    requires class { class_at blocks.old page ≡ Some class }
    ensures { blocks.new ≡ judged blocks.old page }
{
    // Its contract says that each page has the slots of its class.
    let _ = blocks.len();
    let live = blocks.live_in(page);
    if live == 0 {
        blocks.free_page(page);
    } else if 4 * live <= class.slots() && blocks.has_denser(page, class) {
        blocks.flag(page);
    } else {
        blocks.unflag(page);
    }
}

/// Sweeps one slot of a page in use, or passes one free page. Answers the place of the next step, which may be past the last page.
pub fn sweep_step(blocks: &mut Blocks, cycle: u64, place: Place) -> Place
    requires { page_number place < length blocks.old }
    ensures table { blocks.new ≡ swept_table cycle blocks.old place }
    ensures next { result ≡ next_place place (page_at blocks.old (page_number place)) }
{
    // Its contract bounds the number of pages.
    let _ = blocks.len();
    let page = place.page();
    let Some(class) = blocks.class_at(page) else {
        return Place(PLACES * (page + 1));
    };
    sweep_slot(blocks, cycle, place);
    if place.slot() + 1 != class.slots() {
        return Place(place.0 + 1);
    }
    judge(blocks, page, class);
    Place(PLACES * (page + 1))
}

/// How many pages are free one after the other from one on, but no more than are asked for.
fn free_run(blocks: &Blocks, first: usize, most: usize) -> usize
    requires inside { first ≤ length blocks.now }
    ensures free { AreFree blocks.now first result }
    ensures few { result ≤ most }
    ensures inside { first + result ≤ length blocks.now }
{
    let most = most.min(blocks.len() - first);
    for count in 0..most {
        if blocks.class_at(first + count).is_some() {
            return count;
        }
    }
    most
}

/// The slot before which a stretch of a page ends that begins at a slot.
fn stretch_end(class: Class, slot: usize) -> usize
    requires { slot < 64 }
    ensures end { result ≡ stretch_end (slots_in class) slot }
    ensures inside { slot < result }
    ensures few { result ≤ 64 }
{
    let slots = class.slots();
    if slot < slots { slots } else { PLACES }
}

/// Takes steps in one page, as many as are asked for or up to its end. Of free pages it passes as many as are asked for
/// and stand one after the other.
pub fn sweep_page(blocks: &mut Blocks, cycle: u64, place: Place, most: usize) -> Swept
    requires inside { page_number place < length blocks.old }
    requires some { 0 < most }
    ensures swept { IsSweptTo cycle (record { table = blocks.old; place = place }) (record { table = blocks.new; place = result.next }) result.count }
    ensures few { result.count ≤ most }
    ensures far { result.count < most → page_number place < page_number result.next }
    ensures long { length blocks.new ≡ length blocks.old }
{
    // Its contract bounds the number of pages.
    let _ = blocks.len();
    let page = place.page();
    let Some(class) = blocks.class_at(page) else {
        let count = 1 + free_run(blocks, page + 1, most - 1);
        return Swept {
            next: Place(PLACES * (page + count)),
            count,
        };
    };
    let slot = place.slot();
    let count = most.min(stretch_end(class, slot) - slot);
    sweep_slots(blocks, cycle, place, count);
    if slot + count != class.slots() {
        return Swept {
            next: Place(place.0 + count),
            count,
        };
    }
    judge(blocks, page, class);
    Swept {
        next: Place(PLACES * (page + 1)),
        count,
    }
}
