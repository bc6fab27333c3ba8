//! Steps of defragmentation. The target to which a step moves its block, if it moves one, and what the step costs are
//! the model's. So is the step itself, on the table and for the place of the next step. `still_run` finds next steps
//! that move no block, how many they are, and where the step after them is.
//!
//! The root slots are the caller's. `mh_cycle` forwards them once a quantum, and not at each move. By the contract of
//! `Cycle::quantum` each quantum as a whole equals the definition, in which each move forwards them. Steps are
//! functions over the table and no type of their own, since all that they go on from is the collector's cursor.
ghost use Rattle.std.specs.Prelude.{ℕ, ◌≡◌, ◌+◌, ◌<◌, ◌≤◌, true, None, Some, length};
ghost use Rattle.mh_model.specs.Pages.{page_number, slot_number, class_at, flag_at};
ghost use Rattle.mh_model.specs.Collector.{next_move, move_cost, next_place, flagged_page};
ghost use Rattle.mh_defrag.specs.{Moves.{IsTarget, moved, AreStill}, Auxiliary.AreUnflagged};

use mh_blocks::blocks::Blocks;
use mh_classes::class::Class;
use mh_model::limits::{PLACES, ROOT_SLOTS};
use mh_model::place::Place;

/// Steps that move no block: how many they are, and the place of the step after them.
#[derive(Clone, Copy)]
pub struct Still {
    pub count: usize,
    pub next: Place,
}

/// Where the block at a place moves, if the step at this place moves one.
pub fn next_target(blocks: &Blocks, place: Place) -> Option<Place>
    requires { page_number place < length blocks.now }
    ensures { IsTarget blocks.now place result }
{
    let page = place.page();
    let class = blocks.class_at(page)?;
    if !blocks.is_flagged(page) || !blocks.is_taken(place) || blocks.forward(place).is_some() {
        return None;
    }
    blocks.place_dense(class)
}

/// What the step at a place costs, by whether the quantum has moved a block.
pub fn cost(blocks: &Blocks, place: Place, target: Option<Place>, has_moved: bool) -> u64
    requires inside { page_number place < length blocks.now }
    requires target { IsTarget blocks.now place target }
    ensures { result ≡ move_cost has_moved (next_move blocks.now place) }
{
    if target.is_none() {
        return 1;
    }
    let Some(class) = blocks.class_at(place.page()) else {
        return 1;
    };
    let words = class.size() as u64;
    if has_moved {
        1 + words
    } else {
        1 + words + ROOT_SLOTS as u64
    }
}

/// How many pages are unflagged one after the other from one on, but no more than are asked for. Each is passed by one
/// step.
fn unflagged_run(blocks: &Blocks, first: usize, most: usize) -> usize
    requires inside { first ≤ length blocks.now }
    ensures unflagged { AreUnflagged blocks.now first result }
    ensures few { result ≤ most }
    ensures inside { first + result ≤ length blocks.now }
    ensures all { result < most → first + result < length blocks.now → flag_at blocks.now (first + result) ≡ true }
{
    let most = most.min(blocks.len() - first);
    for count in 0..most {
        if blocks.is_flagged(first + count) {
            return count;
        }
    }
    most
}

/// How many slots of a page from one on have no block that can move, but no more than are asked for. None can while the
/// unflagged pages of the class have no room.
fn still_count(blocks: &Blocks, place: Place, class: Class, most: usize) -> usize
    requires inside { page_number place < length blocks.now }
    requires class { class_at blocks.now (page_number place) ≡ Some class }
    requires few { slot_number place + most ≤ 64 }
    ensures still { (k : ℕ) → k < result → next_move blocks.now (place + k) ≡ None }
    ensures few { result ≤ most }
{
    if blocks.place_dense(class).is_none() {
        return most;
    }
    let taken = blocks.taken_slots(place.page()) >> place.slot();
    most.min(taken.trailing_zeros() as usize)
}

/// The steps in a flagged page from a place on that move no block, but no more than are asked for.
fn still_slots(blocks: &Blocks, place: Place, most: usize) -> Still
    requires inside { page_number place < length blocks.now }
    requires flagged { flag_at blocks.now (page_number place) ≡ true }
    ensures still { AreStill blocks.now place result.count result.next }
    ensures few { result.count ≤ most }
{
    // Its contract bounds the number of pages, and gives each the slots of its class.
    let _ = blocks.len();
    let page = place.page();
    let slot = place.slot();
    let Some(class) = blocks.class_at(page) else {
        return Still {
            count: 0,
            next: place,
        };
    };
    let slots = class.slots();
    if slot >= slots {
        return Still {
            count: 0,
            next: place,
        };
    }
    let count = still_count(blocks, place, class, most.min(slots - slot));
    if slot + count != slots {
        return Still {
            count,
            next: Place(place.0 + count),
        };
    }
    Still {
        count,
        next: Place(PLACES * (page + 1)),
    }
}

/// The next steps that move no block, but no more than are asked for: those that pass unflagged pages, or slots of a
/// flagged page.
pub fn still_run(blocks: &Blocks, place: Place, most: usize) -> Still
    requires inside { page_number place < length blocks.now }
    ensures still { AreStill blocks.now place result.count result.next }
    ensures few { result.count ≤ most }
{
    // Its contract bounds the number of pages.
    let _ = blocks.len();
    let page = place.page();
    if blocks.is_flagged(page) {
        return still_slots(blocks, place, most);
    }
    let count = unflagged_run(blocks, page, most);
    if count == 0 {
        return Still {
            count: 0,
            next: place,
        };
    }
    Still {
        count,
        next: Place(PLACES * (page + count)),
    }
}

/// The place of the next step.
fn next_place(blocks: &Blocks, place: Place) -> Place
    requires { page_number place < length blocks.now }
    ensures { result ≡ next_place place (flagged_page blocks.now place) }
{
    // Its contract bounds the number of pages, and gives each the slots of its class.
    let _ = blocks.len();
    let page = place.page();
    let Some(class) = blocks.class_at(page) else {
        return Place(PLACES * (page + 1));
    };
    if blocks.is_flagged(page) && place.slot() + 1 != class.slots() {
        Place(place.0 + 1)
    } else {
        Place(PLACES * (page + 1))
    }
}

/// Takes the step at a place: its block moves to the target, if there is one. Root slots that held the place still do,
/// and are for the caller to forward. Answers the place of the next step, which may be past the last page.
pub fn step(blocks: &mut Blocks, place: Place, target: Option<Place>) -> Place
    requires inside { page_number place < length blocks.old }
    requires target { IsTarget blocks.old place target }
    ensures table { blocks.new ≡ moved blocks.old place (next_move blocks.old place) }
    ensures next { result ≡ next_place place (flagged_page blocks.old place) }
{
    let next = next_place(blocks, place);
    if let Some(target) = target {
        blocks.relocate(place, target);
    }
    next
}
