//! What steps tell a log: each reads the table before its step, and what became of it after.
//!
//! For a log that keeps deeds the sweep takes a slot at a time, and no batch is marked. A cycle that starts tells
//! `Start`, and then that it enters the roots.
ghost use Rattle.std.specs.Prelude.{◌≡◌, ◌<◌, option_map, length};
ghost use Rattle.mh_model.specs.{Pages.{page_number, page_at, block_at}, Table.{target_of, LeadsOn}};
ghost use Rattle.mh_model.specs.Collector.{swept_table, next_place, flagged_page};
ghost use Rattle.mh_model.specs.Deeds.{slot_fate, page_deeds, sweep_deeds, defrag_deeds, enter_deeds};
ghost use Rattle.mh_deeds.specs.Logs.{Told};
ghost use Rattle.mh_defrag.specs.Moves.{IsTarget};

use mh_blocks::blocks::Blocks;
use mh_deeds::log::Log;
use mh_mark::mark::name_of;
use mh_model::cycle::Phase;
use mh_model::deed::{Deed, Fate};
use mh_model::place::Place;
use mh_sweep::sweep::sweep_step;

/// Where a reference leads.
pub(crate) fn target_of(blocks: &Blocks, reference: Option<Place>) -> Option<Place>
    requires { LeadsOn blocks.now reference }
    ensures { result ≡ target_of blocks.now reference }
{
    Some(blocks.resolve(reference?))
}

/// What the sweep does with a slot.
fn fate(blocks: &Blocks, cycle: u64, place: Place) -> Fate
    ensures { result ≡ slot_fate cycle (block_at blocks.now place) }
{
    if !blocks.is_taken(place) {
        return Fate::Empty;
    }
    if let Some(target) = blocks.forward(place) {
        return Fate::FreedForwarder(target);
    }
    let name = name_of(blocks, place);
    if blocks.is_marked(place, cycle) {
        Fate::Kept(name)
    } else {
        Fate::Freed(name)
    }
}

/// Tells what became of a page in use as one of its slots was swept.
pub(crate) fn tell_page<L: Log>(blocks: &Blocks, page: usize, was_flagged: bool, log: &mut L)
    requires { page < length blocks.now }
    ensures { Told L.has log.old (page_deeds page was_flagged (page_at blocks.now page)) log.new }
{
    if blocks.class_at(page).is_none() {
        log.tell(Deed::FreePage { page });
        return;
    }
    let is_flagged = blocks.is_flagged(page);
    if is_flagged && !was_flagged {
        log.tell(Deed::FlagPage { page });
    } else if was_flagged && !is_flagged {
        log.tell(Deed::UnflagPage { page });
    }
}

/// Sweeps one slot of a page in use, or passes one free page. Answers the place of the next step.
pub(crate) fn sweep_told<L: Log>(
    blocks: &mut Blocks,
    cycle: u64,
    place: Place,
    log: &mut L,
) -> Place
    requires { page_number place < length blocks.old }
    ensures table { blocks.new ≡ swept_table cycle blocks.old place }
    ensures next { result ≡ next_place place (page_at blocks.old (page_number place)) }
    ensures told { Told L.has log.old (sweep_deeds cycle blocks.old place (page_at blocks.old (page_number place))) log.new }
{
    let page = place.page();
    if blocks.class_at(page).is_none() {
        log.tell(Deed::Pass { page });
        return sweep_step(blocks, cycle, place);
    }
    let was_flagged = blocks.is_flagged(page);
    let fate = fate(blocks, cycle, place);
    log.tell(Deed::Sweep { place, fate });
    let next = sweep_step(blocks, cycle, place);
    tell_page(blocks, page, was_flagged, log);
    next
}

/// The size of the class of a page, if it is in use and flagged.
fn flagged_size(blocks: &Blocks, place: Place) -> Option<usize>
    requires { page_number place < length blocks.now }
    ensures { result ≡ option_map (λ page. page.class_size) (flagged_page blocks.now place) }
{
    let page = place.page();
    if !blocks.is_flagged(page) {
        return None;
    }
    Some(blocks.class_at(page)?.size())
}

/// Tells what the step of defragmentation at a place does.
pub(crate) fn tell_slot<L: Log>(
    blocks: &Blocks,
    place: Place,
    target: Option<Place>,
    has_moved: bool,
    log: &mut L,
)
    requires inside { page_number place < length blocks.now }
    requires target { IsTarget blocks.now place target }
    ensures { Told L.has log.old (defrag_deeds has_moved blocks.now place (flagged_page blocks.now place)) log.new }
{
    if log.is_silent() {
        return;
    }
    let Some(class_size) = flagged_size(blocks, place) else {
        let page = place.page();
        log.tell(Deed::Pass { page });
        return;
    };
    let Some(to) = target else {
        log.tell(Deed::Stay { place });
        return;
    };
    let name = name_of(blocks, place);
    log.tell(Deed::Move {
        place,
        to,
        name,
        class_size,
    });
    if !has_moved {
        log.tell(Deed::ForwardRoots);
    }
}

/// Tells the phase that a step entered, if that is another one, or the end of the cycle.
pub(crate) fn tell_phase<L: Log>(before: Phase, after: Phase, log: &mut L)
    ensures { Told L.has log.old (enter_deeds before after) log.new }
{
    match (before, after) {
        (Phase::Roots, Phase::Mark)
        | (Phase::Roots | Phase::Mark, Phase::Sweep)
        | (Phase::Sweep, Phase::Defrag) => log.tell(Deed::Enter { phase: after }),
        (Phase::Defrag, Phase::Idle) => log.tell(Deed::End),
        _ => {}
    }
}
