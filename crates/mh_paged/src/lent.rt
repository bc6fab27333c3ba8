//! What commands do with the table and the roots that the collector lends: each function opens it once.
//!
//! The collector owns both, and its barriers need it whole. So a command borrows them for one deed at a time, and its
//! proof sees the collector as one value before and after.
ghost use Rattle.std.specs.Prelude.{◌≡◌, ◌^◌, ◌<◌, ◌≤◌, ◌+◌, Some, None, IsSome, IfOk, OnOk, OnErr, get_or, length, option_map, filter, not};
ghost use Rattle.mh_model.specs.{Classes.parts, Pages.{block_at, free_pages, Leads}};
ghost use Rattle.mh_model.specs.Table.{references_at, numbers_at, forward_at, position_of, reference_in, loaded_reference, number_index, number_in, made_group, is_forwarder};
ghost use Rattle.mh_model.specs.{Deeds.make_deeds, Machine.{blocks_of, dump_pages}};
ghost use Rattle.mh_model.specs.Mutator.{with_root, with_reference_stored, with_number_stored, with_roots_cleared};
ghost use Rattle.mh_model.specs.{Invariant.{IsFindable, IsSteady}, Limits.root_slots};
ghost use Rattle.mh_deeds.specs.Logs.{Told};
ghost use Rattle.mh_cycle.specs.State.{state_with_collector};

use crate::dump::dump;
use mh_blocks::blocks::Full;
use mh_classes::parts::Parts;
use mh_cycle::cycle::Cycle;
use mh_deeds::log::Log;
use mh_groups::field::{Position, load_int, load_ref, position, store_int};
use mh_groups::group::{PartPlaces, make_group};
use mh_laws::barriers::roots_written_keep_the_snapshot;
use mh_laws::commands::commands_are_answered;
use mh_laws::tables::making_keeps_the_pages;
use mh_model::birth::Birth;
use mh_model::dump::Dump;
use mh_model::memory::NoMemory;
use mh_model::place::Place;
use mh_model::shape::Shape;
use std::alloc::Global;

/// What a root holds.
pub(crate) fn root(cycle: &Cycle, slot: usize) -> Option<Place>
    requires { slot < root_slots }
    ensures { result ≡ get_or cycle.now.collector.slots slot None }
{
    cycle.roots.get(slot)
}

/// How many fields the object at a place has.
pub(crate) fn shape_of(cycle: &Cycle, place: Place) -> Shape
    requires { IsSome (block_at cycle.now.collector.table place) }
    ensures { option_map (λ block. block.header) (block_at cycle.now.collector.table place) ≡ Some result }
{
    cycle.blocks.header(place)
}

/// Where a field of the object at a place lies.
pub(crate) fn place_of(cycle: &Cycle, place: Place, field: usize) -> Position
    requires { IsFindable cycle.now.collector.table place field }
    ensures { result ≡ position_of cycle.now.collector.table place field }
{
    position(&cycle.blocks, place, field)
}

/// Where the reference in a field leads.
pub(crate) fn loaded(cycle: &Cycle, place: Place, field: usize) -> Option<Place>
    requires findable { IsFindable cycle.now.collector.table place field }
    requires within { (position_of cycle.now.collector.table place field).index < length (references_at cycle.now.collector.table (position_of cycle.now.collector.table place field).place) }
    requires leads { Leads cycle.now.collector.table (reference_in cycle.now.collector.table (position_of cycle.now.collector.table place field)) }
    ensures { result ≡ loaded_reference cycle.now.collector.table (position_of cycle.now.collector.table place field) }
{
    load_ref(&cycle.blocks, place, field)
}

/// The number in a field.
pub(crate) fn number(cycle: &Cycle, place: Place, field: usize) -> u64
    requires findable { IsFindable cycle.now.collector.table place field }
    requires after { length (references_at cycle.now.collector.table (position_of cycle.now.collector.table place field).place) ≤ (position_of cycle.now.collector.table place field).index }
    requires within { number_index cycle.now.collector.table (position_of cycle.now.collector.table place field) < length (numbers_at cycle.now.collector.table (position_of cycle.now.collector.table place field).place) }
    ensures { result ≡ number_in cycle.now.collector.table (position_of cycle.now.collector.table place field) }
{
    load_int(&cycle.blocks, place, field)
}

/// Overwrites a root, after its barrier.
pub(crate) fn write_root(cycle: &mut Cycle, slot: usize, reference: Option<Place>)
    requires within { slot < root_slots }
    requires steady { IsSteady cycle.old.collector }
    ensures { cycle.new ≡ state_with_collector cycle.old (with_root cycle.old.collector slot reference) }
{
    cycle.before_root(slot);
    cycle.roots.set(slot, reference);
}

/// Overwrites a reference, after its barrier.
pub(crate) fn write_reference(cycle: &mut Cycle, at: Position, reference: Option<Place>)
    requires steady { IsSteady cycle.old.collector }
    requires there { at.index < length (references_at cycle.old.collector.table at.place) }
    requires original { forward_at cycle.old.collector.table at.place ≡ None }
    requires leads { Leads cycle.old.collector.table reference }
    ensures { cycle.new ≡ state_with_collector cycle.old (with_reference_stored cycle.old.collector at reference) }
{
    cycle.before_field(at.place, at.index);
    cycle.blocks.store_ref(at.place, at.index, reference);
}

/// Overwrites a number of the object at a place.
pub(crate) fn write_number(cycle: &mut Cycle, place: Place, field: usize, number: u64)
    requires findable { IsFindable cycle.old.collector.table place field }
    requires after { length (references_at cycle.old.collector.table (position_of cycle.old.collector.table place field).place) ≤ (position_of cycle.old.collector.table place field).index }
    requires within { number_index cycle.old.collector.table (position_of cycle.old.collector.table place field) < length (numbers_at cycle.old.collector.table (position_of cycle.old.collector.table place field).place) }
    ensures { cycle.new ≡ state_with_collector cycle.old (with_number_stored cycle.old.collector (position_of cycle.old.collector.table place field) number) }
{
    store_int(&mut cycle.blocks, place, field, number);
}

/// Makes all parts of an object of this shape, or none. The log gets where they were placed.
pub(crate) fn make_parts<L: Log>(
    cycle: &mut Cycle,
    places: &mut PartPlaces,
    shape: Shape,
    all: &Parts,
    birth: Birth,
    log: &mut L,
) -> Result<Place, Full>
    requires birth { birth < 2 ^ 62 }
    requires parts { all.now ≡ parts shape.references shape.numbers }
    ensures made { IfOk result (λ place. made_group cycle.old.collector.table birth cycle.old.collector.cycle all.now ≡ Some (record { place = place; table = cycle.new.collector.table })) }
    ensures table { cycle.new ≡ state_with_collector cycle.old (record (cycle.old.collector) { table = cycle.new.collector.table }) }
    ensures full { OnErr result (made_group cycle.old.collector.table birth cycle.old.collector.cycle all.now ≡ None) }
    ensures unchanged { OnErr result (cycle.new ≡ cycle.old) }
    ensures told { OnOk result (Told L.has log.old (make_deeds cycle.old.collector.table birth cycle.old.collector.cycle 0 all.now) log.new) }
    ensures quiet { OnErr result (log.new ≡ log.old) }
{
    making_keeps_the_pages();
    let stamp = cycle.cycle_number();
    make_group(&mut cycle.blocks, places, all, birth, stamp, log)
}

/// Empties 16 roots in order, each after its barrier.
pub(crate) fn clear_roots(cycle: &mut Cycle, first: usize)
    requires within { first + 16 ≤ root_slots }
    requires steady { IsSteady cycle.old.collector }
    ensures { cycle.new ≡ state_with_collector cycle.old (with_roots_cleared cycle.old.collector first 16) }
{
    roots_written_keep_the_snapshot();
    commands_are_answered();
    for slot in first..first + 16 {
        write_root(cycle, slot, None);
    }
}

/// How many blocks aren't forwarders.
pub(crate) fn live_count(cycle: &Cycle) -> u64
    ensures { result ≡ length (filter (λ block. not (is_forwarder block)) (blocks_of cycle.now.collector.table)) }
{
    cycle.blocks.block_count() - cycle.blocks.forwarder_count()
}

/// How many forwarders there are.
pub(crate) fn forwarder_count(cycle: &Cycle) -> u64
    ensures { result ≡ length (filter is_forwarder (blocks_of cycle.now.collector.table)) }
{
    cycle.blocks.forwarder_count()
}

/// How many pages are free.
pub(crate) fn free_pages(cycle: &Cycle) -> usize
    ensures { result ≡ free_pages cycle.now.collector.table }
{
    cycle.blocks.free_pages()
}

/// All pages in use with their blocks.
pub(crate) fn dump_table(alloc: Global, cycle: &Cycle) -> Result<Dump, NoMemory>
    ensures { IfOk result (λ dump. dump ≡ dump_pages 0 cycle.now.collector.table) }
{
    dump(alloc, &cycle.blocks)
}
