//! Objects made with all their parts or not at all.
//!
//! An object is made with its parts linked. It is refused exactly when one of them finds no place after those before
//! it. Then the table is as it was, with the pages that the object took given back. An object of more than 64 parts is
//! refused before any part is made, if it has more full arraylets than there are places for.
//!
//! Making an object reports its parts in order, if that is asked: where each was placed, its class and its counts,
//! and the tier that found its place. A refused one reports nothing.
//!
//! `make_group` is given room for 3,661 places (`PartPlaces`), as many as an object has parts at most. The places of
//! its parts are kept there while the object is made. So it can be undone from the last part to the first, each with
//! the page that it took, and no memory is asked for. The parts are linked after all of them were made, as the
//! definition does.
ghost use Rattle.std.specs.Prelude.{◌≡◌, ◌<◌, ◌≤◌, ◌^◌, ◌&&◌, ℕ, nat_lt, true, IsSome, IfOk, OnOk, OnErr, Some, None, length, get_or, map, take, [], ◌∷◌};
ghost use Rattle.mh_model.specs.{Deeds.make_deeds, Pages.{page_number, block_at}};
ghost use Rattle.mh_model.specs.Table.{references_at, with_block_change, made_parts, linked_parts, made_group};
ghost use Rattle.mh_classes.specs.Fits.{AreParts};
ghost use Rattle.mh_pages.specs.FreePlaces.{free_places};
ghost use Rattle.mh_deeds.specs.Logs.{Told};
ghost use Rattle.mh_groups.specs.Auxiliary.{HaveTheirChildren, without_parts, AllCanBeUnmade, AreUnlinked, tier_at, part_deed, placed_deeds, full_count};

use mh_blocks::blocks::{Blocks, Full};
use mh_classes::class::Class;
use mh_classes::parts::{Part, Parts};
use mh_deeds::log::Log;
use mh_model::birth::Birth;
use mh_model::deed::{Deed, PartName, Tier};
use mh_model::limits::{MOST_PARTS, RUN};
use mh_model::memory::NoMemory;
use mh_model::place::Place;
use mh_model::shape::Shape;
use std::alloc::Global;
use std::marker::Model;

/// The words of a block of the largest class.
const LARGEST: usize = 64;

/// Objects of more parts are not begun before their room is counted.
const MANY_PARTS: usize = 64;

/// Room for the places of the parts of one object, taken once, so that making an object takes no memory.
#[derive(Drop)]
pub struct PartPlaces {
    places: Vec<Place>,
    /// Whether the page of each was free before.
    fresh: Vec<bool>,
}

impl Model for PartPlaces {
    ghost use Rattle.std.specs.Prelude.{◌≡◌, length};

    ghost Value = { Unit {0} };

    ghost view = { λ _. tt };

    ghost invariant = { λ room. (length room.places.items ≡ 3661) × (length room.fresh.items ≡ 3661) };
}

impl PartPlaces {
    /// Room for the parts of the largest object.
    pub fn open(alloc: Global) -> Result<PartPlaces, NoMemory> {
        Ok(PartPlaces {
            places: Vec::from_elem(alloc, Place(0), MOST_PARTS)?,
            fresh: Vec::from_elem(alloc, false, MOST_PARTS)?,
        })
    }
}

/// How many parts have 60 fields of their own: all arraylets but the last, which may have fewer.
fn full_parts(parts: &Parts) -> usize
    requires { AreParts parts.now }
    ensures { result ≡ full_count parts.now }
{
    let object = parts.get(0).header();
    ((object.references + object.numbers) / RUN) as usize
}

/// Whether an object of many parts has more full ones than there are places for. Then it is refused before any part is
/// made, since making thousands of parts and taking them back is slow. Objects of few parts cost nothing more.
fn lacks_room(blocks: &Blocks, parts: &Parts) -> bool
    ensures lacks { result ≡ (nat_lt 64 (length parts.now) && nat_lt (free_places blocks.now 64) (full_count parts.now)) }
    ensures refused { result ≡ true → (birth : ℕ) → (stamp : ℕ) → made_group blocks.now birth stamp parts.now ≡ None }
{
    if parts.count() <= MANY_PARTS {
        return false;
    }
    blocks.free_places(Class::of_size(LARGEST)) < full_parts(parts)
}

/// Takes back so many parts, from the last to the first.
fn unmake_parts(blocks: &mut Blocks, places: &[Place], fresh: &[bool], count: usize)
    requires can { AllCanBeUnmade blocks.old places.now fresh.now count }
    requires places { count ≤ length places.now }
    requires fresh { count ≤ length fresh.now }
    ensures { blocks.new ≡ without_parts blocks.old places.now fresh.now count }
{
    for index in (0..count).rev() {
        blocks.unmake(places[index], fresh[index]);
    }
}

/// Makes the parts in order, and keeps their places. If one finds none, those before it are taken back.
fn make_parts(
    blocks: &mut Blocks,
    places: &mut [Place],
    fresh: &mut [bool],
    parts: &Parts,
    birth: Birth,
    stamp: u64,
) -> Result<(), Full>
    requires birth { birth < 2 ^ 62 }
    requires places { length places.old ≡ 3661 }
    requires fresh { length fresh.old ≡ 3661 }
    ensures made { OnOk result (made_parts blocks.old birth stamp 0 parts.now ≡ Some (record { places = take (length parts.now) places.new; table = blocks.new })) }
    ensures unlinked { OnOk result (AreUnlinked blocks.new places.new parts.now 0) }
    ensures told { OnOk result (make_deeds blocks.old birth stamp 0 parts.now ≡ placed_deeds blocks.new birth places.new fresh.new 0 parts.now) }
    ensures full { OnErr result (made_parts blocks.old birth stamp 0 parts.now ≡ None) }
    ensures unchanged { OnErr result (blocks.new ≡ blocks.old) }
{
    for index in 0..parts.count() {
        let part = parts.get(index);
        let Some(place) = blocks.place(part.class()) else {
            unmake_parts(blocks, places, fresh, index);
            return Err(Full);
        };
        places[index] = place;
        fresh[index] = blocks.class_at(place.page()).is_none();
        blocks.make_at(place, part, index, birth, stamp);
    }
    Ok(())
}

/// Writes the places of a part's children as its references.
fn link_children(blocks: &mut Blocks, place: Place, children: &[Place])
    requires there { IsSome (block_at blocks.old place) }
    requires count { length (references_at blocks.old place) ≡ length children.now }
    requires children { (index : ℕ) → index < length children.now → IsSome (block_at blocks.old (get_or children.now index 0)) }
    ensures { blocks.new ≡ with_block_change blocks.old place (λ block. record block { references = map Some children.now }) }
{
    for (index, child) in children.iter().enumerate() {
        blocks.store_ref(place, index, Some(*child));
    }
}

/// Links each part to its children.
fn link_parts(blocks: &mut Blocks, places: &[Place], parts: &Parts)
    requires count { length places.now ≡ length parts.now }
    requires children { HaveTheirChildren parts.now }
    requires unlinked { AreUnlinked blocks.old places.now parts.now 0 }
    ensures { blocks.new ≡ linked_parts places.now blocks.old places.now parts.now }
{
    for index in 0..parts.count() {
        let part = parts.get(index);
        let Some(first) = part.first_child() else {
            // The spines come first, and no other part has children.
            return;
        };
        link_children(
            blocks,
            places[index],
            &places[first..first + part.references()],
        );
    }
}

/// The tier that found a place.
fn tier_at(blocks: &Blocks, place: Place, is_fresh: bool) -> Tier
    requires { page_number place < length blocks.now }
    ensures { result ≡ tier_at blocks.now place is_fresh }
{
    if is_fresh {
        Tier::Fresh
    } else if blocks.is_flagged(place.page()) {
        Tier::Sparse
    } else {
        Tier::Dense
    }
}

/// Tells that a part was placed.
fn tell_part<L: Log>(log: &mut L, name: PartName, part: Part, place: Place, tier: Tier)
    ensures { Told L.has log.old (part_deed name.birth name.part part place tier ∷ []) log.new }
{
    let class_size = part.class().size();
    let fields = Shape {
        references: part.references() as u32,
        numbers: part.numbers() as u32,
    };
    log.tell(Deed::Make {
        place,
        name,
        class_size,
        fields,
        tier,
    });
}

/// Tells where all parts were placed, in order.
fn tell_parts<L: Log>(
    blocks: &Blocks,
    places: &[Place],
    fresh: &[bool],
    parts: &Parts,
    birth: Birth,
    log: &mut L,
)
    requires places { length parts.now ≤ length places.now }
    requires fresh { length parts.now ≤ length fresh.now }
    requires there { (number : ℕ) → number < length parts.now → IsSome (block_at blocks.now (get_or places.now number 0)) }
    ensures { Told L.has log.old (placed_deeds blocks.now birth places.now fresh.now 0 parts.now) log.new }
{
    let count = parts.count();
    for index in 0..count {
        let name = PartName { birth, part: index };
        let place = places[index];
        let tier = tier_at(blocks, place, fresh[index]);
        tell_part(log, name, parts.get(index), place, tier);
    }
}

/// Makes an object of these parts, or leaves the table as it was if one of them finds no place. It answers the place
/// of part 0, which stands for the object. The log gets where each part was placed, and nothing of an object that is
/// refused.
pub fn make_group<L: Log>(
    blocks: &mut Blocks,
    room: &mut PartPlaces,
    parts: &Parts,
    birth: Birth,
    stamp: u64,
    log: &mut L,
) -> Result<Place, Full>
    requires birth { birth < 2 ^ 62 }
    ensures made { IfOk result (λ place. made_group blocks.old birth stamp parts.now ≡ Some (record { place = place; table = blocks.new })) }
    ensures full { OnErr result (made_group blocks.old birth stamp parts.now ≡ None) }
    ensures unchanged { OnErr result (blocks.new ≡ blocks.old) }
    ensures told { OnOk result (Told L.has log.old (make_deeds blocks.old birth stamp 0 parts.now) log.new) }
    ensures quiet { OnErr result (log.new ≡ log.old) }
{
    let count = parts.count();
    if count == 1 && log.is_silent() {
        return blocks.make(parts.get(0), 0, birth, stamp);
    }
    if lacks_room(blocks, parts) {
        return Err(Full);
    }
    make_parts(
        blocks,
        &mut room.places,
        &mut room.fresh,
        parts,
        birth,
        stamp,
    )?;
    tell_parts(blocks, &room.places, &room.fresh, parts, birth, log);
    link_parts(blocks, &room.places[..count], parts);
    Ok(room.places[0])
}
