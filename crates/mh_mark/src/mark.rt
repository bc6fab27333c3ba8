//! Marking through one block. Table, grey list and cost are the model's. The first grey block is found before its step,
//! since its number of references says what the step costs.
ghost use Rattle.std.specs.Prelude.{◌≡◌, ℕ, ◌<◌, true, false, IsSome, [], ◌∷◌, length};
ghost use Rattle.mh_model.specs.{Pages.block_at, Table.{references_at, reference_at, target_of, LeadsHome}};
ghost use Rattle.mh_model.specs.Collector.{mark_reference, mark_references, mark_step};
ghost use Rattle.mh_model.specs.Deeds.{name_at, edge_of, reference_deeds, mark_deeds};
ghost use Rattle.mh_deeds.specs.Logs.{Told};
ghost use Rattle.mh_pages.specs.Addresses.{address_in};
ghost use Rattle.mh_grey.specs.{Queue.is_in, Shading.{marking, AreMarked}};
ghost use Rattle.mh_mark.specs.{First.IsFirstGrey, Kept.KeepsMarking, Walkable.{LeadHome, IsWalkable}};
ghost use Rattle.mh_model.specs.declared.deed.Deed.TheVariants as deed;

use mh_blocks::blocks::Blocks;
use mh_deeds::log::{Log, NoLog};
use mh_grey::grey::Grey;
use mh_model::deed::{Deed, Edge, PartName};
use mh_model::place::Place;
use mh_pages::address::Address;
use std::marker::Model;

/// Where the first grey block stands, and how many references it has.
#[derive(Clone, Copy)]
pub struct FirstGrey {
    pub address: Address,
    pub count: usize,
}

// A struct with a field that has a model is passed by value more than once only if it has one too.
impl Model for FirstGrey {
    ghost use Rattle.mh_mark.specs.First.{FirstGrey};

    ghost Value = { FirstGrey };

    ghost view = { λ first. record { address = first.address; count = first.count } };

    ghost inverse = { λ first. record { address = first.address; count = first.count } };
}

/// Resolves a reference of the block at an address, writes it back and shades it. A reference that leads straight to its
/// block is as it would be written, so nothing is written.
fn mark_reference(blocks: &mut Blocks, grey: &mut Grey, cycle: u64, address: Address, index: usize)
    requires pages { grey.old.pages ≡ length blocks.old }
    requires at { address ≡ address_in blocks.old address.place }
    requires there { index < length (references_at blocks.old address.place) }
    requires home { LeadsHome blocks.old (reference_at blocks.old address.place index) }
    requires marked { AreMarked blocks.old cycle grey.old.places }
    ensures table { blocks.new ≡ (mark_reference (marking blocks.old grey.old.places cycle) address.place index (reference_at blocks.old address.place index)).table }
    ensures grey { grey.new ≡ record { places = (mark_reference (marking blocks.old grey.old.places cycle) address.place index (reference_at blocks.old address.place index)).grey; pages = grey.old.pages } }
{
    if let Some(place) = blocks.reference_from(address, index) {
        if blocks.is_forwarder(place) {
            let target = blocks.resolve(place);
            blocks.set_reference_from(address, index, Some(target));
            grey.shade_place(blocks, cycle, target);
        } else {
            grey.shade_place(blocks, cycle, place);
        }
    }
}

/// A reference of the block at an address, as it stands before it is marked through.
fn edge_at(blocks: &Blocks, address: Address, index: usize) -> Edge
    requires at { address ≡ address_in blocks.now address.place }
    requires there { index < length (references_at blocks.now address.place) }
    requires home { LeadsHome blocks.now (reference_at blocks.now address.place index) }
    ensures { result ≡ record { reference = reference_at blocks.now address.place index; target = target_of blocks.now (reference_at blocks.now address.place index); is_shaded = false } }
{
    Edge {
        reference: blocks.reference_from(address, index),
        target: blocks.load_ref(address.place, index),
        is_shaded: false,
    }
}

/// The same, and tells how the reference was found. It made its target grey if the grey list grew by it.
fn mark_edge<L: Log>(
    blocks: &mut Blocks,
    grey: &mut Grey,
    cycle: u64,
    address: Address,
    index: usize,
    log: &mut L,
)
    requires pages { grey.old.pages ≡ length blocks.old }
    requires at { address ≡ address_in blocks.old address.place }
    requires there { index < length (references_at blocks.old address.place) }
    requires home { LeadsHome blocks.old (reference_at blocks.old address.place index) }
    requires marked { AreMarked blocks.old cycle grey.old.places }
    ensures table { blocks.new ≡ (mark_reference (marking blocks.old grey.old.places cycle) address.place index (reference_at blocks.old address.place index)).table }
    ensures grey { grey.new ≡ record { places = (mark_reference (marking blocks.old grey.old.places cycle) address.place index (reference_at blocks.old address.place index)).grey; pages = grey.old.pages } }
    ensures told { Told L.has log.old (deed.Reference index (edge_of blocks.old (reference_at blocks.old address.place index) grey.old.places grey.new.places) ∷ []) log.new }
{
    if log.is_silent() {
        mark_reference(blocks, grey, cycle, address, index);
        return;
    }
    let before = grey.len();
    let mut edge = edge_at(blocks, address, index);
    mark_reference(blocks, grey, cycle, address, index);
    edge.is_shaded = before < grey.len();
    log.tell(Deed::Reference { index, edge });
}

/// Resolves the references of the block at an address in order, all of them, writes each back and shades it, and tells each.
fn mark_references<L: Log>(
    blocks: &mut Blocks,
    grey: &mut Grey,
    cycle: u64,
    address: Address,
    count: usize,
    log: &mut L,
)
    requires at { address ≡ address_in blocks.old address.place }
    requires there { IsSome (block_at blocks.old address.place) }
    requires all { count ≡ length (references_at blocks.old address.place) }
    requires pages { grey.old.pages ≡ length blocks.old }
    requires lead { LeadHome blocks.old address.place }
    requires marked { AreMarked blocks.old cycle grey.old.places }
    ensures table { blocks.new ≡ (mark_references (marking blocks.old grey.old.places cycle) address.place 0 (references_at blocks.old address.place)).table }
    ensures grey { grey.new ≡ record { places = (mark_references (marking blocks.old grey.old.places cycle) address.place 0 (references_at blocks.old address.place)).grey; pages = grey.old.pages } }
    ensures kept { KeepsMarking (marking blocks.old grey.old.places cycle) (marking blocks.new grey.new.places cycle) }
    ensures told { Told L.has log.old (reference_deeds (marking blocks.old grey.old.places cycle) address.place 0 (references_at blocks.old address.place)) log.new }
{
    for index in 0..count {
        mark_edge(blocks, grey, cycle, address, index, log);
    }
}

/// Resolves the references of a block in order, writes each back and shades it.
pub fn mark_block(blocks: &mut Blocks, grey: &mut Grey, cycle: u64, place: Place)
    requires there { IsSome (block_at blocks.old place) }
    requires pages { grey.old.pages ≡ length blocks.old }
    requires lead { LeadHome blocks.old place }
    requires marked { AreMarked blocks.old cycle grey.old.places }
    ensures table { blocks.new ≡ (mark_references (marking blocks.old grey.old.places cycle) place 0 (references_at blocks.old place)).table }
    ensures grey { grey.new ≡ record { places = (mark_references (marking blocks.old grey.old.places cycle) place 0 (references_at blocks.old place)).grey; pages = grey.old.pages } }
    ensures kept { KeepsMarking (marking blocks.old grey.old.places cycle) (marking blocks.new grey.new.places cycle) }
{
    let address = blocks.address(place);
    let count = blocks.reference_count_from(address);
    mark_references(blocks, grey, cycle, address, count, &mut NoLog);
}

/// The first grey block.
pub fn first_grey(blocks: &Blocks, grey: &Grey) -> FirstGrey
    requires some { 0 < length grey.now.places }
    requires there { (place : ℕ) → is_in place grey.now.places ≡ true → IsSome (block_at blocks.now place) }
    ensures { IsFirstGrey blocks.now grey.now.places result }
{
    let address = blocks.address(grey.first());
    let count = blocks.reference_count_from(address);
    FirstGrey { address, count }
}

/// Which part of which object the block at a place is.
pub fn name_of(blocks: &Blocks, place: Place) -> PartName
    requires { IsSome (block_at blocks.now place) }
    ensures { result ≡ name_at blocks.now place }
{
    PartName {
        birth: blocks.birth(place),
        part: blocks.part(place),
    }
}

/// Marks through the first grey block, which is given, and tells it and each of its references.
pub fn mark_step<L: Log>(
    blocks: &mut Blocks,
    grey: &mut Grey,
    cycle: u64,
    first: FirstGrey,
    log: &mut L,
)
    requires some { 0 < length grey.old.places }
    requires first { IsFirstGrey blocks.old grey.old.places first }
    requires pages { grey.old.pages ≡ length blocks.old }
    requires walkable { IsWalkable blocks.old cycle grey.old.places }
    ensures table { blocks.new ≡ (mark_step (marking blocks.old grey.old.places cycle)).table }
    ensures grey { grey.new ≡ record { places = (mark_step (marking blocks.old grey.old.places cycle)).grey; pages = grey.old.pages } }
    ensures told { Told L.has log.old (mark_deeds (marking blocks.old grey.old.places cycle) grey.old.places) log.new }
{
    let place = grey.pop_first();
    if !log.is_silent() {
        let name = name_of(blocks, place);
        log.tell(Deed::Mark { place, name });
    }
    mark_references(blocks, grey, cycle, first.address, first.count, log);
}
