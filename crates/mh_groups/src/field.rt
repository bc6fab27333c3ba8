//! Where the fields of an object lie, and what stands in them.
//!
//! Up to 60 fields lie in the object's one block. Of an object of more fields part 0 is a spine: its references lead to
//! arraylets of 60 fields each, or, for more than 3,600 fields, to middle spines whose references lead to arraylets.
//! Each reference on the way is resolved as it is used, since any block may have moved.
//!
//! A field is at the model's position, and is read and written there. `store_ref` is for who uses the crate by itself,
//! and no test calls it: `put` finds the field once, for its barrier and for the write.
ghost use Rattle.std.specs.Prelude.{◌≡◌, ◌<◌, ◌≤◌, length};
ghost use Rattle.mh_model.specs.Pages.{Leads};
ghost use Rattle.mh_model.specs.Table.{references_at, numbers_at, with_reference_at, with_number_at, child_place, position_of, reference_in, loaded_reference, number_index, number_in};
ghost use Rattle.mh_model.specs.Invariant.{HasChild, IsFindable};

pub use crate::position::Position;
use mh_blocks::blocks::Blocks;
use mh_model::limits;
use mh_model::place::Place;

/// The most fields of a block, and of an arraylet.
const RUN: usize = limits::RUN as usize;

/// The most fields of an object without middle spines, and of one middle spine.
const SPINE_FIELDS: usize = limits::SPINE_FIELDS as usize;

/// Where a reference of a spine leads.
fn child(blocks: &Blocks, place: Place, index: usize) -> Place
    requires { HasChild blocks.now place index }
    ensures { result ≡ child_place blocks.now place index }
{
    blocks.load_ref(place, index).unwrap_or(place)
}

/// Where a field of the object at a place lies.
pub fn position(blocks: &Blocks, place: Place, field: usize) -> Position
    requires { IsFindable blocks.now place field }
    ensures { result ≡ position_of blocks.now place field }
{
    let header = blocks.header(place);
    let fields = header.references as usize + header.numbers as usize;
    if fields <= RUN {
        return Position {
            place,
            index: field,
        };
    }
    let spine = if fields <= SPINE_FIELDS {
        place
    } else {
        child(blocks, place, field / SPINE_FIELDS)
    };
    Position {
        place: child(blocks, spine, field / RUN % RUN),
        index: field % RUN,
    }
}

/// Where the reference in a field leads.
pub fn load_ref(blocks: &Blocks, place: Place, field: usize) -> Option<Place>
    requires findable { IsFindable blocks.now place field }
    requires within { (position_of blocks.now place field).index < length (references_at blocks.now (position_of blocks.now place field).place) }
    requires leads { Leads blocks.now (reference_in blocks.now (position_of blocks.now place field)) }
    ensures { result ≡ loaded_reference blocks.now (position_of blocks.now place field) }
{
    let found = position(blocks, place, field);
    blocks.load_ref(found.place, found.index)
}

/// Writes a reference to a field.
pub fn store_ref(blocks: &mut Blocks, place: Place, field: usize, reference: Option<Place>)
    requires findable { IsFindable blocks.old place field }
    requires within { (position_of blocks.old place field).index < length (references_at blocks.old (position_of blocks.old place field).place) }
    requires leads { Leads blocks.old reference }
    ensures { blocks.new ≡ with_reference_at blocks.old (position_of blocks.old place field).place (position_of blocks.old place field).index reference }
{
    let found = position(blocks, place, field);
    blocks.store_ref(found.place, found.index, reference);
}

/// The number in a field.
pub fn load_int(blocks: &Blocks, place: Place, field: usize) -> u64
    requires findable { IsFindable blocks.now place field }
    requires after { length (references_at blocks.now (position_of blocks.now place field).place) ≤ (position_of blocks.now place field).index }
    requires within { number_index blocks.now (position_of blocks.now place field) < length (numbers_at blocks.now (position_of blocks.now place field).place) }
    ensures { result ≡ number_in blocks.now (position_of blocks.now place field) }
{
    let found = position(blocks, place, field);
    let references = blocks.reference_count(found.place);
    blocks.load_int(found.place, found.index - references)
}

/// Writes a number to a field.
pub fn store_int(blocks: &mut Blocks, place: Place, field: usize, number: u64)
    requires findable { IsFindable blocks.old place field }
    requires after { length (references_at blocks.old (position_of blocks.old place field).place) ≤ (position_of blocks.old place field).index }
    requires within { number_index blocks.old (position_of blocks.old place field) < length (numbers_at blocks.old (position_of blocks.old place field).place) }
    ensures { blocks.new ≡ with_number_at blocks.old (position_of blocks.old place field).place (number_index blocks.old (position_of blocks.old place field)) number }
{
    let found = position(blocks, place, field);
    let references = blocks.reference_count(found.place);
    blocks.store_int(found.place, found.index - references, number);
}
