//! Deeds, shown as numbers. Each number of a deed is in them, and each kind of a deed has a number of its own. What the
//! sweep did with a slot is a kind.
ghost use Rattle.std.specs.Prelude.{◌≡◌, ◌∷◌, []};
ghost use Rattle.mh_model.specs.Deeds.{deed_units};
ghost use Rattle.mh_embed.specs.Numbers.{IsDeedShownBy, capped, padded_deed};
ghost use Rattle.mh_model.specs.declared.deed.Deed.TheVariants as model;
ghost use Rattle.mh_embed.specs.Numbers as numbers;

use crate::numbers::DeedNumbers;
use mh_model::deed::{Deed, Edge, Fate, PartName, Tier};
use mh_model::limits::ROOT_SLOTS;
use mh_model::place::Place;
use mh_model::shape::Shape;

fn place_number(place: Option<Place>) -> u64
    ensures { result ≡ numbers.place_number_or place }
{
    match place {
        Some(place) => place.0 as u64,
        None => u64::MAX,
    }
}

fn tier_number(tier: Tier) -> u64
    ensures { result ≡ numbers.tier_number tier }
{
    match tier {
        Tier::Dense => 0,
        Tier::Fresh => 1,
        Tier::Sparse => 2,
    }
}

fn units_of(deed: &Deed) -> u64
    ensures { result ≡ capped (deed_units deed.now) }
{
    match *deed {
        Deed::Root { .. } => 2,
        Deed::Mark { .. } | Deed::Reference { .. } => 1,
        Deed::Pass { .. } | Deed::Sweep { .. } | Deed::Stay { .. } => 1,
        Deed::Move { class_size, .. } => 1_u64.saturating_add(class_size as u64),
        Deed::ForwardRoots => ROOT_SLOTS as u64,
        _ => 0,
    }
}

fn fate_kind(fate: Fate) -> u32
    ensures { result ≡ numbers.fate_kind fate }
{
    match fate {
        Fate::Empty => 8,
        Fate::Kept(_) => 9,
        Fate::Freed(_) => 10,
        Fate::FreedForwarder(_) => 11,
    }
}

fn kind_of(deed: &Deed) -> u32
    ensures { result ≡ numbers.deed_kind deed.now }
{
    match *deed {
        Deed::Start { .. } => 1,
        Deed::Enter { .. } => 2,
        Deed::End => 3,
        Deed::Root { .. } => 4,
        Deed::Mark { .. } => 5,
        Deed::Reference { .. } => 6,
        Deed::Pass { .. } => 7,
        Deed::Sweep { fate, .. } => fate_kind(fate),
        Deed::FreePage { .. } => 12,
        Deed::FlagPage { .. } => 13,
        Deed::UnflagPage { .. } => 14,
        Deed::Stay { .. } => 15,
        Deed::Move { .. } => 16,
        Deed::ForwardRoots => 17,
        Deed::Shade { .. } => 18,
        Deed::Make { .. } => 19,
    }
}

fn one(number: u64) -> [u64; 7]
    ensures { result ≡ padded_deed (number ∷ []) }
{
    [number, 0, 0, 0, 0, 0, 0]
}

fn edge_values(index: usize, edge: Edge) -> [u64; 7]
    ensures { result ≡ padded_deed (index ∷ numbers.edge_values edge) }
{
    let from = place_number(edge.reference);
    let to = place_number(edge.target);
    [index as u64, from, to, u64::from(edge.is_shaded), 0, 0, 0]
}

fn part_values(place: Place, name: PartName) -> [u64; 7]
    ensures { result ≡ padded_deed (place ∷ numbers.part_values name) }
{
    [place.0 as u64, name.birth.0, name.part as u64, 0, 0, 0, 0]
}

fn swept_values(place: Place, fate: Fate) -> [u64; 7]
    ensures { result ≡ padded_deed (numbers.deed_values (model.Sweep place fate)) }
{
    match fate {
        Fate::Empty => one(place.0 as u64),
        Fate::Kept(name) | Fate::Freed(name) => part_values(place, name),
        Fate::FreedForwarder(target) => [place.0 as u64, target.0 as u64, 0, 0, 0, 0, 0],
    }
}

fn moved_values(place: Place, to: Place, name: PartName, class_size: usize) -> [u64; 7]
    ensures { result ≡ padded_deed (numbers.deed_values (model.Move place to name class_size)) }
{
    let birth = name.birth.0;
    let part = name.part as u64;
    let class_size = class_size as u64;
    [place.0 as u64, to.0 as u64, birth, part, class_size, 0, 0]
}

fn made_values(
    place: Place,
    name: PartName,
    class_size: usize,
    fields: Shape,
    tier: Tier,
) -> [u64; 7]
    ensures { result ≡ padded_deed (numbers.deed_values (model.Make place name class_size fields tier)) }
{
    [
        place.0 as u64,
        name.birth.0,
        name.part as u64,
        class_size as u64,
        u64::from(fields.references),
        u64::from(fields.numbers),
        tier_number(tier),
    ]
}

fn values_of(deed: &Deed) -> [u64; 7]
    ensures { result ≡ padded_deed (numbers.deed_values deed.now) }
{
    match *deed {
        Deed::Start { cycle } => one(cycle),
        Deed::Enter { phase } => one(phase.number()),
        Deed::Root { slot, edge } => edge_values(slot, edge),
        Deed::Reference { index, edge } => edge_values(index, edge),
        Deed::Mark { place, name } => part_values(place, name),
        Deed::Sweep { place, fate } => swept_values(place, fate),
        Deed::Pass { page } | Deed::FreePage { page } => one(page as u64),
        Deed::FlagPage { page } | Deed::UnflagPage { page } => one(page as u64),
        Deed::Stay { place } | Deed::Shade { place } => one(place.0 as u64),
        Deed::Move {
            place,
            to,
            name,
            class_size,
        } => moved_values(place, to, name, class_size),
        Deed::Make {
            place,
            name,
            class_size,
            fields,
            tier,
        } => made_values(place, name, class_size, fields, tier),
        Deed::End | Deed::ForwardRoots => [0; 7],
    }
}

/// The numbers of a deed: its kind, its units, and what its words name, in their order.
pub fn deed_numbers(deed: &Deed) -> DeedNumbers
    ensures { IsDeedShownBy deed.now result }
{
    DeedNumbers {
        kind: kind_of(deed),
        units: units_of(deed),
        numbers: values_of(deed),
    }
}
