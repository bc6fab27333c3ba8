//! Deeds as rows of numbers.
//!
//! The first number of a row says what the row is. So a page is about a fifth as long as the lines of `steps --json`.
//! A list ends with a 0, so that each element has a comma after it, the last one too. Once 200,000 deeds were
//! written, some that change nothing drawn are left out (`kept_deeds`). Those that stay draw what all of them draw,
//! and leave the cursor where all leave it.
ghost use Rattle.std.specs.{Prelude.{◌≡◌, ◌++◌, ◌∷◌, [], Some, OnOk}, String.string_bytes};
ghost use Rattle.mh_tell_show.specs.Cursor.{moves_cursor, moves_next};
ghost use Rattle.mh_tell_show.specs.Rows.{deed_row, deed_rows_text, edge_numbers, is_drawn, is_kept, name_numbers, number_text, row_of, row_text, tier_number};

use itoa::Buffer;
use mh_model::deed::{Deed, Edge, Fate, PartName, Tier};
use mh_model::memory::NoMemory;
use mh_model::place::Place;
use mh_model::shape::Shape;

fn tier_number(tier: Tier) -> u64
    ensures { result ≡ tier_number tier }
{
    match tier {
        Tier::Dense => 0,
        Tier::Fresh => 1,
        Tier::Sparse => 2,
    }
}

pub(crate) fn place_number(place: Option<Place>) -> Option<u64>
    ensures { result ≡ place }
{
    place.map(|place| place.0 as u64)
}

/// Whether a deed changes what is drawn.
pub fn is_drawn(deed: &Deed) -> bool
    ensures { result ≡ is_drawn deed.now }
{
    match *deed {
        Deed::Root { slot: _, edge } | Deed::Reference { index: _, edge } => edge.is_shaded,
        Deed::Sweep { place: _, fate } => matches!(fate, Fate::Freed(_) | Fate::FreedForwarder(_)),
        Deed::Pass { .. } | Deed::Stay { .. } | Deed::ForwardRoots => false,
        _ => true,
    }
}

fn moves_cursor(deed: &Deed) -> bool
    ensures { result ≡ moves_cursor deed.now }
{
    match *deed {
        Deed::Start { .. } | Deed::Mark { .. } | Deed::Reference { .. } => false,
        Deed::ForwardRoots | Deed::Shade { .. } | Deed::Make { .. } => false,
        _ => true,
    }
}

fn moves_next(deeds: &[Deed]) -> bool
    ensures { result ≡ moves_next deeds.now }
{
    match deeds {
        [] => false,
        [next, ..] => moves_cursor(next),
    }
}

/// Whether a deed before these is kept of a long run: it changes what is drawn, or it moves the cursor and the next deed
/// doesn't.
fn is_kept(deed: &Deed, later: &[Deed]) -> bool
    ensures { result ≡ is_kept deed.now later.now }
{
    is_drawn(deed) || moves_cursor(deed) && !moves_next(later)
}

fn push_number(text: &mut String, number: Option<u64>) -> Result<(), NoMemory>
    ensures { OnOk result (string_bytes text.new ≡ string_bytes text.old ++ number_text number) }
{
    match number {
        None => text.push_str("-1")?,
        Some(number) => text.push_str(Buffer::new().format(number))?,
    }
    Ok(())
}

/// Adds the row of a kind with these numbers. After an error the text may end with a part of it, as it may after those below.
pub fn push_row(text: &mut String, kind: u64, numbers: &[Option<u64>]) -> Result<(), NoMemory>
    ensures { OnOk result (string_bytes text.new ≡ string_bytes text.old ++ row_text (row_of kind numbers.now)) }
{
    text.push_str("[")?;
    text.push_str(Buffer::new().format(kind))?;
    for number in numbers {
        text.push_str(",")?;
        push_number(text, *number)?;
    }
    text.push_str("]")?;
    Ok(())
}

fn push_at(text: &mut String, kind: u64, number: usize) -> Result<(), NoMemory>
    ensures { OnOk result (string_bytes text.new ≡ string_bytes text.old ++ row_text (row_of kind (Some number ∷ []))) }
{
    push_row(text, kind, &[Some(number as u64)])
}

fn push_named(text: &mut String, kind: u64, number: usize, name: PartName) -> Result<(), NoMemory>
    ensures { OnOk result (string_bytes text.new ≡ string_bytes text.old ++ row_text (row_of kind (Some number ∷ name_numbers name))) }
{
    let number = Some(number as u64);
    push_row(
        text,
        kind,
        &[number, Some(name.birth.0), Some(name.part as u64)],
    )
}

fn push_edge(text: &mut String, kind: u64, number: usize, edge: Edge) -> Result<(), NoMemory>
    ensures { OnOk result (string_bytes text.new ≡ string_bytes text.old ++ row_text (row_of kind (Some number ∷ edge_numbers edge))) }
{
    let number = Some(number as u64);
    let from = place_number(edge.reference);
    let to = place_number(edge.target);
    push_row(
        text,
        kind,
        &[number, from, to, Some(u64::from(edge.is_shaded))],
    )
}

fn push_slot(text: &mut String, place: Place, fate: u64, name: PartName) -> Result<(), NoMemory>
    ensures { OnOk result (string_bytes text.new ≡ string_bytes text.old ++ row_text (row_of 7 (Some place ∷ Some fate ∷ name_numbers name))) }
{
    let place = Some(place.0 as u64);
    let birth = Some(name.birth.0);
    push_row(text, 7, &[place, Some(fate), birth, Some(name.part as u64)])
}

fn push_sweep(text: &mut String, place: Place, fate: Fate) -> Result<(), NoMemory>
    ensures { OnOk result (string_bytes text.new ≡ string_bytes text.old ++ row_text (deed_row (Deed.Sweep place fate))) }
{
    let number = Some(place.0 as u64);
    match fate {
        Fate::Empty => push_row(text, 7, &[number, Some(0)]),
        Fate::Kept(name) => push_slot(text, place, 1, name),
        Fate::Freed(name) => push_slot(text, place, 2, name),
        Fate::FreedForwarder(target) => push_row(
            text,
            7,
            &[number, Some(3), Some(target.0 as u64)],
        ),
    }
}

fn push_make(
    text: &mut String,
    place: Place,
    name: PartName,
    class_size: usize,
    fields: Shape,
    tier: Tier,
) -> Result<(), NoMemory>
    ensures { OnOk result (string_bytes text.new ≡ string_bytes text.old ++ row_text (deed_row (Deed.Make place name class_size fields tier))) }
{
    push_row(
        text,
        15,
        &[
            Some(place.0 as u64),
            Some(name.birth.0),
            Some(name.part as u64),
            Some(class_size as u64),
            Some(u64::from(fields.references)),
            Some(u64::from(fields.numbers)),
            Some(tier_number(tier)),
        ],
    )
}

fn push_move(
    text: &mut String,
    place: Place,
    to: Place,
    name: PartName,
    class_size: usize,
) -> Result<(), NoMemory>
    ensures { OnOk result (string_bytes text.new ≡ string_bytes text.old ++ row_text (deed_row (Deed.Move place to name class_size))) }
{
    push_row(
        text,
        12,
        &[
            Some(place.0 as u64),
            Some(to.0 as u64),
            Some(name.birth.0),
            Some(name.part as u64),
            Some(class_size as u64),
        ],
    )
}

/// Adds the row of a deed.
pub fn push_deed(text: &mut String, deed: &Deed) -> Result<(), NoMemory>
    ensures { OnOk result (string_bytes text.new ≡ string_bytes text.old ++ row_text (deed_row deed.now)) }
{
    match *deed {
        Deed::Start { cycle } => push_row(text, 0, &[Some(cycle)]),
        Deed::Enter { phase } => push_row(text, 1, &[Some(phase.number())]),
        Deed::End => push_row(text, 2, &[]),
        Deed::Root { slot, edge } => push_edge(text, 3, slot, edge),
        Deed::Mark { place, name } => push_named(text, 4, place.0, name),
        Deed::Reference { index, edge } => push_edge(text, 5, index, edge),
        Deed::Pass { page } => push_at(text, 6, page),
        Deed::Sweep { place, fate } => push_sweep(text, place, fate),
        Deed::FreePage { page } => push_at(text, 8, page),
        Deed::FlagPage { page } => push_at(text, 9, page),
        Deed::UnflagPage { page } => push_at(text, 10, page),
        Deed::Stay { place } => push_at(text, 11, place.0),
        Deed::Move {
            place,
            to,
            name,
            class_size,
        } => push_move(text, place, to, name, class_size),
        Deed::ForwardRoots => push_row(text, 13, &[]),
        Deed::Shade { place } => push_at(text, 14, place.0),
        Deed::Make {
            place,
            name,
            class_size,
            fields,
            tier,
        } => push_make(text, place, name, class_size, fields, tier),
    }
}

/// Adds the rows of deeds: of all, or of those alone that are kept of a long run.
pub fn push_deeds(text: &mut String, is_whole: bool, deeds: &[Deed]) -> Result<(), NoMemory>
    ensures { OnOk result (string_bytes text.new ≡ string_bytes text.old ++ deed_rows_text is_whole deeds.now) }
{
    text.push_str("[")?;
    for (index, deed) in deeds.iter().enumerate() {
        if is_whole || is_kept(deed, &deeds[index + 1..]) {
            push_deed(text, deed)?;
            text.push_str(",")?;
        }
    }
    text.push_str("0]")?;
    Ok(())
}
