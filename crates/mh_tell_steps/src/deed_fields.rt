//! The verb and the fields of a deed. They are the same in words and in JSON, so each deed is spelled once. A
//! reference has `shaded yes` if the grey list grew by it. So the second of two references to one white block has
//! `shaded no`.
ghost use Rattle.std.specs.{Prelude.{◌≡◌, ◌++◌, ◌∷◌, [], codes, OnOk}, String.string_bytes};
ghost use Rattle.mh_model.specs.{Deeds.deed_units, Replies.phase_word};
ghost use Rattle.mh_tell_steps.specs.Fields.{At, Number, Word, cost_fields, deed_fields, deed_verb, edge_fields, end_fields, fate_fields, field, made_fields, name_fields, tier_word};
ghost use Rattle.mh_tell_steps.specs.{Figures.{at_field, counts_fields}, Lines.{fields_text, tool_text}};
ghost use Rattle.mh_model.specs.declared.deed.Deed.TheVariants as deed;

use crate::fields::{push_flag, push_number, push_optional_place, push_place, push_word};
use crate::figures::HeapCounts;
use mh_model::cycle::Phase;
use mh_model::deed::{Deed, Edge, Fate, PartName, QuantumEnd, Tier};
use mh_model::memory::NoMemory;
use mh_model::place::Place;
use mh_model::shape::Shape;
use mh_orders::steps::StepsForm;

/// The verb of a deed.
pub(crate) fn deed_verb(deed: &Deed) -> &'static str
    ensures { result.now ≡ deed_verb deed.now }
{
    match deed {
        Deed::Start { .. } => "start",
        Deed::Enter { .. } => "enter",
        Deed::End => "end",
        Deed::Root { .. } => "root",
        Deed::Mark { .. } => "mark",
        Deed::Reference { .. } => "reference",
        Deed::Pass { .. } => "pass",
        Deed::Sweep { .. } => "sweep",
        Deed::FreePage { .. } => "free",
        Deed::FlagPage { .. } => "flag",
        Deed::UnflagPage { .. } => "unflag",
        Deed::Stay { .. } => "stay",
        Deed::Move { .. } => "move",
        Deed::ForwardRoots => "forward",
        Deed::Shade { .. } => "shade",
        Deed::Make { .. } => "make",
    }
}

/// What a deed costs.
pub fn deed_units(deed: &Deed) -> u128
    ensures { result ≡ deed_units deed.now }
{
    match *deed {
        Deed::Root { .. } => 2,
        Deed::Mark { .. } | Deed::Reference { .. } => 1,
        Deed::Pass { .. } | Deed::Sweep { .. } | Deed::Stay { .. } => 1,
        Deed::Move { class_size, .. } => 1 + class_size as u128,
        Deed::ForwardRoots => 144,
        _ => 0,
    }
}

pub fn phase_word(phase: Phase) -> &'static str
    ensures { result.now ≡ phase_word phase }
{
    match phase {
        Phase::Idle => "idle",
        Phase::Roots => "roots",
        Phase::Mark => "mark",
        Phase::Sweep => "sweep",
        Phase::Defrag => "defrag",
    }
}

fn tier_word(tier: Tier) -> &'static str
    ensures { result.now ≡ tier_word tier }
{
    match tier {
        Tier::Dense => "dense",
        Tier::Fresh => "free",
        Tier::Sparse => "sparse",
    }
}

fn push_name(text: &mut String, form: StepsForm, name: PartName) -> Result<(), NoMemory>
    ensures { OnOk result (string_bytes text.new ≡ string_bytes text.old ++ fields_text form (name_fields name)) }
{
    push_number(text, form, "birth", u128::from(name.birth.0))?;
    push_number(text, form, "part", name.part as u128)
}

fn push_edge(text: &mut String, form: StepsForm, edge: Edge) -> Result<(), NoMemory>
    ensures { OnOk result (string_bytes text.new ≡ string_bytes text.old ++ fields_text form (edge_fields edge)) }
{
    push_optional_place(text, form, "from", edge.reference)?;
    push_optional_place(text, form, "to", edge.target)?;
    push_flag(text, form, "shaded", edge.is_shaded)
}

fn push_fate(text: &mut String, form: StepsForm, fate: Fate) -> Result<(), NoMemory>
    ensures { OnOk result (string_bytes text.new ≡ string_bytes text.old ++ fields_text form (fate_fields fate)) }
{
    match fate {
        Fate::Empty => push_word(text, form, "fate", "empty"),
        Fate::Kept(name) => {
            push_word(text, form, "fate", "kept")?;
            push_name(text, form, name)
        }
        Fate::Freed(name) => {
            push_word(text, form, "fate", "freed")?;
            push_name(text, form, name)
        }
        Fate::FreedForwarder(target) => {
            push_word(text, form, "fate", "forwarder")?;
            push_place(text, form, "to", target)
        }
    }
}

/// Adds a number, and the edge that was found there.
fn push_edge_at(
    text: &mut String,
    form: StepsForm,
    key: &str,
    number: usize,
    edge: Edge,
) -> Result<(), NoMemory>
    ensures { OnOk result (string_bytes text.new ≡ string_bytes text.old ++ fields_text form (field key.now (Number number) ∷ edge_fields edge)) }
{
    push_number(text, form, key, number as u128)?;
    push_edge(text, form, edge)
}

/// The fields of a move.
fn push_move(
    text: &mut String,
    form: StepsForm,
    place: Place,
    to: Place,
    name: PartName,
    class_size: usize,
) -> Result<(), NoMemory>
    ensures { OnOk result (string_bytes text.new ≡ string_bytes text.old ++ fields_text form (deed_fields (deed.Move place to name class_size))) }
{
    push_place(text, form, "place", place)?;
    push_place(text, form, "to", to)?;
    push_name(text, form, name)?;
    push_number(text, form, "class", class_size as u128)
}

/// Adds what a new part is, and the tier in which its place was found.
fn push_made(
    text: &mut String,
    form: StepsForm,
    class_size: usize,
    fields: Shape,
    tier: Tier,
) -> Result<(), NoMemory>
    ensures { OnOk result (string_bytes text.new ≡ string_bytes text.old ++ fields_text form (made_fields class_size fields tier)) }
{
    push_number(text, form, "class", class_size as u128)?;
    push_number(text, form, "references", u128::from(fields.references))?;
    push_number(text, form, "numbers", u128::from(fields.numbers))?;
    push_word(text, form, "tier", tier_word(tier))
}

/// Adds a place, and which part of which object the block there is.
fn push_named_place(
    text: &mut String,
    form: StepsForm,
    place: Place,
    name: PartName,
) -> Result<(), NoMemory>
    ensures { OnOk result (string_bytes text.new ≡ string_bytes text.old ++ fields_text form (field (codes "place") (At place) ∷ name_fields name)) }
{
    push_place(text, form, "place", place)?;
    push_name(text, form, name)
}

/// Adds the fields of a deed. After an error the text may end with a part of them.
pub(crate) fn push_deed_fields(
    text: &mut String,
    form: StepsForm,
    deed: &Deed,
) -> Result<(), NoMemory>
    ensures { OnOk result (string_bytes text.new ≡ string_bytes text.old ++ fields_text form (deed_fields deed.now)) }
{
    match *deed {
        Deed::Start { cycle } => push_number(text, form, "cycle", u128::from(cycle)),
        Deed::Enter { phase } => push_word(text, form, "phase", phase_word(phase)),
        Deed::Root { slot, edge } => push_edge_at(text, form, "slot", slot, edge),
        Deed::Mark { place, name } => push_named_place(text, form, place, name),
        Deed::Reference { index, edge } => push_edge_at(text, form, "index", index, edge),
        Deed::Sweep { place, fate } => {
            push_place(text, form, "place", place)?;
            push_fate(text, form, fate)
        }
        Deed::Pass { page } | Deed::FreePage { page } => push_page(text, form, page),
        Deed::FlagPage { page } | Deed::UnflagPage { page } => push_page(text, form, page),
        Deed::Stay { place } | Deed::Shade { place } => push_place(text, form, "place", place),
        Deed::Move {
            place,
            to,
            name,
            class_size,
        } => push_move(text, form, place, to, name, class_size),
        Deed::Make {
            place,
            name,
            class_size,
            fields,
            tier,
        } => {
            push_named_place(text, form, place, name)?;
            push_made(text, form, class_size, fields, tier)
        }
        Deed::End | Deed::ForwardRoots => Ok(()),
    }
}

fn push_page(text: &mut String, form: StepsForm, page: usize) -> Result<(), NoMemory>
    ensures { OnOk result (string_bytes text.new ≡ string_bytes text.old ++ fields_text form (field (codes "page") (Number page) ∷ [])) }
{
    push_number(text, form, "page", page as u128)
}

/// Adds what a deed of a quantum cost, and what it left.
pub(crate) fn push_cost(
    text: &mut String,
    form: StepsForm,
    deed: &Deed,
    left: u128,
) -> Result<(), NoMemory>
    ensures { OnOk result (string_bytes text.new ≡ string_bytes text.old ++ fields_text form (cost_fields deed.now left)) }
{
    push_number(text, form, "units", deed_units(deed))?;
    push_number(text, form, "left", left)
}

/// Adds what a quantum spent, and the phase that it ended in.
pub(crate) fn push_end(
    text: &mut String,
    form: StepsForm,
    ended: QuantumEnd,
) -> Result<(), NoMemory>
    ensures { OnOk result (string_bytes text.new ≡ string_bytes text.old ++ fields_text form (end_fields ended)) }
{
    push_number(text, form, "spent", u128::from(ended.units.0))?;
    push_word(text, form, "phase", phase_word(ended.phase))
}

/// Adds for tools where in the trace a deed or a quantum stands.
pub(crate) fn push_at(text: &mut String, form: StepsForm, at: u128) -> Result<(), NoMemory>
    ensures { OnOk result (string_bytes text.new ≡ string_bytes text.old ++ tool_text form (at_field at ∷ [])) }
{
    match form {
        StepsForm::Text => Ok(()),
        StepsForm::Json => push_number(text, form, "at", at),
    }
}

/// Adds for tools what is in the heap.
pub(crate) fn push_counts(
    text: &mut String,
    form: StepsForm,
    counts: HeapCounts,
) -> Result<(), NoMemory>
    ensures { OnOk result (string_bytes text.new ≡ string_bytes text.old ++ tool_text form (counts_fields counts)) }
{
    if form == StepsForm::Text {
        return Ok(());
    }
    push_number(text, form, "free", counts.free)?;
    push_number(text, form, "live", counts.live)?;
    push_number(text, form, "old", counts.old)?;
    push_number(text, form, "grey", counts.grey)
}
