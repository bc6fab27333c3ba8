//! A quantum as trace events: its slice, and in it the phases that it worked in and, if its event is shown, its steps.
//!
//! A step is a slice of several deeds: a mark with its references, a move with the forwarding of the roots. A quantum that
//! spent nothing is left out.
ghost use Rattle.std.specs.{Prelude.{◌≡◌, ◌+◌, ◌<◌, ◌≤◌, ◌^◌, ◌++◌, is_some, length, IfOk, OnOk}, String.string_bytes};
ghost use Rattle.mh_tell_chrome.specs.TraceEvents.{next_text, next_texts};
ghost use Rattle.mh_tell_chrome.specs.Deeds.{closed, course_after, course_after_all, cycle_end, cycle_ends, deed_begins, deed_events, deeds_events, goes_on, phase_begins, phase_ends, quantum_begins, quantum_course, quantum_ends, quantum_events, quantum_slice, reopened, spent_slice, step_begins, step_ends, step_name};
ghost use Rattle.mh_tell_chrome.specs.Auxiliary.{total};

use crate::counters::{count, push_counters};
use crate::course::{Course, Slices};
use crate::trace_event::{
    push_begin, push_begin_numbered, push_begin_placed, push_end, push_placed,
};
use mh_model::cycle::Phase;
use mh_model::deed::{Deed, QuantumEnd};
use mh_model::memory::NoMemory;
use mh_orders::steps::StepsForm;
use mh_tell_steps::deed_fields::{deed_units, phase_word};
use mh_tell_steps::fields::{push_decimal, push_number, push_word};

/// The threads of cycles and of quanta.
pub(crate) const CYCLES: u64 = 1;

pub(crate) const QUANTA: u64 = 2;

/// Whether a deed is of the step that the one before it began or was of.
fn goes_on(deed: &Deed) -> bool
    ensures { result ≡ goes_on deed.now }
{
    matches!(deed, Deed::Reference { .. } | Deed::ForwardRoots)
}

/// Whether a deed begins a step.
fn begins_step(deed: &Deed) -> bool
    ensures { result ≡ is_some (step_name deed.now) }
{
    matches!(
        deed,
        Deed::Root { .. }
            | Deed::Mark { .. }
            | Deed::Pass { .. }
            | Deed::Sweep { .. }
            | Deed::Stay { .. }
            | Deed::Move { .. }
    )
}

/// Adds the slice of the step that a deed begins, if it begins one.
fn push_step(text: &mut String, now: u128, deed: &Deed) -> Result<(), NoMemory>
    ensures { OnOk result (string_bytes text.new ≡ string_bytes text.old ++ next_texts (step_begins now (step_name deed.now))) }
{
    match *deed {
        Deed::Root { slot, .. } => push_begin_numbered(text, now, QUANTA, "root ", slot as u128),
        Deed::Mark { place, .. } => push_begin_placed(text, now, QUANTA, "mark ", place),
        Deed::Pass { page } => push_begin_numbered(text, now, QUANTA, "pass ", page as u128),
        Deed::Sweep { place, .. } => push_begin_placed(text, now, QUANTA, "sweep ", place),
        Deed::Stay { place } => push_begin_placed(text, now, QUANTA, "stay ", place),
        Deed::Move { place, .. } => push_begin_placed(text, now, QUANTA, "move ", place),
        _ => Ok(()),
    }
}

/// Adds the end of a step, if one is open.
fn push_step_end(text: &mut String, course: &Course) -> Result<(), NoMemory>
    ensures { OnOk result (string_bytes text.new ≡ string_bytes text.old ++ next_texts (step_ends course.now)) }
{
    if course.in_step {
        push_end(text, course.time, QUANTA)?;
    }
    Ok(())
}

fn push_cycle_end(text: &mut String, now: u128, is_open: bool) -> Result<(), NoMemory>
    ensures { OnOk result (string_bytes text.new ≡ string_bytes text.old ++ next_texts (cycle_end now is_open)) }
{
    if is_open {
        push_end(text, now, CYCLES)?;
    }
    Ok(())
}

/// Adds the ends of a phase and its cycle, where they are open.
#[tactic(auto, using(crate::proofs::TextLemmas::both_written))]
fn push_cycle_ends(text: &mut String, now: u128, slices: Slices) -> Result<(), NoMemory>
    ensures { OnOk result (string_bytes text.new ≡ string_bytes text.old ++ next_texts (cycle_ends now slices)) }
{
    push_phase_ends(text, now, slices.phase)?;
    push_cycle_end(text, now, slices.cycle)?;
    Ok(())
}

/// Adds the ends of the slices of a phase, if one is open.
fn push_phase_ends(text: &mut String, now: u128, phase: Option<Phase>) -> Result<(), NoMemory>
    ensures { OnOk result (string_bytes text.new ≡ string_bytes text.old ++ next_texts (phase_ends now phase)) }
{
    if phase.is_some() {
        push_end(text, now, CYCLES)?;
        push_end(text, now, QUANTA)?;
    }
    Ok(())
}

/// Adds the slices of a phase, after the ends of those that are open.
fn push_phase(text: &mut String, course: &Course, phase: Phase) -> Result<(), NoMemory>
    ensures { OnOk result (string_bytes text.new ≡ string_bytes text.old ++ next_texts (phase_ends course.now.time course.now.slices.phase ++ phase_begins course.now.time phase)) }
{
    push_phase_ends(text, course.time, course.slices.phase)?;
    push_begin(text, course.time, CYCLES, phase_word(phase))?;
    push_begin(text, course.time, QUANTA, phase_word(phase))?;
    Ok(())
}

/// Adds what a deed begins, and what ends for it on the threads of cycles and quanta.
#[tactic(auto, using(crate::proofs::TextLemmas::next_texts_append))]
fn push_deed_begins(
    text: &mut String,
    told: bool,
    course: &Course,
    deed: &Deed,
) -> Result<(), NoMemory>
    ensures { OnOk result (string_bytes text.new ≡ string_bytes text.old ++ next_texts (deed_begins told course.now deed.now)) }
{
    match *deed {
        Deed::Start { cycle } => {
            push_cycle_ends(text, course.time, course.slices)?;
            push_begin_numbered(text, course.time, CYCLES, "cycle ", u128::from(cycle))?;
            Ok(())
        }
        Deed::Enter { phase } => {
            push_counters(text, course.time, course.shown, course.counts)?;
            push_phase(text, course, phase)?;
            Ok(())
        }
        Deed::End => push_cycle_ends(text, course.time, course.slices),
        _ if told => push_step(text, course.time, deed),
        _ => Ok(()),
    }
}

/// The course after a deed, which takes its units as far as the quantum has some left.
fn advance(course: Course, told: bool, deed: &Deed) -> Course
    requires time { course.time + course.left < 2 ^ 128 }
    requires room { total course.counts + 1 < 2 ^ 128 }
    ensures course { result ≡ course_after told course deed.now }
    ensures time { result.time + result.left ≡ course.time + course.left }
    ensures few { total result.counts ≤ total course.counts + 1 }
{
    let units = deed_units(deed);
    let (slices, shown) = match *deed {
        Deed::Start { .. } => (
            Slices {
                cycle: true,
                phase: None,
            },
            course.shown,
        ),
        Deed::Enter { phase } => (
            Slices {
                phase: Some(phase),
                ..course.slices
            },
            course.counts,
        ),
        Deed::End => (
            Slices {
                cycle: false,
                phase: None,
            },
            course.shown,
        ),
        _ => (course.slices, course.shown),
    };
    Course {
        time: course.time + units.min(course.left),
        left: course.left.saturating_sub(units),
        slices,
        in_step: if goes_on(deed) {
            course.in_step
        } else {
            told && begins_step(deed)
        },
        counts: count(course.counts, deed),
        shown,
    }
}

/// Adds a deed, after the end of the step before it.
#[tactic(auto, using(crate::proofs::TextLemmas::next_texts_append))]
fn push_deed(text: &mut String, told: bool, course: &Course, deed: &Deed) -> Result<(), NoMemory>
    ensures { OnOk result (string_bytes text.new ≡ string_bytes text.old ++ next_texts (deed_events told course.now deed.now)) }
{
    if !goes_on(deed) {
        push_step_end(text, course)?;
    }
    push_deed_begins(text, told, course, deed)?;
    Ok(())
}

/// Adds deeds in order, and gives the course after them.
#[tactic(auto, using(crate::proofs::TextLemmas::next_texts_append))]
fn push_deeds(
    text: &mut String,
    told: bool,
    begun: Course,
    deeds: &[Deed],
) -> Result<Course, NoMemory>
    requires time { begun.time + begun.left < 2 ^ 128 }
    requires room { total begun.counts + length deeds.now < 2 ^ 128 }
    ensures text { OnOk result (string_bytes text.new ≡ string_bytes text.old ++ next_texts (deeds_events told begun deeds.now)) }
    ensures course { IfOk result (λ after. after ≡ course_after_all told begun deeds.now) }
    ensures time { IfOk result (λ after. after.time + after.left ≡ begun.time + begun.left) }
{
    let mut course = begun;
    for deed in deeds {
        push_deed(text, told, &course, deed)?;
        course = advance(course, told, deed);
    }
    Ok(course)
}

/// Adds the slice of a quantum that spent so many units and ended in this phase.
fn push_spent(
    text: &mut String,
    number: u64,
    began: u128,
    spent: u64,
    phase: Phase,
) -> Result<(), NoMemory>
    ensures { OnOk result (string_bytes text.new ≡ string_bytes text.old ++ next_text (spent_slice number began spent phase)) }
{
    push_placed(text, "{\"ph\":\"B\"", began, QUANTA)?;
    text.push_str(",\"cat\":\"metroheap\",\"name\":\"quantum\",\"args\":{\"event\":")?;
    push_decimal(text, u128::from(number))?;
    push_number(text, StepsForm::Json, "spent", u128::from(spent))?;
    push_word(text, StepsForm::Json, "phase", phase_word(phase))?;
    text.push_str("}}")?;
    Ok(())
}

/// Adds the slice of a quantum as it begins.
fn push_quantum_slice(
    text: &mut String,
    number: u64,
    began: u128,
    ended: QuantumEnd,
) -> Result<(), NoMemory>
    ensures { OnOk result (string_bytes text.new ≡ string_bytes text.old ++ next_text (quantum_slice number began ended)) }
{
    push_spent(text, number, began, ended.units.0, ended.phase)
}

/// Adds in a quantum the slice of the phase that is open, if one is.
fn push_reopened(text: &mut String, now: u128, phase: Option<Phase>) -> Result<(), NoMemory>
    ensures { OnOk result (string_bytes text.new ≡ string_bytes text.old ++ next_texts (reopened now phase)) }
{
    if let Some(phase) = phase {
        push_begin(text, now, QUANTA, phase_word(phase))?;
    }
    Ok(())
}

/// Adds the slice of a quantum as it begins, and in it that of the phase that is open.
#[tactic(auto, using(crate::proofs::TextLemmas::before_written))]
fn push_quantum_begins(
    text: &mut String,
    number: u64,
    began: u128,
    ended: QuantumEnd,
    slices: Slices,
) -> Result<(), NoMemory>
    ensures { OnOk result (string_bytes text.new ≡ string_bytes text.old ++ next_texts (quantum_begins number began ended slices)) }
{
    push_quantum_slice(text, number, began, ended)?;
    push_reopened(text, began, slices.phase)?;
    Ok(())
}

/// Adds the end of the phase's slice in a quantum, if one is open.
fn push_closed(text: &mut String, now: u128, phase: Option<Phase>) -> Result<(), NoMemory>
    ensures { OnOk result (string_bytes text.new ≡ string_bytes text.old ++ next_texts (closed now phase)) }
{
    if phase.is_some() {
        push_end(text, now, QUANTA)?;
    }
    Ok(())
}

/// Adds the ends of a quantum's slices: those of the phase and of the quantum as it has spent all its units.
fn push_quantum_ends(text: &mut String, course: &Course) -> Result<(), NoMemory>
    requires { course.now.time + course.now.left < 2 ^ 128 }
    ensures { OnOk result (string_bytes text.new ≡ string_bytes text.old ++ next_texts (quantum_ends course.now)) }
{
    let end = course.time + course.left;
    push_step_end(text, course)?;
    push_closed(text, end, course.slices.phase)?;
    push_end(text, end, QUANTA)?;
    Ok(())
}

/// Adds a quantum that began with this course, and gives the course after it.
fn push_whole(
    text: &mut String,
    told: bool,
    number: u64,
    begun: Course,
    ended: QuantumEnd,
    deeds: &[Deed],
) -> Result<Course, NoMemory>
    requires time { begun.time + begun.left < 2 ^ 128 }
    requires room { total begun.counts + length deeds.now < 2 ^ 128 }
    ensures text { OnOk result (string_bytes text.new ≡ string_bytes text.old ++ next_texts (quantum_begins number begun.time ended begun.slices ++ (deeds_events told begun deeds.now ++ quantum_ends (course_after_all told begun deeds.now)))) }
    ensures course { IfOk result (λ after. after ≡ course_after_all told begun deeds.now) }
{
    push_quantum_begins(text, number, begun.time, ended, begun.slices)?;
    let course = push_deeds(text, told, begun, deeds)?;
    push_quantum_ends(text, &course)?;
    Ok(course)
}

/// Adds a quantum that began with this course, unless it spent nothing, and gives the course after it.
pub(crate) fn push_quantum(
    text: &mut String,
    told: bool,
    number: u64,
    course: Course,
    ended: QuantumEnd,
    deeds: &[Deed],
) -> Result<Course, NoMemory>
    requires time { course.time + course.left < 2 ^ 128 }
    requires room { total course.counts + length deeds.now < 2 ^ 128 }
    ensures text { OnOk result (string_bytes text.new ≡ string_bytes text.old ++ next_texts (quantum_events told number course (record { ended = ended; deeds = deeds.now }))) }
    ensures course { IfOk result (λ after. after ≡ quantum_course told course (record { ended = ended; deeds = deeds.now })) }
{
    if ended.units.0 == 0 {
        return Ok(course);
    }
    push_whole(text, told, number, course, ended, deeds)
}
