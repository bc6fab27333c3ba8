//! Commands that are refused, for each reason: the profile `refusals`. Sessions beside those that do the work have
//! their commands from here too.

use crate::churn;
use crate::plan::Plan;
use crate::random::{Random, SLOTS};
use crate::say::{clear, copy, get, make, post, put, read, same, shape, take, write};
use crate::session::Session;
use mh_model::command::Command;

/// Numbers of slots that no session has.
const NO_SLOTS: [u32; 4] = [SLOTS, SLOTS + 1, 1_000, u32::MAX];

/// Counts of fields above the most.
const TOO_MANY: [u32; 4] = [216_001, 216_002, 1_000_000, u32::MAX];

/// A slot that is emptied before it is looked through.
const EMPTY: u32 = 15;

/// A command with one slot, or slot of the board, that there isn't.
fn bad_slot(random: &mut Random) -> Command {
    let bad = random.one_of(&NO_SLOTS);
    let good = random.slot();
    match random.below(17) {
        0 => make(bad, 1, 1),
        1 => get(bad, good, 0),
        2 => get(good, bad, 0),
        3 => put(bad, 0, good),
        4 => put(good, 0, bad),
        5 => copy(bad, good),
        6 => copy(good, bad),
        7 => clear(bad),
        8 => read(bad, 0),
        9 => write(bad, 0, 1),
        10 => same(bad, good),
        11 => same(good, bad),
        12 => shape(bad),
        13 => post(bad, good),
        14 => post(good, bad),
        15 => take(bad, good),
        _ => take(good, bad),
    }
}

/// A command that looks through an empty slot.
fn null(random: &mut Random) -> Plan {
    let field = random.below(3);
    let command = match random.below(5) {
        0 => get(random.slot(), EMPTY, field),
        1 => put(EMPTY, field, random.slot()),
        2 => read(EMPTY, field),
        3 => write(EMPTY, field, random.wide()),
        _ => shape(EMPTY),
    };
    Plan::of(&[clear(EMPTY), command])
}

/// A number of a field that an object with so many doesn't have.
fn past(count: u32, random: &mut Random) -> u32 {
    match random.below(3) {
        0 => count,
        1 => count.saturating_add(1),
        _ => u32::MAX,
    }
}

fn no_field(session: &Session, random: &mut Random) -> Command {
    let slot = random.slot();
    let reference = past(session.shape(slot).references, random);
    let index = past(session.shape(slot).numbers, random);
    match random.below(4) {
        0 => get(random.slot(), slot, reference),
        1 => put(slot, reference, random.slot()),
        2 => read(slot, index),
        _ => write(slot, index, random.wide()),
    }
}

fn too_large(random: &mut Random) -> Command {
    let fields = random.one_of(&TOO_MANY);
    let references = match random.below(4) {
        0 => 0,
        1 => fields,
        2 => u32::MAX,
        _ => random.below(216_000),
    };
    make(
        random.slot(),
        references,
        fields.saturating_sub(references).max(1),
    )
}

/// A command of a session that does no other work, and that it may be the last of.
pub(crate) fn strange(session: &Session, random: &mut Random) -> Plan {
    match random.below(8) {
        0 => Plan::of(&[Command::End]),
        1 => Plan::of(&[bad_slot(random)]),
        _ => churn::plan(session, random),
    }
}

pub(crate) fn plan(session: &Session, random: &mut Random) -> Plan {
    match random.below(100) {
        0..=14 => Plan::of(&[bad_slot(random)]),
        15..=24 => null(random),
        25..=36 => Plan::of(&[no_field(session, random)]),
        37..=42 => Plan::of(&[too_large(random)]),
        43..=46 => Plan::of(&[make(random.slot(), 100_000, random.below(116_001))]),
        _ => churn::plan(session, random),
    }
}
