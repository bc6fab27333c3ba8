//! Small objects of all kinds, most of which live shortly: the profile `churn`. The profile `refusals` has such
//! commands between its own.

use crate::plan::Plan;
use crate::random::Random;
use crate::say::{clear, copy, get, make, post, put, read, same, shape, take, write};
use crate::session::Session;
use mh_model::command::Command;

/// How many slots are often written to. What the others name stays longer.
const BUSY: u32 = 12;

/// A slot to be written to.
fn target(random: &mut Random) -> u32 {
    if random.chance(1, 30) {
        random.slot()
    } else {
        random.below(BUSY)
    }
}

/// A new object with few fields as a rule.
fn small(random: &mut Random) -> Command {
    let slot = target(random);
    let most = if random.chance(9, 10) { 7 } else { 30 };
    make(slot, random.below(most), random.below(most))
}

/// A command on objects that are there as a rule, in fields that they have as a rule.
fn touch(session: &Session, random: &mut Random) -> Command {
    let slot = random.slot();
    let reference = random.below(session.shape(slot).references.max(1));
    let index = random.below(session.shape(slot).numbers.max(1));
    let other = random.slot();
    match random.below(24) {
        0..=7 => put(slot, reference, other),
        8..=11 => get(target(random), slot, reference),
        12..=14 => write(slot, index, random.wide()),
        15..=17 => read(slot, index),
        18 => copy(target(random), slot),
        19 => same(slot, other),
        20 => shape(slot),
        21 => clear(target(random)),
        22 => post(other, slot),
        _ => take(target(random), slot),
    }
}

pub(crate) fn command(session: &Session, random: &mut Random) -> Command {
    if random.chance(45, 100) {
        small(random)
    } else {
        touch(session, random)
    }
}

pub(crate) fn plan(session: &Session, random: &mut Random) -> Plan {
    Plan::of(&[command(session, random)])
}
