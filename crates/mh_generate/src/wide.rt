//! Objects of many references, in one block and in several: the profile `wide`.

use crate::plan::Plan;
use crate::random::Random;
use crate::say::{clear, copy, get, make, post, put, read, shape, take};
use crate::session::Session;

/// How many slots name wide objects, from the first on.
const WIDE: u32 = 6;

/// How many references they have.
const REFERENCES: [u32; 10] = [24, 40, 50, 58, 59, 60, 61, 64, 119, 150];

/// A slot of a small object.
fn small(random: &mut Random) -> u32 {
    random.below(8) + WIDE
}

fn field(session: &Session, slot: u32, random: &mut Random) -> u32 {
    random.below(session.shape(slot).references.max(1))
}

/// A new wide object in the place of another, of which some references lead to what slots name.
fn widen(random: &mut Random) -> Plan {
    let slot = random.below(WIDE);
    let references = random.one_of(&REFERENCES).max(1);
    Plan::of(&[
        make(slot, references, random.below(3)),
        put(slot, 0, random.slot()),
        put(slot, references - 1, random.slot()),
        put(slot, random.below(references), random.slot()),
        put(slot, random.below(references), random.slot()),
    ])
}

/// New small objects to which references of a wide one lead.
fn fill(session: &Session, random: &mut Random) -> Plan {
    let slot = random.below(WIDE);
    let one = small(random);
    let two = small(random);
    Plan::of(&[
        make(one, 1, random.below(5)),
        put(slot, field(session, slot, random), one),
        make(two, random.below(4), 1),
        put(slot, field(session, slot, random), two),
        put(two, 0, one),
    ])
}

fn load(session: &Session, random: &mut Random) -> Plan {
    let slot = random.below(WIDE);
    let to = small(random);
    Plan::of(&[
        get(to, slot, field(session, slot, random)),
        shape(to),
        read(to, 0),
        put(slot, field(session, slot, random), to),
    ])
}

pub(crate) fn plan(session: &Session, random: &mut Random) -> Plan {
    let slot = random.slot();
    match random.below(100) {
        0..=11 => widen(random),
        12..=61 => fill(session, random),
        62..=89 => load(session, random),
        90..=93 => Plan::of(&[
            post(random.slot(), slot),
            take(small(random), random.slot()),
        ]),
        94..=96 => Plan::of(&[copy(random.below(WIDE), random.below(WIDE))]),
        _ => Plan::of(&[clear(slot)]),
    }
}
