//! Objects of many blocks, with sizes at and beside the limits of blocks and spines: the profile `large`. One session at a
//! time has an object with a full spine, so that the heap of most scripts is rarely full.

use crate::plan::Plan;
use crate::random::Random;
use crate::say::{clear, copy, get, make, put, read, shape, write};
use crate::session::Session;
use mh_model::config::Rules;
use mh_model::limits::SPINE_FIELDS;
use mh_model::shape::Shape;

/// Fields of one block, of two arraylets and of three.
const SMALL: [u32; 8] = [1, 58, 59, 60, 61, 62, 120, 121];

/// Fields of several arraylets.
const MIDDLE: [u32; 6] = [179, 180, 181, 300, 359, 600];

/// Fields of a full spine, and of two that lie between a spine and its arraylets.
const TALL: [u32; 6] = [3_599, 3_600, 3_601, 3_660, 3_661, 7_201];

/// Fields of the largest object, and one less and one more.
const TALLEST: [u32; 3] = [215_999, 216_000, 216_001];

/// Numbers of fields that lie at the ends of blocks and of spines.
const ENDS: [u32; 10] = [0, 1, 59, 60, 61, 119, 120, 3_599, 3_600, 3_601];

/// The most references of an object as a rule, so that it is soon marked.
const FEW: u32 = 600;

/// The slot of the object with most blocks.
const TALL_SLOT: u32 = 0;

/// A slot of an object with several blocks.
fn middle_slot(random: &mut Random) -> u32 {
    random.below(2) + 1
}

fn small_slot(random: &mut Random) -> u32 {
    random.below(6) + 3
}

/// So many fields as references and numbers.
fn parted(fields: u32, random: &mut Random) -> Shape {
    let references = match random.below(16) {
        0..=1 => 0,
        2 => fields,
        3 => fields / 2,
        4..=8 => fields.min(60),
        _ => random.below(fields.clamp(1, FEW)),
    };
    Shape {
        references,
        numbers: fields.saturating_sub(references),
    }
}

/// One of so many fields, often at an end.
fn field(count: u32, random: &mut Random) -> u32 {
    let last = count.saturating_sub(1);
    match random.below(4) {
        0 => last,
        1 => random.below(count.max(1)),
        _ => random.one_of(&ENDS).min(last),
    }
}

/// A new object, and a number and a reference of it.
fn enlarge(slot: u32, fields: u32, random: &mut Random) -> Plan {
    let Shape {
        references,
        numbers,
    } = parted(fields, random);
    Plan::of(&[
        make(slot, references, numbers),
        put(slot, field(references, random), random.slot()),
        write(slot, field(numbers, random), random.wide()),
        read(slot, field(numbers, random)),
        get(small_slot(random), slot, field(references, random)),
        shape(slot),
    ])
}

/// An object is looked at and written to, or made if there is none.
fn touch(session: &Session, random: &mut Random) -> Plan {
    let slot = random.below(9);
    let Shape {
        references,
        numbers,
    } = session.shape(slot);
    let all = references.saturating_add(numbers);
    if all == 0 {
        return enlarge(small_slot(random), random.one_of(&SMALL), random);
    }
    if random.chance(references, all) {
        Plan::of(&[
            put(slot, field(references, random), random.slot()),
            put(slot, field(references, random), small_slot(random)),
            get(small_slot(random), slot, field(references, random)),
        ])
    } else {
        Plan::of(&[
            write(slot, field(numbers, random), random.wide()),
            read(slot, field(numbers, random)),
        ])
    }
}

/// A new object of some size, the larger the more rarely. Those with a full spine come in the session's turn. Under the
/// second rules one more field is asked for now and then than an object may have.
fn grow(rules: Rules, is_turn: bool, random: &mut Random) -> Plan {
    let most = match rules {
        Rules::First => SPINE_FIELDS,
        Rules::Second => u32::MAX,
    };
    match random.below(100) {
        80..=95 if is_turn => enlarge(TALL_SLOT, random.one_of(&TALL).min(most), random),
        96..=99 if is_turn => enlarge(TALL_SLOT, random.one_of(&TALLEST).min(most), random),
        0..=64 => enlarge(small_slot(random), random.one_of(&SMALL), random),
        _ => enlarge(middle_slot(random), random.one_of(&MIDDLE), random),
    }
}

/// The plan of a session. If it isn't its turn, it lets go of the object with most blocks.
pub(crate) fn plan(session: &Session, rules: Rules, is_turn: bool, random: &mut Random) -> Plan {
    if !is_turn && !session.is_empty(TALL_SLOT) {
        return Plan::of(&[clear(TALL_SLOT)]);
    }
    match random.below(100) {
        0..=19 => grow(rules, is_turn, random),
        20..=79 => touch(session, random),
        80..=84 => Plan::of(&[copy(small_slot(random), middle_slot(random))]),
        85..=94 => Plan::of(&[clear(middle_slot(random)), clear(small_slot(random))]),
        _ => Plan::of(&[clear(TALL_SLOT)]),
    }
}
