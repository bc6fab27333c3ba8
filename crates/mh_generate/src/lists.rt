//! Long lists that are built, walked and cut: the profile `lists`.

use crate::plan::Plan;
use crate::random::Random;
use crate::say::{clear, copy, get, make, post, put, read, same, shape, take, write};

/// The slot of the first node of the session's list.
const FIRST: u32 = 0;

const NODE: u32 = 1;

/// The slot of a node that was walked to.
const PLACE: u32 = 2;

const LATER: u32 = 3;

/// The first of the slots that name lists of other sessions.
const OTHERS: u32 = 4;

/// A slot that names nothing.
const EMPTY: u32 = 15;

/// The reference to the next node, and one to any list.
const NEXT: u32 = 0;

const SIDE: u32 = 1;

fn other(random: &mut Random) -> u32 {
    random.below(8) + OTHERS
}

fn grow(random: &mut Random) -> Plan {
    let numbers = random.below(9);
    Plan::of(&[
        make(NODE, 2, numbers),
        put(NODE, NEXT, FIRST),
        put(NODE, SIDE, other(random)),
        copy(FIRST, NODE),
    ])
}

fn walk(random: &mut Random) -> Plan {
    let on = get(PLACE, PLACE, NEXT);
    match random.below(4) {
        0 => Plan::of(&[copy(PLACE, FIRST), on, on, on, on, on, read(PLACE, 0)]),
        1 => Plan::of(&[on, on, on, shape(PLACE), same(PLACE, FIRST)]),
        2 => Plan::of(&[on, on, write(PLACE, 0, random.wide())]),
        _ => Plan::of(&[
            copy(PLACE, FIRST),
            on,
            get(PLACE, PLACE, SIDE),
            on,
            read(PLACE, 0),
        ]),
    }
}

fn insert(random: &mut Random) -> Plan {
    let numbers = random.below(3);
    Plan::of(&[
        make(NODE, 2, numbers),
        get(LATER, PLACE, NEXT),
        put(NODE, NEXT, LATER),
        put(PLACE, NEXT, NODE),
    ])
}

fn share(random: &mut Random) -> Plan {
    let board = random.slot();
    Plan::of(&[take(other(random), board), post(board, FIRST)])
}

pub(crate) fn plan(random: &mut Random) -> Plan {
    match random.below(200) {
        0..=99 => grow(random),
        100..=139 => walk(random),
        140..=159 => insert(random),
        160..=179 => Plan::of(&[get(FIRST, FIRST, NEXT)]),
        180..=187 => share(random),
        188..=193 => Plan::of(&[put(PLACE, NEXT, EMPTY), copy(PLACE, FIRST)]),
        194..=197 => Plan::of(&[clear(other(random)), clear(EMPTY)]),
        198 => Plan::of(&[copy(FIRST, PLACE)]),
        _ => Plan::of(&[clear(FIRST), clear(PLACE), clear(LATER)]),
    }
}
