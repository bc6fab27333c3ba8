//! Trees that are joined, walked, grafted, turned and pruned: the profile `trees`.

use crate::plan::Plan;
use crate::random::Random;
use crate::say::{clear, copy, get, make, post, put, read, take, write};
use crate::session::Session;
use mh_model::command::Command;

/// How many slots name trees, from the first on.
const TREES: u32 = 8;

const NODE: u32 = 8;

/// The slots of nodes that were walked to.
const PLACE: u32 = 9;

const CHILD: u32 = 10;

const GRANDCHILD: u32 = 11;

/// A slot that names nothing.
const EMPTY: u32 = 15;

const LEFT: u32 = 0;

const RIGHT: u32 = 1;

fn join(left: u32, right: u32, random: &mut Random) -> Plan {
    let numbers = random.below(4);
    Plan::of(&[
        make(NODE, 2, numbers),
        put(NODE, LEFT, left),
        put(NODE, RIGHT, right),
        copy(left, NODE),
        clear(right),
        clear(NODE),
    ])
}

/// The tree with the right child of its root as its root.
fn turn(tree: u32) -> Plan {
    Plan::of(&[
        get(CHILD, tree, RIGHT),
        get(GRANDCHILD, CHILD, LEFT),
        put(tree, RIGHT, GRANDCHILD),
        put(CHILD, LEFT, tree),
        copy(tree, CHILD),
    ])
}

/// A walk down a tree, and what is done at its end.
fn walk(tree: u32, last: [Command; 2], random: &mut Random) -> Plan {
    let [one, two] = last;
    let start = copy(PLACE, tree);
    let step = get(PLACE, PLACE, random.below(2));
    let turn = get(PLACE, PLACE, random.below(2));
    if random.chance(1, 2) {
        Plan::of(&[start, step, one, two])
    } else {
        Plan::of(&[start, step, turn, step, one, two])
    }
}

fn share(tree: u32, random: &mut Random) -> Plan {
    let board = random.slot();
    Plan::of(&[post(board, tree), take(random.below(TREES), random.slot())])
}

/// What is done with a tree beside another.
fn tend(tree: u32, other: u32, random: &mut Random) -> Plan {
    let side = random.below(2);
    let number = random.wide();
    match random.below(100) {
        0..=39 => join(tree, other, random),
        40..=54 => walk(tree, [read(PLACE, 0), write(PLACE, 0, number)], random),
        55..=74 => walk(tree, [put(PLACE, side, other), clear(PLACE)], random),
        75..=82 => walk(tree, [put(PLACE, side, EMPTY), clear(PLACE)], random),
        83..=90 => turn(tree),
        91..=97 => share(tree, random),
        _ => Plan::of(&[clear(tree), clear(EMPTY)]),
    }
}

pub(crate) fn plan(session: &Session, random: &mut Random) -> Plan {
    let tree = random.below(TREES);
    if session.shape(tree).references == 0 {
        return Plan::of(&[make(tree, 2, random.below(6))]);
    }
    let other = random.below(TREES);
    tend(tree, other, random)
}
