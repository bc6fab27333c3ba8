//! Sessions that share few objects by few slots of the board: the profile `race`. Each command is an act of its own, so
//! sessions come between the commands of one another. What `write` writes is the number of its event, which `chooser`
//! sees to.

use crate::act::Field::{Null, Set};
use crate::act::Step::{Cut, Load, Make, Post, Same, Store, Take, Touch};
use crate::act::Touch::{MarkFirst, MarkLast, ReadFirst, ReadLast, Shape};
use crate::act::{Act, Step};
use crate::random::Random;

pub(crate) const SIZES: [(u32, u32); 2] = [(2, 2), (1, 3)];

/// How many slots of the board are shared.
pub(crate) const BOARDS: u32 = 3;

/// How many slots of a session name objects that are shared.
const SLOTS: u32 = 4;

const ACTS: [&[Step]; 16] = [
    &[Take(0)],
    &[Take(0)],
    &[Post(0)],
    &[Load(0, 1)],
    &[Load(1, 0)],
    &[Store(0, Set, 1)],
    &[Store(0, Null, 1)],
    &[Cut(0, Set)],
    &[Touch(0, MarkFirst)],
    &[Touch(0, MarkLast)],
    &[Touch(0, MarkLast)],
    &[Touch(0, ReadFirst)],
    &[Touch(0, ReadLast)],
    &[Touch(0, ReadLast)],
    &[Touch(0, Shape)],
    &[Same(0, 1)],
];

/// A new object, which is shared.
const BEGIN: &[Step] = &[Make(0), Post(0)];

pub(crate) fn act(random: &mut Random) -> Act {
    let slot = random.below(SLOTS);
    if random.chance(1, 50) {
        return Act::of(BEGIN, slot);
    }
    let place = random.below(ACTS.len() as u32);
    Act::of(ACTS[place as usize], slot)
}
