//! References that are moved, hidden and cut while the collector looks for them: the profile `barriers`.
//!
//! Each object has a number of its own in its first and its last number, so a wrong reference shows where it is read.
//! In the end all that is reached is read, and cut off as it is.

use crate::act::Field::{Loaded, Null, Set};
use crate::act::Step::{
    Begin, Clear, Copy, Cut, Forget, Keep, Load, Make, Post, Same, Store, Take, Touch, Withdraw,
};
use crate::act::Touch::{MarkFirst, MarkLast, ReadFirst, ReadLast, Shape, SpoilFirst, SpoilLast};
use crate::act::{Act, KEPT, Step};
use crate::random::Random;
use crate::sight::Sight;

/// Sizes of objects: few fields as a rule, and those that fill a block of their class or arraylets. Some have no number,
/// so that their last word is a reference.
pub(crate) const SIZES: [(u32, u32); 24] = [
    (1, 1),
    (2, 1),
    (2, 1),
    (3, 2),
    (3, 0),
    (4, 2),
    (5, 0),
    (1, 4),
    (8, 1),
    (9, 2),
    (16, 0),
    (0, 1),
    (0, 2),
    (2, 20),
    (29, 1),
    (30, 0),
    (40, 0),
    (45, 1),
    (46, 1),
    (60, 0),
    (59, 1),
    (60, 1),
    (61, 0),
    (119, 2),
];

/// The slots of acts, counted from the first that keeps nothing.
const SOURCE: u32 = 0;

const HELD: u32 = 1;

const TARGET: u32 = 2;

const OTHER: u32 = 3;

const FRESH: u32 = 4;

/// A reference is loaded and stored elsewhere, and then it is cut where it was.
const HIDE: &[Step] = &[
    Begin(SOURCE),
    Load(SOURCE, SOURCE),
    Load(HELD, SOURCE),
    Begin(TARGET),
    Load(TARGET, TARGET),
    Store(TARGET, Null, HELD),
    Cut(SOURCE, Loaded),
    Clear(HELD),
];

/// A reference is loaded, cut where it was, and then stored elsewhere over another.
const HIDE_CUT: &[Step] = &[
    Begin(TARGET),
    Begin(SOURCE),
    Load(SOURCE, SOURCE),
    Load(SOURCE, SOURCE),
    Load(HELD, SOURCE),
    Cut(SOURCE, Loaded),
    Store(TARGET, Set, HELD),
    Clear(HELD),
    Touch(TARGET, ReadLast),
];

/// A reference is loaded and cut, and a slot alone holds its object for a while.
const HOLD: &[Step] = &[
    Begin(SOURCE),
    Load(SOURCE, SOURCE),
    Load(HELD, SOURCE),
    Cut(SOURCE, Loaded),
    Clear(SOURCE),
    Same(OTHER, OTHER),
    Make(FRESH),
    Touch(FRESH, SpoilFirst),
    Clear(FRESH),
    Same(HELD, FRESH),
    Touch(HELD, ReadFirst),
    Touch(HELD, ReadLast),
    Begin(SOURCE),
    Store(SOURCE, Null, HELD),
    Clear(HELD),
];

/// A reference is loaded and cut, a slot alone holds its object for a while, and a fresh object stands in the place of the other.
const HOLD_FRESH: &[Step] = &[
    Begin(SOURCE),
    Load(HELD, SOURCE),
    Make(FRESH),
    Touch(FRESH, MarkFirst),
    Touch(FRESH, MarkLast),
    Store(SOURCE, Loaded, FRESH),
    Store(FRESH, Null, HELD),
    Clear(FRESH),
    Same(HELD, HELD),
    Touch(HELD, ReadFirst),
    Touch(HELD, Shape),
    Clear(HELD),
];

/// A reference that may be the only way to an object leads nowhere from now on.
const CUT_LAST: &[Step] = &[Begin(SOURCE), Load(SOURCE, SOURCE), Cut(SOURCE, Set)];

/// A fresh object is hung below one that has been there for long.
const AGE: &[Step] = &[
    Begin(SOURCE),
    Load(SOURCE, SOURCE),
    Make(FRESH),
    Touch(FRESH, MarkFirst),
    Touch(FRESH, MarkLast),
    Store(SOURCE, Null, FRESH),
    Clear(FRESH),
];

/// Fresh objects are hung on one another, the last of them before what was there.
const CHAIN: &[Step] = &[
    Begin(SOURCE),
    Make(FRESH),
    Touch(FRESH, MarkFirst),
    Store(SOURCE, Null, FRESH),
    Copy(SOURCE, FRESH),
    Make(FRESH),
    Touch(FRESH, MarkLast),
    Touch(FRESH, MarkFirst),
    Store(SOURCE, Null, FRESH),
    Begin(SOURCE),
    Load(HELD, SOURCE),
    Store(SOURCE, Loaded, FRESH),
    Store(FRESH, Null, HELD),
    Clear(HELD),
    Clear(FRESH),
];

/// Two references change places.
const SWAP: &[Step] = &[
    Begin(SOURCE),
    Begin(TARGET),
    Load(TARGET, TARGET),
    Load(HELD, SOURCE),
    Load(OTHER, TARGET),
    Store(SOURCE, Loaded, OTHER),
    Store(TARGET, Loaded, HELD),
    Clear(HELD),
    Clear(OTHER),
];

/// Objects of the same sizes take the room of what is freed too soon, and are dropped.
const LITTER: &[Step] = &[
    Make(FRESH),
    Touch(FRESH, SpoilFirst),
    Touch(FRESH, SpoilLast),
    Make(FRESH),
    Touch(FRESH, SpoilFirst),
    Make(FRESH),
    Touch(FRESH, SpoilLast),
    Clear(FRESH),
];

const CHECK: &[Step] = &[
    Begin(SOURCE),
    Touch(SOURCE, ReadFirst),
    Touch(SOURCE, Shape),
    Load(HELD, SOURCE),
    Touch(HELD, ReadFirst),
    Load(HELD, HELD),
    Touch(HELD, ReadLast),
    Same(HELD, SOURCE),
];

/// A slot keeps a fresh object, with a reference to another that was kept.
const KEEP: &[Step] = &[
    Make(FRESH),
    Touch(FRESH, MarkFirst),
    Touch(FRESH, MarkLast),
    Begin(SOURCE),
    Store(FRESH, Null, SOURCE),
    Keep(FRESH),
    Clear(FRESH),
];

const SHARE: &[Step] = &[
    Begin(SOURCE),
    Load(SOURCE, SOURCE),
    Post(SOURCE),
    Take(HELD),
    Touch(HELD, ReadLast),
    Keep(HELD),
    Clear(HELD),
];

const FORGET: &[Step] = &[Forget];

/// The acts. Those that stand here more than once come more often.
const ACTS: [&[Step]; 21] = [
    HIDE, HIDE, HIDE_CUT, HIDE_CUT, HOLD, HOLD, HOLD_FRESH, CUT_LAST, CUT_LAST, AGE, AGE, AGE, AGE,
    CHAIN, CHAIN, SWAP, LITTER, CHECK, KEEP, SHARE, FORGET,
];

/// The object in a slot is left for one to which it leads, which is read.
const WALK: &[Step] = &[
    Load(1, 0),
    Cut(0, Loaded),
    Touch(1, ReadFirst),
    Touch(1, ReadLast),
    Touch(1, Shape),
];

/// The object in a slot is left for one to which it leads, which is read, where there is no slot behind it.
const WALK_ON: &[Step] = &[Load(0, 0), Touch(0, ReadFirst), Touch(0, ReadLast)];

const STOP: &[Step] = &[Clear(0)];

/// What is left on the board is read.
const COLLECT: &[Step] = &[
    Take(0),
    Withdraw,
    Touch(0, ReadFirst),
    Touch(0, ReadLast),
    Touch(0, Shape),
];

/// The last slot from which a walk goes on into the next one.
const DEEPEST: u32 = 13;

/// Once a session names nothing, one in so many acts is none of the walk.
const REST: u32 = 8;

/// An act of a session.
pub(crate) fn act(random: &mut Random) -> Act {
    let place = random.below(ACTS.len() as u32);
    Act::of(ACTS[place as usize], KEPT)
}

/// A step of the walk through all that is reached. The slots are its stack.
pub(crate) fn walk(sight: &Sight<'_>, random: &mut Random) -> Act {
    for slot in (0..=DEEPEST + 1).rev() {
        let Some(object) = sight.object(slot) else {
            continue;
        };
        let leads_on = sight.reference(object, true, random).is_some();
        return match (leads_on, slot <= DEEPEST) {
            (true, true) => Act::of(WALK, slot),
            (true, false) => Act::of(WALK_ON, slot),
            (false, _) => Act::of(STOP, slot),
        };
    }
    if random.chance(1, REST) {
        act(random)
    } else {
        Act::of(COLLECT, 0)
    }
}
