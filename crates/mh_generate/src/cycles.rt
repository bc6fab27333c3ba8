//! Few objects that live and much litter, so that cycles are short and many: the profile `cycles`. Litter has so many
//! blocks that each makes a quantum due.

use crate::act::Field::{Loaded, Null};
use crate::act::Step::{Begin, Clear, Cut, Forget, Keep, Load, Make, MakeWide, Store, Touch};
use crate::act::Touch::{MarkFirst, MarkLast, ReadFirst, ReadLast};
use crate::act::{Act, KEPT, Step};
use crate::random::Random;

pub(crate) const SIZES: [(u32, u32); 4] = [(1, 1), (2, 1), (3, 2), (4, 0)];

/// The size of litter: 26 blocks of numbers, and one that leads to them.
pub(crate) const LITTER_SIZE: (u32, u32) = (0, 1_560);

const SOURCE: u32 = 0;

const HELD: u32 = 1;

const FRESH: u32 = 2;

const LITTER: &[Step] = &[MakeWide(FRESH), Clear(FRESH)];

const KEEP: &[Step] = &[
    Make(FRESH),
    Touch(FRESH, MarkFirst),
    Touch(FRESH, MarkLast),
    Begin(SOURCE),
    Store(FRESH, Null, SOURCE),
    Keep(FRESH),
    Clear(FRESH),
    Clear(SOURCE),
];

const MOVE: &[Step] = &[
    Begin(SOURCE),
    Load(HELD, SOURCE),
    Cut(SOURCE, Loaded),
    Touch(HELD, ReadFirst),
    Keep(HELD),
    Clear(HELD),
    Touch(SOURCE, ReadLast),
    Clear(SOURCE),
];

const FORGET: &[Step] = &[Forget];

const ACTS: [&[Step]; 8] = [LITTER, LITTER, LITTER, LITTER, LITTER, KEEP, MOVE, FORGET];

pub(crate) fn act(random: &mut Random) -> Act {
    let place = random.below(ACTS.len() as u32);
    Act::of(ACTS[place as usize], KEPT)
}
