//! Objects with thousands of references, each to an object of its own, so that as many objects are grey at once: the
//! profile `comb`. Such an object is filled, kept over a collection, read and dropped.

use crate::act::Field::{Loaded, Null};
use crate::act::Step::{Clear, Cut, Load, Make, MakeWide, Store, Touch};
use crate::act::Touch::{MarkFirst, ReadFirst, Shape, SpoilFirst};
use crate::act::{Act, Step};
use crate::random::Random;
use crate::sight::Sight;
use mh_model::limits::SPINE_FIELDS;
use mh_orders::generate_options::Options;

/// The most objects that a script has at once.
const MOST: u32 = 4_000;

/// How many there are at most for each page.
const PER_PAGE: u32 = 16;

pub(crate) const SIZES: [(u32, u32); 1] = [(1, 1)];

pub(crate) const WIDE: u32 = 0;

pub(crate) const TOOTH: u32 = 1;

/// Parts of a round, of eighths of events for each object: objects are made, a collection is waited for, and then each is
/// read.
const MAKING: u32 = 4;

const WAITING: u32 = 5;

const ROUND: u32 = 8;

pub(crate) const BEGIN: &[Step] = &[MakeWide(WIDE), Touch(WIDE, MarkFirst)];

pub(crate) const FILL: &[Step] = &[
    Make(TOOTH),
    Touch(TOOTH, MarkFirst),
    Store(WIDE, Null, TOOTH),
];

/// What is done until a collection is over.
pub(crate) const WAIT: &[Step] = &[
    Clear(TOOTH),
    Make(TOOTH),
    Touch(TOOTH, SpoilFirst),
    Clear(TOOTH),
    Touch(WIDE, Shape),
    Touch(WIDE, ReadFirst),
];

/// One more object is read, and let go.
pub(crate) const LOOK: &[Step] = &[
    Load(TOOTH, WIDE),
    Cut(WIDE, Loaded),
    Touch(TOOTH, ReadFirst),
];

const DROP: &[Step] = &[
    Clear(TOOTH),
    Clear(WIDE),
    MakeWide(WIDE),
    Touch(WIDE, MarkFirst),
];

/// How many objects there are in all.
fn teeth(options: &Options) -> u32 {
    let pages = options.config.pages;
    (options.events / ROUND)
        .min(pages.saturating_mul(PER_PAGE))
        .min(MOST)
        .max(1)
}

/// How many references and numbers the wide object of each session has.
pub(crate) fn wide(options: &Options) -> (u32, u32) {
    let references = teeth(options) / u32::from(options.sessions);
    (references.clamp(1, SPINE_FIELDS - 1), 1)
}

/// An act of a session after so many events.
pub(crate) fn act(sight: &Sight<'_>, options: &Options, done: u32, random: &mut Random) -> Act {
    let Some(wide) = sight.object(WIDE) else {
        return Act::of(BEGIN, 0);
    };
    let round = teeth(options).saturating_mul(ROUND);
    let has_room = sight.reference(wide, false, random).is_some();
    let steps = match done % round.max(1) / teeth(options).max(1) {
        0..MAKING if has_room => FILL,
        0..WAITING => WAIT,
        _ if sight.reference(wide, true, random).is_some() => LOOK,
        _ => DROP,
    };
    Act::of(steps, 0)
}
