//! A chain of wide objects, each with small ones of its own: the profile `fans`. A wide object's last reference leads to
//! the next of the chain. So a collector that marks depth first, and looks at what it found last before all else, has
//! nearly all small objects waiting as it comes to the end. The chain hangs on the board. All sessions build it, wait
//! for a collection, and take it apart from its head.

use crate::act::Field::Last;
use crate::act::Step::{Clear, LoadLast, MakeWide, Post, Store, Take, Touch, Withdraw};
use crate::act::Touch::MarkFirst;
use crate::act::{Act, Step};
use crate::comb::{BEGIN, FILL, LOOK, TOOTH, WAIT, WIDE};
use crate::random::Random;
use crate::sight::Sight;
use mh_orders::generate_options::Options;

/// How many references and numbers a wide object has.
pub(crate) const SIZE: (u32, u32) = (121, 1);

/// One slot of the board has the head of the chain.
pub(crate) const BOARDS: u32 = 1;

/// The most small objects that a script has at once.
const MOST: u32 = 6_000;

/// How many there are at most for each page.
const PER_PAGE: u32 = 16;

const NEXT: u32 = 2;

/// Parts of a round, of sevenths of events for each small object: the chain is built, a collection is waited for, and
/// then it is taken apart.
const MAKING: u32 = 3;

const WAITING: u32 = 4;

const ROUND: u32 = 7;

/// A full wide object is hung before the chain, and another is begun.
const HANG: &[Step] = &[
    Take(NEXT),
    Store(WIDE, Last, NEXT),
    Post(WIDE),
    Clear(NEXT),
    MakeWide(WIDE),
    Touch(WIDE, MarkFirst),
];

/// The head is taken off the chain.
const UNHANG: &[Step] = &[
    Clear(TOOTH),
    Take(WIDE),
    Withdraw,
    LoadLast(NEXT, WIDE),
    Post(NEXT),
    Clear(NEXT),
];

/// How many small objects there are in all.
fn blades(options: &Options) -> u32 {
    let pages = options.config.pages;
    (options.events / ROUND)
        .min(pages.saturating_mul(PER_PAGE))
        .min(MOST)
        .max(1)
}

/// An act of a session after so many events.
pub(crate) fn act(sight: &Sight<'_>, options: &Options, done: u32, random: &mut Random) -> Act {
    let Some(wide) = sight.object(WIDE) else {
        return Act::of(BEGIN, 0);
    };
    let round = blades(options).saturating_mul(ROUND);
    let has_room = sight.reference(wide, false, random).is_some();
    let steps = match done % round.max(1) / blades(options).max(1) {
        0..MAKING if has_room => FILL,
        0..MAKING => HANG,
        MAKING..WAITING => WAIT,
        _ if sight.reference(wide, true, random).is_some() => LOOK,
        _ if sight.posted(0).is_some() => UNHANG,
        _ => WAIT,
    };
    Act::of(steps, 0)
}
