//! What sessions see of the heap that runs along with a script. It is read where acts look for what they change.
ghost use Rattle.std.specs.Prelude.{◌<◌};

use crate::random::Random;
use mh_heap::heap::Heap;
use mh_heap::plain::PlainHeap;
use mh_model::birth::Birth;
use mh_model::limits::{ROOT_SLOTS, SESSION_SLOTS, SESSIONS};
use mh_model::shape::Shape;

/// A heap as one of its sessions sees it.
#[derive(Clone, Copy)]
pub(crate) struct Sight<'a> {
    pub(crate) heap: &'a PlainHeap,
    pub(crate) who: u8,
}

impl Sight<'_> {
    /// The object that a root slot names, if there is one.
    fn named(&self, slot: usize) -> Option<Birth> {
        if slot >= ROOT_SLOTS {
            return None;
        }
        self.heap
            .name_in(slot)
            .filter(|birth| birth.0 < self.heap.births())
    }

    /// The object that a slot of the session names, if there is one.
    pub(crate) fn object(&self, slot: u32) -> Option<Birth> {
        self.named(usize::from(self.who) * SESSION_SLOTS + slot as usize)
    }

    /// The object that a slot of the board names, if there is one.
    pub(crate) fn posted(&self, board: u32) -> Option<Birth> {
        self.named(SESSIONS * SESSION_SLOTS + board as usize)
    }

    /// The counts of an object.
    pub(crate) fn shape(&self, birth: Birth) -> Shape {
        if birth.0 < self.heap.births() {
            self.heap.shape_of(birth)
        } else {
            Shape {
                references: 0,
                numbers: 0,
            }
        }
    }

    /// The references of an object.
    pub(crate) fn references(&self, birth: Birth) -> &[Option<Birth>] {
        if birth.0 < self.heap.births() {
            self.heap.references(birth)
        } else {
            &[]
        }
    }

    /// The last reference that an object has.
    pub(crate) fn last_reference(&self, birth: Birth) -> Option<u32> {
        let last = self.references(birth).len().checked_sub(1)?;
        u32::try_from(last).ok()
    }

    /// A reference of an object that leads somewhere, or one that leads nowhere. It is often the first or the last.
    pub(crate) fn reference(&self, birth: Birth, is_set: bool, random: &mut Random) -> Option<u32> {
        let references = self.references(birth);
        let count = references.len();
        let start = match random.below(4) {
            0 => 0,
            1 => count.saturating_sub(1),
            _ => random.wide() as usize % count.max(1),
        };
        for step in 0..count {
            let field = (start + step) % count;
            if references[field].is_some() == is_set {
                return u32::try_from(field).ok();
            }
        }
        None
    }
}
