//! Walks that are kept for the reports to come, for the first 512 windows. They go on as the trace grows, so asking for
//! the same window again costs what the trace has grown by.
//!
//! A walk is kept if there is memory for it, and the report is the same if there is none. No walk is thrown out for
//! another. So with W windows in turn 512 of W reports stay cheap, and each of the others costs a walk over all
//! segments.
ghost use Rattle.std.specs.Prelude.{◌≡◌, ◌<◌, ◌≤◌, [], ℕ, List, length, nat_lt, slice_index_or, IfSome, IsSome};
ghost use Rattle.std.specs.List.{All, Contains};
ghost use Rattle.mh_report.specs.{declared.segment.Segment.Segment, declared.walk.Walk.Walk};
ghost use Rattle.mh_report.specs.Auxiliary.{IsWalk, AreInOrder, HasWalk};

use crate::walk::Walk;
use mh_model::memory::NoMemory;
use std::alloc::Global;

/// For how many windows a walk is kept.
const WINDOWS: usize = 512;

/// Walks of the windows that were asked for first, in the order of their windows.
#[derive(Drop)]
pub struct Walks {
    pub walks: Vec<Walk>,
}

impl Walks {
    /// No walk, which takes no memory.
    pub fn new(alloc: Global) -> Walks
        ensures { result.walks.items ≡ [] }
    {
        Walks {
            walks: Vec::new(alloc),
        }
    }

    /// Makes room for all walks that may be kept.
    pub fn reserve(&mut self) -> Result<(), NoMemory>
        ensures kept { self.new.walks.items ≡ self.old.walks.items }
    {
        let missing = WINDOWS.saturating_sub(self.walks.len());
        self.walks.reserve(missing)?;
        Ok(())
    }

    /// Keeps no walk any more. What room there was for walks there is still.
    pub fn clear(&mut self)
        ensures { self.new.walks.items ≡ [] }
    {
        self.walks.clear();
    }

    /// How many walks are of a shorter window.
    fn position(&self, window: u64) -> usize
        requires { AreInOrder self.now.walks.items }
        ensures within { result ≤ length self.now.walks.items }
        ensures shorter { (k : ℕ) (d : Walk) → k < result → (slice_index_or self.now.walks.items k d).window < window }
        ensures rest { (k : ℕ) (d : Walk) → result ≤ k → k < length self.now.walks.items → window ≤ (slice_index_or self.now.walks.items k d).window }
    {
        self.walks.as_slice().partition_point(
            |walk: &Walk| -> bool
                ensures { result ≡ nat_lt walk.now.window window }
            { walk.window < window },
        )
    }

    /// The walk of this window, if it has one.
    pub fn find(&self, window: u64) -> Option<Walk>
        requires { AreInOrder self.now.walks.items }
        ensures walk { (segments : List Segment) → All (IsWalk segments) self.now.walks.items → IfSome result (IsWalk segments) }
        ensures window { IfSome result (λ walk. walk.window ≡ window) }
        ensures found { HasWalk self.now.walks.items window → IsSome result }
    {
        let number = self.position(window);
        if number == self.walks.len() {
            return None;
        }
        let walk = self.walks[number];
        if walk.window == window {
            Some(walk)
        } else {
            None
        }
    }

    /// Keeps it in place of that of its window. If its window has none, it is kept while there are fewer than 512 and
    /// there is memory for it.
    pub fn keep(&mut self, walk: Walk)
        requires { AreInOrder self.old.walks.items }
        ensures order { AreInOrder self.new.walks.items }
        ensures kept { (window : ℕ) → HasWalk self.old.walks.items window → HasWalk self.new.walks.items window }
        ensures put { HasWalk self.old.walks.items walk.window → Contains self.new.walks.items walk }
        ensures walks { (segments : List Segment) → All (IsWalk segments) self.old.walks.items → IsWalk segments walk → All (IsWalk segments) self.new.walks.items }
    {
        let number = self.position(walk.window);
        let count = self.walks.len();
        if number < count && self.walks[number].window == walk.window {
            self.walks[number] = walk;
        } else if count < WINDOWS {
            let _is_kept = self.walks.insert(number, walk).is_ok();
        }
    }
}
