//! The grey list as others read it: how many places are grey, and each of them in order.
ghost use Rattle.std.specs.Prelude.{◌≡◌, ◌<◌, Some, length, slice_get};

use crate::cycle::Cycle;
use mh_model::place::Place;

impl Cycle {
    /// How many blocks are grey.
    pub fn grey_count(&self) -> usize
        ensures { result ≡ length self.now.collector.grey }
    {
        self.grey.len()
    }

    /// The grey place of a number, counted from 0.
    pub fn grey_at(&self, index: usize) -> Place
        requires { index < length self.now.collector.grey }
        ensures { slice_get self.now.collector.grey index ≡ Some result }
    {
        self.grey.get(index)
    }
}
