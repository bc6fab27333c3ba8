//! Random numbers: those that `rand_pcg` has for a seed. No theorem rests on them.
ghost use Rattle.std.specs.Prelude.{◌<◌};

use rand_core::utils::NextWord;
use rand_pcg::Pcg32;

/// The stream of the generator, of which a seed is a state.
const STREAM: u64 = 54;

/// How many slots a session has.
pub(crate) const SLOTS: u32 = 16;

/// The numbers of a seed, one after the other.
#[derive(Drop)]
pub(crate) struct Random {
    words: Pcg32,
}

impl Random {
    pub(crate) fn new(seed: u64) -> Random {
        Random {
            words: Pcg32::new(seed, STREAM),
        }
    }

    /// A number below another.
    pub(crate) fn below(&mut self, bound: u32) -> u32
        requires { 0 < bound }
        ensures { result < bound }
    {
        self.words.next_word() % bound
    }

    /// True as often as `wins` of `all`.
    pub(crate) fn chance(&mut self, wins: u32, all: u32) -> bool
        requires { 0 < all }
    {
        self.below(all) < wins
    }

    /// One of some numbers.
    pub(crate) fn one_of(&mut self, numbers: &[u32]) -> u32 {
        let place = self.words.next_word() as usize;
        numbers
            .get(place % numbers.len().max(1))
            .copied()
            .unwrap_or(0)
    }

    pub(crate) fn slot(&mut self) -> u32
        ensures { result < SLOTS }
    {
        self.below(SLOTS)
    }

    /// A number of 64 bits.
    pub(crate) fn wide(&mut self) -> u64 {
        let high = u64::from(self.words.next_word());
        high << 32 | u64::from(self.words.next_word())
    }
}
