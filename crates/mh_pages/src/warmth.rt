//! What is read for the cache alone. Contracts see it as the unit, so it tells nothing, and nothing rests on it.
ghost use Rattle.std.specs.Prelude.{◌≡◌};

use std::marker::Model;

/// Words that were read so that they are in the cache when they are needed, put together for no other use.
#[derive(Drop)]
pub struct Warmth {
    words: u64,
}

// Nothing that a caller may rest on.
impl Model for Warmth {
    ghost Value = { Unit {0} };

    ghost view = { λ warmth. tt };
}

impl Warmth {
    /// No words yet.
    pub fn new() -> Warmth
        ensures { result ≡ tt }
    {
        Warmth { words: 0 }
    }

    /// Adds a word.
    pub(crate) fn add(&mut self, word: u64)
        ensures { self.new ≡ self.old }
    {
        self.words ^= word;
    }
}
