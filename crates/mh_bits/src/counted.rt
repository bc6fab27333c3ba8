//! A list of words in which one call alone reads a word, and counts it. So a contract can bound what a search reads.
ghost use Rattle.std.specs.Prelude.{◌≡◌, ◌<◌, ◌≤◌, ◌+◌, ◌^◌, length, get_or, set, replicate, IfOk};
ghost use Rattle.mh_bits.specs.Bits.{IsZeroed};

use mh_model::memory::NoMemory;
use std::alloc::Global;
use std::marker::Model;

/// How many words were read.
#[derive(Drop)]
pub struct ReadCount {
    reads: u64,
}

impl Model for ReadCount {
    ghost use Rattle.std.specs.Prelude.{ℕ};

    ghost Value = { ℕ };

    ghost view = { λ tally. tally.reads };
}

impl ReadCount {
    /// None so far.
    pub fn new() -> ReadCount
        ensures { result ≡ 0 }
    {
        ReadCount { reads: 0 }
    }

    /// How many words were read.
    pub fn reads(&self) -> u64
        ensures { result ≡ self.now }
    {
        self.reads
    }
}

/// Words of which each reading is counted.
#[derive(Drop)]
pub struct Counted {
    words: Vec<u64>,
}

impl Model for Counted {
    ghost use Rattle.std.specs.Prelude.{List, ℕ};

    ghost Value = { List ℕ };

    ghost view = { λ counted. counted.words.items };
}

impl Counted {
    /// So many words, each 0.
    pub fn zeros(alloc: Global, count: usize) -> Result<Counted, NoMemory>
        ensures { IfOk result (λ counted. counted ≡ replicate count 0) }
    {
        Ok(Counted {
            words: Vec::from_elem(alloc, 0, count)?,
        })
    }

    /// How many words there are.
    pub fn len(&self) -> usize
        ensures { result ≡ length self.now }
    {
        self.words.len()
    }

    /// The only call that gives the value of a word.
    pub fn read(&self, at: usize, tally: &mut ReadCount) -> u64
        requires within { at < length self.now }
        requires few { tally.old < 2 ^ 62 }
        ensures value { result ≡ get_or self.now at 0 }
        ensures counted { tally.new ≡ tally.old + 1 }
    {
        tally.reads += 1;
        self.words[at]
    }

    /// Writes a word.
    pub fn write(&mut self, at: usize, word: u64)
        requires { at < length self.old }
        ensures { self.new ≡ set self.old at word }
    {
        self.words[at] = word;
    }

    /// Sets the words from one on to before another to 0.
    #[tactic(auto, using(crate::proofs::ZeroLemmas::zeroed_none, crate::proofs::ZeroLemmas::zeroed_more))]
    pub fn clear(&mut self, first: usize, end: usize)
        requires order { first ≤ end }
        requires within { end ≤ length self.old }
        ensures { IsZeroed self.old self.new first end }
    {
        for at in first..end {
            self.words[at] = 0;
        }
    }
}
