//! Sets of page numbers below 4,096: a page is put in or taken out, the least one is found, and whether one is below a
//! page. The least member takes two reads of words at most, and so does the test: a summary says which words of a set
//! have members.
ghost use Rattle.std.specs.Prelude.{◌≡◌, ◌<◌, ◌≤◌, ◌+◌, ◌*◌, ◌^◌, true, false, length, slice_set, IfOk, MatchOption, MatchBool};
ghost use Rattle.mh_bits.specs.Sets.{empty_sets, HasLower, HasNoLower, IsEmptySet, IsLeastMember};

use crate::counted::{Counted, ReadCount};
use mh_model::memory::NoMemory;
use std::alloc::Global;
use std::marker::Model;

/// How many words of 64 bits a set has, beside a summary of one word.
const WORDS: usize = 64;

/// Sets of page numbers below 4,096, each in 64 words with a summary word that says which of them
/// aren't 0.
#[derive(Drop)]
pub struct PageSets {
    words: Counted,
    summaries: Counted,
}

impl Model for PageSets {
    ghost use Rattle.std.specs.Prelude.{List, Bool};
    ghost use Rattle.mh_bits.specs.Auxiliary.{bits_of, IsSummed};

    ghost Value = { List Bool };

    ghost view = { λ sets. bits_of sets.words };

    ghost invariant = { λ sets. IsSummed sets.words sets.summaries };
}

impl PageSets {
    /// So many empty sets.
    pub fn open(alloc: Global, count: usize) -> Result<PageSets, NoMemory>
        requires { count ≤ 4096 }
        ensures { IfOk result (λ sets. sets ≡ empty_sets count) }
    {
        Ok(PageSets {
            words: Counted::zeros(alloc, WORDS * count)?,
            summaries: Counted::zeros(alloc, count)?,
        })
    }

    /// Adds a page to a set.
    pub fn insert(&mut self, set: usize, page: usize)
        requires set { 4096 * set + 4096 ≤ length self.old }
        requires page { page < 4096 }
        ensures { self.new ≡ slice_set self.old (4096 * set + page) true }
    {
        let mut tally = ReadCount::new();
        let summary = self.summaries.read(set, &mut tally) | 1 << (page / WORDS);
        let at = set * WORDS + page / WORDS;
        let word = self.words.read(at, &mut tally) | 1 << (page % WORDS);
        self.words.write(at, word);
        self.summaries.write(set, summary);
    }

    /// Takes a page out of a set.
    pub fn remove(&mut self, set: usize, page: usize)
        requires set { 4096 * set + 4096 ≤ length self.old }
        requires page { page < 4096 }
        ensures { self.new ≡ slice_set self.old (4096 * set + page) false }
    {
        let mut tally = ReadCount::new();
        let summary = self.summaries.read(set, &mut tally);
        let at = set * WORDS + page / WORDS;
        let word = self.words.read(at, &mut tally) & !(1 << (page % WORDS));
        self.words.write(at, word);
        if word == 0 {
            let left = summary & !(1 << (page / WORDS));
            self.summaries.write(set, left);
        }
    }

    /// Adds a page to a set, or takes it out.
    pub fn put(&mut self, set: usize, page: usize, is_member: bool)
        requires set { 4096 * set + 4096 ≤ length self.old }
        requires page { page < 4096 }
        ensures { self.new ≡ slice_set self.old (4096 * set + page) is_member }
    {
        if is_member {
            self.insert(set, page);
        } else {
            self.remove(set, page);
        }
    }

    /// The least page in a set. It reads two words, or one if there is none.
    pub fn least(&self, set: usize, tally: &mut ReadCount) -> Option<usize>
        requires set { 4096 * set + 4096 ≤ length self.now }
        requires few { tally.old < 2 ^ 61 }
        ensures least { MatchOption result (IsEmptySet self.now set) (λ page. IsLeastMember self.now set page) }
        ensures counted { MatchOption result (tally.new ≡ tally.old + 1) (λ page. tally.new ≡ tally.old + 2) }
    {
        let summary = self.summaries.read(set, tally);
        if summary == 0 {
            return None;
        }
        let row = summary.trailing_zeros() as usize;
        let word = self.words.read(set * WORDS + row, tally);
        Some(row * WORDS + word.trailing_zeros() as usize)
    }
    /// Whether a set has a member below a page. It reads two words at most.
    pub fn has_lower(&self, set: usize, page: usize, tally: &mut ReadCount) -> bool
        requires set { 4096 * set + 4096 ≤ length self.now }
        requires few { tally.old < 2 ^ 61 }
        ensures lower { MatchBool result (HasLower self.now set page) (HasNoLower self.now set page) }
        ensures counted { tally.new ≤ tally.old + 2 }
    {
        match self.least(set, tally) {
            Some(least) => least < page,
            None => false,
        }
    }
}
