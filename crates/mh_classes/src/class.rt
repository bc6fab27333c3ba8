//! Size classes. From 4 words on each class is 9/8 of the one before, rounded up; the last has 64 words. Size classes
//! of a small ratio are Metronome's (Bacon, Cheng and Rajan, POPL 2003).
//!
//! The class of so many words is the least that has as many. There is none exactly for 0 words and for more than 64. A
//! class has its words, its slots in a page and its number.
ghost use Rattle.std.specs.Prelude.{◌≡◌, ◌<◌, ◌≤◌, IsTrue, unwrap_or};
ghost use Rattle.mh_model.specs.Classes.{class_of, class_sizes, is_class_size, slots_in};
ghost use Rattle.mh_classes.specs.Numbers.{class_number};

use mh_model::limits::PAGE_WORDS;
use std::marker::Model;
/// How many classes there are.
pub const CLASSES: usize = 20;

/// The size of the class for each number of words up to 64, and 0 for none.
const SIZES: [u8; 65] = [
    0, 4, 4, 4, 4, 5, 6, 7, 8, 9, 11, 11, 13, 13, 15, 15, 17, 17, 20, 20, 20, 23, 23, 23, 26, 26,
    26, 30, 30, 30, 30, 34, 34, 34, 34, 39, 39, 39, 39, 39, 44, 44, 44, 44, 44, 50, 50, 50, 50, 50,
    50, 57, 57, 57, 57, 57, 57, 57, 64, 64, 64, 64, 64, 64, 64,
];

/// The number of the class of each size up to 64, and 20 if no class has it.
const NUMBERS: [u8; 65] = [
    20, 20, 20, 20, 0, 1, 2, 3, 4, 5, 20, 6, 20, 7, 20, 8, 20, 9, 20, 20, 10, 20, 20, 11, 20, 20,
    12, 20, 20, 20, 13, 20, 20, 20, 14, 20, 20, 20, 20, 15, 20, 20, 20, 20, 16, 20, 20, 20, 20, 20,
    17, 20, 20, 20, 20, 20, 20, 18, 20, 20, 20, 20, 20, 20, 19,
];

/// A class of blocks, known by its size in words.
#[derive(Clone, Copy, Debug, PartialEq, Eq)]
pub struct Class {
    size: u8,
}

impl Model for Class {
    ghost use Rattle.std.specs.Prelude.{ℕ, IsTrue};
    ghost use Rattle.mh_model.specs.Classes.{is_class_size};

    ghost Value = { ℕ };

    ghost view = { λ class. class.size };

    ghost invariant = { λ class. IsTrue (is_class_size class.size) };

    ghost inverse = { λ size. record { size = size } };
}

/// The size of the class for so many words, and 0 if there is none.
fn size_for(words: usize) -> u8
    requires { words ≤ 64 }
    ensures { result ≡ unwrap_or (class_of words) 0 }
{
    SIZES[words]
}

/// The least class that has so many words or more. There is none exactly for no words and for more than 64.
pub fn class_of(words: usize) -> Option<Class>
    ensures { result ≡ class_of words }
{
    if words > 64 {
        return None;
    }
    let size = size_for(words);
    if size == 0 {
        return None;
    }
    Some(Class { size })
}

impl Class {
    /// How many words a block of the class has.
    #[tactic(auto, unfolding(mh_model::specs::Classes::is_class_size))]
    pub fn size(self) -> usize
        ensures value { result ≡ self }
        ensures class { IsTrue (is_class_size self) }
        ensures some { 4 ≤ result }
        ensures few { result ≤ 64 }
    {
        self.size as usize
    }

    /// How many blocks a page of the class has room for.
    #[tactic(auto, unfolding(mh_model::specs::Classes::is_class_size))]
    pub fn slots(self) -> usize
        ensures value { result ≡ slots_in self }
        ensures some { 4 ≤ result }
        ensures few { result ≤ 64 }
    {
        PAGE_WORDS / self.size as usize
    }

    /// The classes are numbered from 0 by their sizes.
    #[tactic(auto, unfolding(mh_model::specs::Classes::is_class_size, crate::specs::Numbers::class_number))]
    pub fn number(self) -> usize
        ensures value { result ≡ class_number self }
        ensures within { result < 20 }
        ensures class { IsTrue (is_class_size self) }
    {
        NUMBERS[self.size as usize] as usize
    }

    /// The class of this size.
    #[tactic(auto, unfolding(mh_model::specs::Classes::is_class_size))]
    pub fn of_size(size: usize) -> Class
        requires { IsTrue (is_class_size size) }
        ensures { result ≡ size }
    {
        Class { size: size as u8 }
    }

    /// All classes, by their numbers.
    #[tactic(auto, unfolding(mh_model::specs::Classes::is_class_size))]
    pub fn all() -> [Class; CLASSES]
        ensures { result ≡ class_sizes }
    {
        [
            Class { size: 4 },
            Class { size: 5 },
            Class { size: 6 },
            Class { size: 7 },
            Class { size: 8 },
            Class { size: 9 },
            Class { size: 11 },
            Class { size: 13 },
            Class { size: 15 },
            Class { size: 17 },
            Class { size: 20 },
            Class { size: 23 },
            Class { size: 26 },
            Class { size: 30 },
            Class { size: 34 },
            Class { size: 39 },
            Class { size: 44 },
            Class { size: 50 },
            Class { size: 57 },
            Class { size: 64 },
        ]
    }
}
