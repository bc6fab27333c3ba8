//! How many blocks of each class an interval asks for. They are kept in an array of a fixed size, so counting takes no
//! memory.
ghost use Rattle.std.specs.Prelude.{◌≡◌, ◌+◌, ◌<◌, ◌≤◌, ◌^◌, [], ◌++◌, ◌∷◌, List, get_or, sum, unwrap_or};
ghost use Rattle.mh_model.specs.{Classes.{Part, class_sizes}, Openings.pages_of_parts};

use mh_classes::class::{CLASSES, Class};
use mh_classes::parts::{Part, Parts};

/// The class of this number.
fn class_at(number: usize) -> Class
    requires { number < 20 }
    ensures { result ≡ get_or class_sizes number 0 }
{
    Class::all()[number]
}

/// How many blocks of each class were asked for.
#[derive(Drop)]
pub(crate) struct ClassCounts {
    counts: [u64; CLASSES],
    total: u64,
    ghost summed: { total ≡ sum counts },
}

impl ClassCounts {
    ghost use Rattle.mh_size_runs.specs.Auxiliary.{HasCounted};

    pub(crate) fn new() -> ClassCounts
        ensures none { HasCounted result [] }
        ensures total { result.total ≡ 0 }
    {
        ClassCounts {
            counts: [0; CLASSES],
            total: 0,
        }
    }

    /// Counts a block.
    fn count(&mut self, part: Part)
        requires { self.old.total < 2 ^ 63 }
        ensures counted { (parts : List Part) → HasCounted self.old parts → HasCounted self.new (parts ++ part ∷ []) }
        ensures total { self.new.total ≡ self.old.total + 1 }
    {
        let number = part.class().number();
        self.counts[number] += 1;
        self.total += 1;
    }

    /// Counts the blocks of an object.
    fn ask(&mut self, asked: &Parts)
        requires { self.old.total < 2 ^ 62 }
        ensures counted { (parts : List Part) → HasCounted self.old parts → HasCounted self.new (parts ++ asked.now) }
        ensures total { self.new.total ≤ self.old.total + 3661 }
    {
        for index in 0..asked.count() {
            self.count(asked.get(index));
        }
    }

    /// Counts the blocks of an object, if one is asked for.
    pub(crate) fn ask_for(&mut self, asked: &Option<Parts>)
        requires { self.old.total < 2 ^ 62 }
        ensures counted { (parts : List Part) → HasCounted self.old parts → HasCounted self.new (parts ++ unwrap_or asked.now []) }
        ensures total { self.new.total ≤ self.old.total + 3661 }
    {
        if let Some(parts) = asked {
            self.ask(parts);
        }
    }

    /// How many pages the blocks fill, if each class has pages of its own.
    pub(crate) fn pages(&self) -> u64
        ensures { (parts : List Part) → HasCounted self.now parts → result ≡ pages_of_parts parts }
    {
        // The pages are no more than the blocks, whose number fits.
        let _total = self.total;
        let mut pages = 0;
        for number in 0..CLASSES {
            let slots = class_at(number).slots() as u64;
            pages += self.counts[number].div_ceil(slots);
        }
        pages
    }
}
