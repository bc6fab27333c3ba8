//! The parts of an object, each computed from its number.
//!
//! How many parts there are, and each by its number: header, own fields, first child and class. No list of them is
//! kept, so even the parts of the largest object take no memory.
//!
//! A block is made from a `Part`, and not from two counts. No other file makes one, so no block is ever made that its
//! header doesn't describe. `child_count` counts in the counts of an object. That of `mh_blocks` counts in words of a
//! page: each in the type of what it reads.
ghost use Rattle.std.specs.Prelude.{◌≡◌, ◌<◌, ◌≤◌, ◌+◌, Some, length, slice_get};
ghost use Rattle.mh_model.specs.Classes.{class_of, part_words, plain_part, spine_part, run_count, middle_count, child_count, middle_spine, arraylet, parts};
ghost use Rattle.mh_classes.specs.Fits.{AreParts, FitsItsHeader};

use crate::class::{Class, class_of};
use mh_model::limits::{HEADER, RUN, SPINE_FIELDS};
use mh_model::shape::Shape;
use std::marker::Model;
/// A part of an object: one block, as it is to be made.
#[derive(Clone, Copy, Debug)]
pub struct Part {
    header: Shape,
    references: u8,
    numbers: u8,
    first_child: Option<u16>,
}

impl Model for Part {
    ghost use Rattle.mh_model.specs.Classes as book;
    ghost use Rattle.mh_classes.specs.Auxiliary.{IsPart};

    ghost Value = { book.Part };

    ghost view = { λ part. record { header = part.header; references = part.references; numbers = part.numbers; children = part.first_child } };

    ghost invariant = { λ part. IsPart (record { header = part.header; references = part.references; numbers = part.numbers; children = part.first_child }) };

    ghost inverse = { λ part. record { header = part.header; references = part.references; numbers = part.numbers; first_child = part.children } };
}

impl Part {
    /// The counts in its header: the fields of the object in part 0, and its own in every other.
    pub fn header(self) -> Shape
        ensures { result ≡ self.header }
    {
        self.header
    }

    /// How many references it has itself.
    pub fn references(self) -> usize
        ensures value { result ≡ self.references }
        ensures few { result ≤ 60 }
    {
        self.references as usize
    }

    /// How many numbers it has itself.
    pub fn numbers(self) -> usize
        ensures { result ≡ self.numbers }
    {
        self.numbers as usize
    }

    /// The number of the part that its first reference leads to; the other references lead to those that follow.
    pub fn first_child(self) -> Option<usize>
        ensures { result ≡ self.children }
    {
        self.first_child.map(usize::from)
    }

    /// The class of its block.
    pub fn class(self) -> Class
        ensures class { class_of (part_words self) ≡ Some result }
        ensures packed { FitsItsHeader self }
    {
        class_of(HEADER + self.references as usize + self.numbers as usize).unwrap()
    }
}

/// How many runs of 60 so many fields make.
fn run_count(fields: u32) -> u32
    requires { fields ≤ 216000 }
    ensures { result ≡ run_count fields }
{
    (fields + (RUN - 1)) / RUN
}

/// How many middle spines an object of so many fields has.
fn middle_count(fields: u32) -> u32
    requires { fields ≤ 216000 }
    ensures { result ≡ middle_count fields }
{
    if fields <= SPINE_FIELDS {
        0
    } else {
        run_count(run_count(fields))
    }
}

/// How many children the spine of an object of so many fields has.
fn child_count(fields: u32) -> u32
    requires { fields ≤ 216000 }
    ensures { result ≡ child_count fields }
{
    if fields <= SPINE_FIELDS {
        run_count(fields)
    } else {
        run_count(run_count(fields))
    }
}

/// A block with the fields of its header.
fn plain_part(references: u32, numbers: u32) -> Part
    requires { references + numbers ≤ 60 }
    ensures { result ≡ plain_part references numbers }
{
    Part {
        header: Shape {
            references,
            numbers,
        },
        references: references as u8,
        numbers: numbers as u8,
        first_child: None,
    }
}

/// The first part of an object of more than 60 fields.
fn first_spine(references: u32, numbers: u32) -> Part
    requires many { 60 < references + numbers }
    requires within { references + numbers ≤ 216000 }
    ensures { result ≡ spine_part (record { references = references; numbers = numbers }) (child_count (references + numbers)) 1 }
{
    Part {
        header: Shape {
            references,
            numbers,
        },
        references: child_count(references + numbers) as u8,
        numbers: 0,
        first_child: Some(1),
    }
}

/// The spine of one run of 60 arraylets.
fn middle_spine(fields: u32, run: u32) -> Part
    requires within { fields ≤ 216000 }
    requires run { run < middle_count fields }
    ensures { result ≡ middle_spine fields run }
{
    let before = RUN * run;
    let count = RUN.min(run_count(fields) - before);
    Part {
        header: Shape {
            references: count,
            numbers: 0,
        },
        references: count as u8,
        numbers: 0,
        first_child: Some((1 + middle_count(fields) + before) as u16),
    }
}

/// The arraylet of one run of 60 fields, of which the object's references come first.
fn arraylet(references: u32, numbers: u32, run: u32) -> Part
    requires within { references + numbers ≤ 216000 }
    requires run { run < run_count (references + numbers) }
    ensures { result ≡ arraylet references numbers run }
{
    let before = RUN * run;
    let first = RUN.min(references.saturating_sub(before));
    let all = RUN.min(references + numbers - before);
    plain_part(first, all - first)
}

/// The parts of an object of at most 216,000 fields.
#[derive(Debug, Drop)]
pub struct Parts {
    references: u32,
    numbers: u32,
}

impl Model for Parts {
    ghost use Rattle.std.specs.Prelude.{List, ◌≤◌, ◌+◌};
    ghost use Rattle.mh_model.specs.Classes as book;

    ghost Value = { List book.Part };

    ghost view = { λ all. book.parts all.references all.numbers };

    ghost invariant = { λ all. all.references + all.numbers ≤ 216000 };
}

impl Parts {
    pub(crate) fn new(references: u32, numbers: u32) -> Parts
        requires { references + numbers ≤ 216000 }
        ensures { result ≡ parts references numbers }
    {
        Parts {
            references,
            numbers,
        }
    }

    /// How many there are.
    pub fn count(&self) -> usize
        ensures count { result ≡ length self.now }
        ensures some { 1 ≤ result }
        ensures few { result ≤ 3661 }
        ensures object { AreParts self.now }
    {
        let fields = self.references + self.numbers;
        if fields <= RUN {
            1
        } else {
            (1 + middle_count(fields) + run_count(fields)) as usize
        }
    }

    /// The part of this number.
    pub fn get(&self, index: usize) -> Part
        requires { index < length self.now }
        ensures { Some result ≡ slice_get self.now index }
    {
        let fields = self.references + self.numbers;
        if fields <= RUN {
            return plain_part(self.references, self.numbers);
        }
        if index == 0 {
            return first_spine(self.references, self.numbers);
        }
        let after = index as u32 - 1;
        let middles = middle_count(fields);
        if after < middles {
            middle_spine(fields, after)
        } else {
            arraylet(self.references, self.numbers, after - middles)
        }
    }
}
