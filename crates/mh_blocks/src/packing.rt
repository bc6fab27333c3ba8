//! How the fields of a block are packed into words. `child_count` counts in words of a page, and that of `mh_classes`
//! in the counts of an object: each in the type of what it reads.
ghost use Rattle.std.specs.Prelude.{◌≡◌, ◌<◌, ◌≤◌, ◌^◌, IfSome};
ghost use Rattle.mh_classes.specs.Counts.{reference_count, number_count};
ghost use Rattle.mh_model.specs.Classes.{run_count, child_count};
ghost use Rattle.mh_blocks.specs.Auxiliary.{place_in, part_in, header_in, IsNewHeader};

use mh_model::birth::Birth;
use mh_model::limits;
use mh_model::place::Place;
use mh_model::shape::Shape;
use mh_pages::header::Header;

/// Each count of a header is below this number.
const COUNT: u64 = 1 << 20;

/// The most fields of a block, and of a run of an object's fields.
const RUN: usize = limits::RUN as usize;

/// The most fields of an object whose spine leads to its arraylets; above, it leads to middle spines.
const SPINE_FIELDS: usize = limits::SPINE_FIELDS as usize;

/// The header of a block as it is made.
pub fn new_header(birth: Birth, stamp: u64, part: usize, counts: Shape) -> Header
    requires birth { birth < 2 ^ 62 }
    requires part { part < 2 ^ 20 }
    requires references { counts.references < 2 ^ 20 }
    requires numbers { counts.numbers < 2 ^ 20 }
    ensures { IsNewHeader birth stamp part counts result }
{
    Header {
        birth: birth.0 + 1,
        counts: counts_word(part, counts),
        stamp,
        forward: place_word(None),
    }
}

/// The word of counts of this part with this header.
fn counts_word(part: usize, header: Shape) -> u64
    requires part { part < 2 ^ 20 }
    requires references { header.references < 2 ^ 20 }
    requires numbers { header.numbers < 2 ^ 20 }
    ensures part { part_in result ≡ part }
    ensures header { header_in result ≡ header }
{
    (part as u64 * COUNT + u64::from(header.references)) * COUNT + u64::from(header.numbers)
}

/// The number of the part in a word of counts.
pub fn part_in(word: u64) -> usize
    ensures { result ≡ part_in word }
{
    (word / COUNT / COUNT) as usize
}

/// The header in a word of counts.
pub fn header_in(word: u64) -> Shape
    ensures { result ≡ header_in word }
{
    Shape {
        references: (word / COUNT % COUNT) as u32,
        numbers: (word % COUNT) as u32,
    }
}

/// How many runs of 60 so many fields make.
fn run_count(fields: usize) -> usize
    ensures { result ≡ run_count fields }
{
    fields.div_ceil(RUN)
}

/// How many children the spine of an object of so many fields has.
fn child_count(fields: usize) -> usize
    ensures { result ≡ child_count fields }
{
    if fields <= SPINE_FIELDS {
        run_count(fields)
    } else {
        run_count(run_count(fields))
    }
}

/// How many references a block with this header has itself.
pub fn reference_count(header: Shape) -> usize
    ensures { result ≡ reference_count header }
{
    let fields = header.references as usize + header.numbers as usize;
    if fields <= RUN {
        header.references as usize
    } else {
        child_count(fields)
    }
}

/// How many numbers a block with this header has itself.
pub fn number_count(header: Shape) -> usize
    ensures { result ≡ number_count header }
{
    let fields = header.references as usize + header.numbers as usize;
    if fields <= RUN {
        header.numbers as usize
    } else {
        0
    }
}

/// The place of a word of a reference or of the forwarding word.
pub fn place_in(word: u64) -> Option<Place>
    ensures { result ≡ place_in word }
{
    if word == 0 {
        None
    } else {
        Some(Place((word - 1) as usize))
    }
}

/// The word of a reference.
pub fn place_word(reference: Option<Place>) -> u64
    requires { IfSome reference (λ place. place < 2 ^ 62) }
    ensures { place_in result ≡ reference }
{
    match reference {
        None => 0,
        Some(place) => place.0 as u64 + 1,
    }
}
