//! The sets of pages that the search for a place reads. A page changes what it is a member of with its class and its
//! flag, and with its first and its last free slot.
ghost use Rattle.std.specs.Prelude.{◌≡◌, ◌<◌, ◌≤◌, ◌*◌, ◌+◌, ◌%◌, length, get_or, set};
ghost use Rattle.mh_classes.specs.Numbers.{class_number};
ghost use Rattle.mh_pages.specs.Auxiliary.{indexed_again, indexed_after, AllFree, HasLengthsFor};

use mh_bits::counted::{Counted, ReadCount};
use mh_bits::page_sets::PageSets;
use mh_classes::class::Class;

/// The set of the free pages.
pub const FREE: usize = 60;

/// The sets of a class: its unflagged pages, those of them with a free slot, and its flagged pages
/// with a free slot.
pub const DENSE: usize = 0;

pub const ROOMY: usize = 1;

pub const SPARSE: usize = 2;

/// Puts a page of a class in the sets to which it belongs.
pub fn index(sets: &mut PageSets, page: usize, class: Class, head: u64, free: u64)
    requires page { page < 4096 }
    requires sets { length sets.old ≡ 4096 * 61 }
    ensures { sets.new ≡ indexed_again sets.old page class head free }
{
    let size = class.size() as u64;
    let row = 3 * class.number();
    let is_dense = head == 2 * size;
    let is_sparse = head == 2 * size + 1;
    let has_slot = free != 0;
    sets.put(FREE, page, head == 0);
    sets.put(row + DENSE, page, is_dense);
    sets.put(row + ROOMY, page, is_dense & has_slot);
    sets.put(row + SPARSE, page, is_sparse & has_slot);
}

/// Gives a page another head and other free slots.
pub fn change(
    heads: &mut Counted,
    frees: &mut Counted,
    sets: &mut PageSets,
    page: usize,
    class: Class,
    head: u64,
    free: u64,
)
    requires { HasLengthsFor page heads.old frees.old sets.old }
    ensures heads { heads.new ≡ set heads.old page head }
    ensures frees { frees.new ≡ set frees.old page free }
    ensures sets { sets.new ≡ indexed_again sets.old page class head free }
{
    heads.write(page, head);
    frees.write(page, free);
    index(sets, page, class, head, free);
}

/// The set of a class for those of its pages with a free slot that have the flag of this head.
fn set_with_slots(class: Class, head: u64) -> usize
    ensures set { result ≡ 3 * class_number class + (1 + head % 2) }
    ensures inside { result < 60 }
{
    let row = 3 * class.number();
    if head % 2 == 0 {
        row + ROOMY
    } else {
        row + SPARSE
    }
}

/// Gives a page in use other free slots. It enters a set with its first free slot, and leaves it with its last.
pub fn change_free(
    heads: &Counted,
    frees: &mut Counted,
    sets: &mut PageSets,
    page: usize,
    class: Class,
    free: u64,
)
    requires { HasLengthsFor page heads.now frees.old sets.old }
    ensures frees { frees.new ≡ set frees.old page free }
    ensures sets { sets.new ≡ indexed_after sets.old page class (get_or heads.now page 0) (get_or frees.old page 0) free }
{
    let mut tally = ReadCount::new();
    let before = frees.read(page, &mut tally);
    frees.write(page, free);
    if before == 0 || free == 0 {
        let head = heads.read(page, &mut tally);
        sets.put(set_with_slots(class, head), page, free != 0);
    }
}

/// Puts all pages in the set of the free pages.
#[tactic(auto, using(crate::proofs::OpenLemmas::all_free_more))]
pub fn put_all(sets: &mut PageSets, pages: usize)
    requires pages { pages ≤ 4096 }
    requires sets { AllFree sets.old 0 }
    ensures { AllFree sets.new pages }
{
    for page in 0..pages {
        sets.insert(FREE, page);
    }
}
