//! A reply beside the right one. What is found of two that differ is true: both replies, or of two dumps the first
//! item in which they differ. The texts of two dumps would be a megabyte, and mostly the same.
ghost use Rattle.std.specs.Prelude.{◌≡◌, ◌≢◌, ◌≤◌, ℕ, Option, length, slice_get, take};
ghost use Rattle.mh_model.specs.declared.dump.DumpItem.{DumpItem};
ghost use Rattle.mh_judge.specs.Faults.{IsFirstDifference, IsReplyFault};
ghost use Rattle.mh_judge.specs.declared.entry_fault.EntryFault.TheVariants as fault;

use crate::entry_fault::EntryFault;
use mh_model::dump::DumpItem;
use mh_model::reply::Reply;

/// How many of their first items two dumps share.
fn shared(given: &[DumpItem], right: &[DumpItem]) -> usize
    ensures within { (result ≤ length given.now) × (result ≤ length right.now) }
    ensures same { take result given.now ≡ take result right.now }
    ensures last { given.now ≢ right.now → slice_get given.now result ≢ slice_get right.now result }
{
    let mut count = 0;
    while count < given.len() && count < right.len() {
        if given[count] != right[count] {
            return count;
        }
        count += 1;
    }
    count
}

/// Where a dump differs from the right one.
fn item_fault(given: &[DumpItem], right: &[DumpItem]) -> EntryFault
    requires { given.now ≢ right.now }
    ensures { (number : ℕ) × (item other : Option DumpItem) × (result ≡ fault.Item number item other) × IsFirstDifference given.now right.now number item other }
{
    let count = shared(given, right);
    EntryFault::Item {
        number: count as u64 + 1,
        given: given.get(count).copied(),
        right: right.get(count).copied(),
    }
}

/// What is wrong with a reply, of which this is the right one.
pub fn reply_fault(given: Reply, right: Reply) -> EntryFault
    requires { given ≢ right }
    ensures { IsReplyFault given right result }
{
    if let (Reply::Dump(given), Reply::Dump(right)) = (&given, &right) {
        return item_fault(given.items(), right.items());
    }
    EntryFault::Reply { given, right }
}
