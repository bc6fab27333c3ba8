//! Entries of a history, followed one after another as they are read.
//!
//! None is kept. After the first bad one the lines are still read to the end, since a fault of the text comes before a
//! bad entry. What stands after the last line that has an end is left to the caller: of a history that was cut off the
//! entries before are judged all the same.
ghost use Rattle.std.specs.Prelude.{◌≡◌, ◌<◌, ◌+◌, ℕ, List, [], ◌∷◌, ◌++◌, Option, length, IfOk, IfErr, IfSome, IfNone, OnErr, IsErrOf, IsSome};
ghost use Rattle.mh_history.specs.Beginnings.{HasEntry, TakesEntry, entries_left};
ghost use Rattle.mh_judge.specs.{declared.entry_fault.EntryFault.EntryFault, declared.bad_entry.BadEntry.BadEntry};
ghost use Rattle.mh_judge.specs.Following.{AreRead, IsBadEntry, IsFound, whole};
ghost use Rattle.mh_model.specs.Bytes.{Text};
ghost use Rattle.mh_text.specs.TextErrors.{Refuses};

use crate::bad_entry::BadEntry;
use mh_model::memory::NoMemory;
use mh_text::pieces::Lines;
use mh_text::text_error::TextError;
use std::alloc::Global;

/// What follows the entries of a history, and finds what is wrong with the first bad one.
pub trait Follower: Drop {
    type Entry: Drop;

    // what a line is read as
    ghost of_line: { Self → Text → Option Self.Entry };

    // which lists of entries are histories, for one that began so
    ghost lawful: { Self → List Self.Entry → Type 0 };

    // what is wrong with an entry after others
    ghost wrong: { Self → List Self.Entry → Self.Entry → EntryFault → Type 0 };

    // it began so, and has followed these entries, which are a history
    ghost follows: { Self → List Self.Entry → Self → Type 0 };

    // it began so, and has looked at these entries, of which the last may be bad
    ghost looks: { Self → List Self.Entry → Self → Type 0 };

    // an entry for which it may ask for memory
    ghost asks: { Self.Entry → Type 0 } = { λ entry. Unit {0} };

    /// Reads a line, given without its end. None if it is bad.
    fn read(&self, alloc: Global, line: &[u8]) -> Result<Option<Self::Entry>, NoMemory>
        ensures read { IfOk result (λ read. read ≡ of_line self.now line.now) }
        ensures memory { OnErr result (IsSome (of_line self.now line.now)) };

    /// How many entries it has followed.
    fn followed(&self) -> u64
        ensures { (first : Self) (entries : List Self.Entry) → follows first entries self.now → result ≡ length entries };

    /// Follows the next entry. It may not be called again once that was bad.
    fn follow(&mut self, entry: Self::Entry) -> Result<Option<BadEntry>, NoMemory>
        requires { (first : Self) × (entries : List Self.Entry) × follows first entries self.old }
        ensures right { IfOk result (λ found. IfNone found ((first : Self) (entries : List Self.Entry) → follows first entries self.old → follows first (entries ++ entry ∷ []) self.new)) }
        ensures wrong { IfOk result (λ found. IfSome found (λ bad. (first : Self) (entries : List Self.Entry) → follows first entries self.old
            → IsBadEntry (lawful first) (wrong first) (entries ++ entry ∷ []) bad × (bad.number ≡ length entries + 1) × looks first (entries ++ entry ∷ []) self.new)) }
        ensures reads { of_line self.new ≡ of_line self.old }
        ensures memory { OnErr result (asks entry) };

    ghost legal: { (first : Self) (entries : List Self.Entry) (now : Self) → follows first entries now → lawful first entries };
}

/// Reads the next line as an entry, none after the last that has an end.
#[tactic(auto, using(mh_history::proofs::LineLemmas::line_taken, crate::proofs::FollowingLemmas::whole_bad))]
fn next_whole<F: Follower>(
    alloc: Global,
    follower: &F,
    lines: &mut Lines<'_>,
) -> Result<Option<F::Entry>, TextError>
    ensures taken { IfOk result (λ next. IfSome next (TakesEntry (F.of_line follower.now) lines.old lines.new)) }
    ensures fewer { IfOk result (λ next. IfSome next (λ entry. length lines.new.lines < length lines.old.lines)) }
    ensures end { IfOk result (λ next. IfNone next (lines.old.lines ≡ [])) }
    ensures ended { IfOk result (λ next. IfNone next (lines.new ≡ lines.old)) }
    ensures line { IfErr result (Refuses (entries_left (F.of_line follower.now) (whole lines.old))) }
    ensures memory { IsErrOf result TextError.NoMemory → HasEntry (F.of_line follower.now) lines.old }
{
    let Some((number, line)) = lines.next_line() else {
        return Ok(None);
    };
    match follower.read(alloc, line)? {
        Some(entry) => Ok(Some(entry)),
        None => Err(TextError::Line(number)),
    }
}

/// Reads the lines that are left, of which each is to be an entry.
#[tactic(auto, using(crate::proofs::FollowingLemmas::read_more))]
fn read_on<F: Follower>(alloc: Global, follower: &F, lines: &mut Lines<'_>) -> Result<(), TextError>
    ensures read { IfOk result (λ done. (entries : List F.Entry) × AreRead (F.of_line follower.now) lines.old lines.new entries) }
    ensures line { IfErr result (Refuses (entries_left (F.of_line follower.now) (whole lines.old))) }
{
    while let Some(_) = next_whole(alloc, follower, lines)? {}
    Ok(())
}

/// Follows the entries that lines are read as, up to the first bad one, and reads on to the last line that has an end.
pub fn follow_lines<F: Follower>(
    alloc: Global,
    follower: &mut F,
    lines: &mut Lines<'_>,
) -> Result<Option<BadEntry>, TextError>
    requires { F.follows follower.old [] follower.old }
    ensures found { IfOk result (λ found. (entries : List F.Entry) × AreRead (F.of_line follower.old) lines.old lines.new entries
        × IsFound (F.follows follower.old) (F.looks follower.old) (F.lawful follower.old) (F.wrong follower.old) entries follower.new found) }
    ensures line { IfErr result (Refuses (entries_left (F.of_line follower.old) (whole lines.old))) }
    ensures memory { IsErrOf result TextError.NoMemory → HasEntry (F.of_line follower.old) lines.old }
{
    while let Some(entry) = next_whole(alloc, follower, lines)? {
        if let Some(bad) = follower.follow(entry)? {
            read_on(alloc, follower, lines)?;
            return Ok(Some(bad));
        }
    }
    Ok(None)
}
