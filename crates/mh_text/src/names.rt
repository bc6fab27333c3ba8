//! The names that a script has for its sessions.
//!
//! The first eight are kept in a set, in the order in which they are seen. The ninth and all later ones are the same
//! session. Room for eight is made at the first name, so a text that is refused before its first event takes no memory
//! for names. Names that were looked up stand in a table too, by their first two bytes, which is tried first.
ghost use Rattle.std.specs.Prelude.{◌≡◌, ◌+◌, ◌<◌, ◌≤◌, ◌^◌, true, is_none, [], length, IfOk, IfSome, OnOk, OnErr};
ghost use Rattle.std.specs.List.{list_all};
ghost use Rattle.mh_model.specs.{Bytes.is_text, Script.{session_number, with_name}};
ghost use Rattle.mh_text.specs.{Names.{names_in, names_shown}, Auxiliary.BeginsWithName};

use crate::line::{Line, line_of};
use crate::pieces::Lines;
use crate::word::{is_name, is_word};
use indexmap::IndexSet;
use mh_model::limits::SESSIONS;
use mh_model::memory::NoMemory;
use std::alloc::Global;
use std::marker::Model;

/// How many names are distinguished.
const NAMES: usize = SESSIONS;

/// How many places the table of names that were looked up has.
const PLACES: usize = 64;

/// The place in the table of a name that begins with these bytes. A name of one byte is followed by a space.
fn place_by(first: u8, second: u8) -> usize
    ensures { result < 64 }
{
    usize::from(first.wrapping_add(second)) % PLACES
}

/// The place of a name in the table.
fn place_of(name: &[u8]) -> usize
    ensures { result < 64 }
{
    match *name {
        [] => 0,
        [first] => place_by(first, b' '),
        [first, second, ..] => place_by(first, second),
    }
}

fn empty_table<'a>() -> [Option<(&'a [u8], u8)>; PLACES]
    ensures { list_all is_none result ≡ true }
{
    [None; PLACES]
}

/// The first names of sessions that a script has, eight at most, and a table of names that were looked up.
#[derive(Drop)]
pub struct Names<'a> {
    seen: IndexSet<&'a [u8]>,
    table: [Option<(&'a [u8], u8)>; PLACES],
}

impl<'a> Model for Names<'a> {
    ghost use Rattle.std.specs.Prelude.{List, ℕ, ◌≤◌, length};
    ghost use Rattle.mh_text.specs.{Names.names_shown, Auxiliary.AreKnown};

    ghost Value = { List (List ℕ) };

    ghost view = { λ names. names_shown names.seen.keys };

    ghost invariant = { λ names. (length names.seen.keys ≤ 8) × AreKnown (names_shown names.seen.keys) names.table };
}

impl<'a> Names<'a> {
    #[tactic(auto, using(crate::proofs::NameLemmas::none_known))]
    pub fn new(alloc: Global) -> Names<'a>
        ensures { result ≡ [] }
    {
        Names {
            seen: IndexSet::new(alloc),
            table: empty_table(),
        }
    }

    /// The number of the session with this name, which is seen from now on: names past the eighth share number 8.
    pub fn number(&mut self, name: &'a [u8]) -> Result<u8, NoMemory>
        ensures number { IfOk result (λ number. number ≡ session_number self.old name.now) }
        ensures seen { OnOk result (self.new ≡ with_name self.old name.now) }
        ensures unchanged { OnErr result (self.new ≡ self.old) }
    {
        let place = place_of(name);
        if let Some((known, number)) = self.table[place]
            && is_word(known, name)
        {
            return Ok(number);
        }
        let number = number_in(&mut self.seen, name)?;
        if is_name(name) {
            self.table[place] = Some((name, number));
        }
        Ok(number)
    }

    /// The number of the name that a text begins with before a space, if it stands in the table, and what follows that.
    #[inline(always)]
    pub(crate) fn leading<'b>(&self, text: &'b [u8]) -> Option<(u8, &'b [u8])>
        ensures some { IfSome result (λ found. BeginsWithName self.now text.now found.0 found.1.now) }
        ensures shorter { IfSome result (λ found. length found.1.now < length text.now) }
    {
        let [first, second, ..] = *text else {
            return None;
        };
        let (name, number) = self.table[place_by(first, second)]?;
        let count = name.len();
        if count < text.len() && text[count] == b' ' && is_word(name, &text[..count]) {
            Some((number, &text[count + 1..]))
        } else {
            None
        }
    }

    /// The names in the order in which they were first seen.
    pub fn as_slice(&self) -> &[&'a [u8]]
        ensures { names_shown result.now ≡ self.now }
    {
        self.seen.as_slice()
    }
}

/// The names of the sessions of a script, eight at most, in the order in which they are first seen. A line that is outside the
/// grammar has none.
pub fn names_in(alloc: Global, text: &[u8]) -> Result<Names<'_>, NoMemory>
    requires { length text.now + 1 < 2 ^ 64 }
    ensures { IfOk result (λ names. names ≡ names_in text.now) }
{
    let mut names = Names::new(alloc);
    let mut lines = Lines::new(text);
    while let Some((_, line)) = lines.next_line() {
        if let Line::Calls(name, _) = line_of(line) {
            names.number(name)?;
        }
    }
    Ok(names)
}

/// The place of a name among those seen, where it is put if it is new and there is room.
fn number_in<'a>(seen: &mut IndexSet<&'a [u8]>, name: &'a [u8]) -> Result<u8, NoMemory>
    requires { length seen.old.keys ≤ 8 }
    ensures number { IfOk result (λ number. number ≡ session_number (names_shown seen.old.keys) name.now) }
    ensures seen { OnOk result (names_shown seen.new.keys ≡ with_name (names_shown seen.old.keys) name.now) }
    ensures few { length seen.new.keys ≤ 8 }
    ensures unchanged { OnErr result (seen.new.keys ≡ seen.old.keys) }
{
    if let Some(place) = seen.get_index_of(name) {
        return Ok(place as u8);
    }
    let number = seen.len();
    if number >= NAMES {
        return Ok(NAMES as u8);
    }
    if number == 0 {
        seen.reserve(NAMES)?;
    }
    seen.insert(name)?;
    Ok(number as u8)
}
