//! The names of sessions that were seen, kept in arrays of a fixed size. They aren't those of `mh_text`, which borrow
//! from a text: the bytes of a line are gone once it is answered. A name is looked up without being seen, since it is
//! seen only once its event is done.
ghost use Rattle.std.specs.Prelude.{◌≡◌, ◌≤◌, [], length, position};
ghost use Rattle.mh_model.specs.{Bytes.is_text, Script.{session_number, with_name}};

use arrayvec::ArrayVec;
use mh_model::limits::SESSIONS;
use mh_text::word::is_word;
use std::marker::Model;

/// The most bytes of a name.
const NAME_BYTES: usize = 16;

/// The first names of sessions that were seen, eight at most. They take no memory.
#[derive(Drop)]
pub struct SessionNames {
    seen: ArrayVec<ArrayVec<u8, NAME_BYTES>, SESSIONS>,
}

impl Model for SessionNames {
    ghost use Rattle.std.specs.Prelude.{List, ℕ, map};

    ghost Value = { List (List ℕ) };

    ghost view = { λ names. map (λ name. name.items) names.seen.items };
}

/// The place of a name among those seen.
fn place_in(seen: &[ArrayVec<u8, NAME_BYTES>], name: &[u8]) -> Option<usize>
    ensures { result ≡ position (λ seen. is_text seen.items name.now) seen.now }
{
    seen.iter().position(|seen| is_word(seen.as_slice(), name))
}

impl SessionNames {
    /// No names, which is how a script begins.
    pub fn new() -> SessionNames
        ensures { result ≡ [] }
    {
        SessionNames {
            seen: ArrayVec::new(),
        }
    }

    /// The number of the session with this name: its place among those seen, or how many they are.
    #[tactic(auto, using(mh_text::proofs::NamePlaces::number_found, mh_text::proofs::NamePlaces::number_missing))]
    pub fn number(&self, name: &[u8]) -> u8
        ensures { result ≡ session_number self.now name.now }
    {
        match place_in(self.seen.as_slice(), name) {
            Some(place) => place as u8,
            None => self.seen.len() as u8,
        }
    }

    /// The name is seen from now on, if there is room.
    pub fn see(&mut self, name: &[u8])
        requires { length name.now ≤ 16 }
        ensures { self.new ≡ with_name self.old name.now }
    {
        let count = self.seen.len();
        if count >= SESSIONS || (self.number(name) as usize) < count {
            return;
        }
        let mut kept: ArrayVec<u8, NAME_BYTES> = ArrayVec::new();
        match kept.try_extend_from_slice(name) {
            Ok(()) => self.seen.push(kept),
            Err(_) => unreachable!(),
        }
    }
}
