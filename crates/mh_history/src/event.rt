//! Events as histories write them. A session is `s0` to `s8`, in both versions, by the order in which a script names
//! them first. `s8` is all sessions past the eighth. A history has no other names.
ghost use Rattle.std.specs.Prelude.{◌≡◌};
ghost use Rattle.mh_model.specs.HistoryTexts.{session_of, event_of};

use crate::parts::tagged;
use mh_model::command::Event;
use mh_model::history::Version;
use mh_model::limits::SESSIONS;
use mh_text::forms::{command_of, control_of};
use mh_text::pieces::Words;
use mh_text::word::is_word;

/// The most of the numbers that sessions have.
const LAST_SESSION: u64 = SESSIONS as u64;

/// The number of the session that a word is: `s0` to `s8`.
pub fn session_of(word: &[u8]) -> Option<u8>
    ensures { result ≡ session_of word.now }
{
    let who = tagged(word, b's')?;
    if who <= LAST_SESSION {
        Some(who as u8)
    } else {
        None
    }
}

/// The event that words are, if the version knows it.
pub fn event_of(version: Version, mut words: Words<'_>) -> Option<Event>
    ensures { result ≡ event_of version words.entry }
{
    let word = words.next_word()?;
    if is_word(word, b"*") {
        return Some(Event::Control(control_of(version, words)?));
    }
    let who = session_of(word)?;
    Some(Event::Session(who, command_of(words)?))
}
