//! The events of histories, of which one at a time is kept: of entries in memory, and of lines that are known to be entries
//! and are read once more.
ghost use Rattle.std.specs.Prelude.{◌≡◌, [], ◌∷◌, List, MatchOption, IfOk, OnOk};
ghost use Rattle.mh_history.specs.Beginnings.{entries_left, line_as_entry};
ghost use Rattle.mh_judge.specs.Records.{IsRead, entries_in};
ghost use Rattle.mh_model.specs.{declared.command.Event.Event, History.events_of};

use mh_history::lines::next_entry;
use mh_model::command::Event;
use mh_model::history::Entry;
use mh_model::memory::NoMemory;
use mh_text::pieces::Lines;
use mh_text::text_error::TextError;
use std::alloc::Global;

/// Events that come one after another.
pub(crate) trait Events: Drop {
    // those that are left
    ghost left: { Self → List Event };

    // all that is left can be read
    ghost sound: { Self → Type 0 };

    /// The next one, none after the last.
    fn next_event(&mut self) -> Result<Option<Event>, NoMemory>
        requires { sound self.old }
        ensures next { IfOk result (λ next. MatchOption next (left self.old ≡ []) (λ event. left self.old ≡ event ∷ left self.new)) }
        ensures sound { OnOk result (sound self.new) };
}

/// The events of entries in memory.
#[derive(Drop)]
pub(crate) struct OfEntries<'a> {
    pub(crate) entries: &'a [Entry],
}

impl Events for OfEntries<'_> {
    ghost left = { λ of. events_of of.entries.now };

    ghost sound = { λ of. Unit {0} };

    fn next_event(&mut self) -> Result<Option<Event>, NoMemory> {
        let Some((entry, rest)) = self.entries.split_first() else {
            return Ok(None);
        };
        self.entries = rest;
        Ok(Some(entry.event))
    }
}

/// The events of the entries that lines are read as.
#[derive(Drop)]
pub(crate) struct OfLines<'a> {
    pub(crate) alloc: Global,
    pub(crate) lines: Lines<'a>,
}

impl Events for OfLines<'_> {
    ghost left = { λ of. events_of (entries_in (entries_left line_as_entry of.lines)) };

    ghost sound = { λ of. IsRead (entries_left line_as_entry of.lines) };

    fn next_event(&mut self) -> Result<Option<Event>, NoMemory> {
        match next_entry::<Entry>(self.alloc, &mut self.lines) {
            Ok(Some(entry)) => Ok(Some(entry.event)),
            Ok(None) => Ok(None),
            Err(TextError::NoMemory) => Err(NoMemory),
            Err(TextError::Line(_)) => unreachable!(),
        }
    }
}
