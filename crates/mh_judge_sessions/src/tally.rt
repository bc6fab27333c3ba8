//! What was looked through of a history: how many entries, how many of them are full, and how much was asked of the
//! collector. A verdict on a history in which the collector was asked for nothing says little of a collector.
ghost use Rattle.std.specs.Prelude.{◌≡◌, ◌≤◌, cond, List, [], ◌∷◌, ◌++◌};
ghost use Rattle.mh_model.specs.{declared.history.Entry.Entry, Limits.most_entries};
ghost use Rattle.mh_judge_sessions.specs.Full.{asks_quantum, asks_start, is_full, tally_of};

use mh_model::command::{Control, Event};
use mh_model::history::Entry;
use mh_model::reply::{Refusal, Reply};

/// What was looked through of a history, up to its first bad entry, and with it.
#[derive(Clone, Copy, Debug, PartialEq, Eq)]
pub struct EntryCounts {
    /// All entries.
    pub entries: u64,
    /// Those in which a session was answered `heap full`.
    pub full: u64,
    /// Those that ask for a quantum.
    pub quanta: u64,
    /// Those that ask for the start of a cycle.
    pub starts: u64,
}

/// Whether a session is answered that the heap is full.
pub fn is_full(entry: &Entry) -> bool
    ensures { result ≡ is_full entry.now }
{
    matches!(entry.event, Event::Session(..))
        && matches!(entry.reply, Reply::Refused(Refusal::HeapFull))
}

fn asks_quantum(event: Event) -> bool
    ensures { result ≡ asks_quantum event }
{
    matches!(event, Event::Control(Control::Quantum))
}

fn asks_start(event: Event) -> bool
    ensures { result ≡ asks_start event }
{
    matches!(event, Event::Control(Control::Start))
}

fn one_if(passes: bool) -> u64
    ensures { result ≡ cond passes 1 0 }
{
    if passes { 1 } else { 0 }
}

impl EntryCounts {
    /// That of no entry.
    pub(crate) fn none() -> EntryCounts
        ensures { result ≡ tally_of [] }
    {
        EntryCounts {
            entries: 0,
            full: 0,
            quanta: 0,
            starts: 0,
        }
    }

    /// Counts an entry more.
    #[tactic(auto, unfolding(mh_model::specs::Limits::most_entries))]
    pub(crate) fn add(&mut self, entry: &Entry)
        requires entries { self.old.entries ≤ most_entries }
        requires full { self.old.full ≤ most_entries }
        requires quanta { self.old.quanta ≤ most_entries }
        requires starts { self.old.starts ≤ most_entries }
        ensures { (seen : List Entry) → self.old ≡ tally_of seen → self.new ≡ tally_of (seen ++ entry.now ∷ []) }
    {
        self.entries += 1;
        self.full += one_if(is_full(entry));
        self.quanta += one_if(asks_quantum(entry.event));
        self.starts += one_if(asks_start(entry.event));
    }
}
