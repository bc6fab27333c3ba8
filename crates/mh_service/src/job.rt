//! What one call does with the state, and what the state shows to the lock: its history as entries, and its
//! configuration as the origin. Its type says that it is the replay of that history, so a call knows this of what it
//! finds. The items of a dump are taken under the lock, before the event is done.
ghost use Rattle.std.specs.Prelude.{◌≡◌, IfOk, MatchResult};
ghost use Rattle.mh_service.specs.Sharing.{IsDone, IsRefused, IsReplayOf};
ghost use Rattle.mh_state.specs.Storing.{first_stored};

use mh_lock::entries::{Entries, Work};
use mh_model::command::Event;
use mh_model::config::Config;
use mh_model::history::Entry;
use mh_model::memory::NoMemory;
use mh_promise::replays::events_keep_the_replay;
use mh_scan::scan::Scanner;
use mh_state::copies::Twice;
use mh_state::machine::Stop;
use mh_state::state::State;
use std::alloc::Global;
use std::marker::Model;

/// The state that the seats call, which shows itself as its history. No call changes its configuration.
#[derive(Drop)]
pub struct Shared {
    pub(crate) state: State,
}

impl Model for Shared {
    ghost use Rattle.mh_service.specs.Auxiliary.{IsReplayed};
    ghost use Rattle.mh_state.specs.Storing.{Stored};

    ghost Value = { Stored };

    ghost view = { λ shared. shared.state };

    ghost invariant = { λ shared. IsReplayed shared.state };
}

impl Entries<Entry> for Shared {
    type Origin = Config;

    ghost entries = { λ stored. stored.history };

    ghost origin = { λ stored. stored.machine.heap.config };

    fn origin(&self) -> Config {
        self.state.machine().config()
    }
}

impl Shared {
    /// The state of a configuration, which has done nothing.
    pub(crate) fn open(alloc: Global, config: Config) -> Result<Shared, NoMemory>
        ensures { IfOk result (λ shared. shared ≡ first_stored config) }
    {
        events_keep_the_replay();
        let state = State::open(alloc, config)?;
        Ok(Shared { state })
    }

    pub(crate) fn into_state(self) -> State
        ensures { result ≡ self }
    {
        self.state
    }
}

/// One event, done by a scanner of the calling thread.
pub(crate) struct Job<'a, S> {
    pub(crate) event: Event,
    pub(crate) scanner: &'a mut S,
}

impl<'a, S: Scanner> Work<Shared, Entry> for Job<'a, S> {
    type Reply = Twice;

    type Refusal = Stop;

    ghost entry = { λ job twice. record { event = job.event; reply = twice } };

    ghost does = { λ job found answer left. IsReplayOf found.machine.heap.config found × IsReplayOf left.machine.heap.config left × MatchResult answer (λ reply. IsDone job.event found reply left) (λ stop. IsRefused job.event found stop left) };

    fn run(self, shared: &mut Shared) -> Result<Twice, Stop> {
        events_keep_the_replay();
        let Job { event, scanner } = self;
        shared.state.apply_with_copy(event, scanner)
    }
}
