//! The machine that runs: the heap of pages, the units since the last quantum, and the trace.
//!
//! It does an event, with the quantum that it makes due, exactly as the model's machine does, and answers what that
//! answers. At 2^42 events it answers that the history is full, and never before. It answers out of memory only to
//! a dump, and to a command or a quantum while the trace has no room for it. Both leave it as it was, and it stops for
//! nothing else (`Stop`).
//!
//! All that grows with its events is the trace. `reserve` makes room for some, and then none of the next so many is refused
//! memory, but for dumps (`reserved_events_ask_for_no_memory`). `forget` empties the trace. Reports then count from
//! there, and keep the promise of the configuration still; all else is as if nothing was forgotten.
//!
//! An event that tells what it does (`step_told`) answers and leaves the same. Its account is the model's, unless memory
//! was refused for a deed, and then the account says so. An event that isn't done leaves an empty account.
//!
//! It counts the events that it has done, and stops at 2^42: so all its counts stay far from the ends of their types, and
//! none of its calls asks for a condition, but for those of a caller who knows that a history of 1,000,000 events has room.
//! `State` keeps the history beside it; `run` and `run_script` do without one.
//!
//! Its `drop` takes it apart and does nothing else, as does that of `KeptHeap`: whoever owns a machine proves one call
//! when it is dropped, and not the drop of each table at each of its ends. For the same reason loops over a machine are
//! in functions that borrow it.
ghost use Rattle.std.specs.Prelude.{◌≡◌, ◌<◌, ◌≤◌, ◌↔◌, Ok, IfOk, IsTrue, OnOk, OnErr, IsErrOf};
ghost use Rattle.mh_model.specs.{Limits.{most_entries, most_events}, Deeds.account_of, Machine.report_on};
ghost use Rattle.mh_run_laws.specs.Forgetting.{KeepsPromise};
ghost use Rattle.mh_deeds.specs.Accounts.{empty_account, Tells};
ghost use Rattle.mh_machine.specs.Running.{first_running, Does, Forgets, MayAskForMemory, Reserves};
ghost use Rattle.mh_machine.specs.{Auxiliary.nothing, declared.machine.Stop.Stop};

use crate::engine::Engine;
use crate::executor::{Executor, Plain};
use mh_deeds::account::Account;
use mh_model::command::Event;
use mh_model::config::Config;
use mh_model::limits::{MOST_ENTRIES, MOST_EVENTS};
use mh_model::memory::NoMemory;
use mh_model::reply::Reply;
use mh_model::report::Report;
use mh_paged::paged::PagedHeap;
use mh_report::report::report;
use mh_report::trace::Trace;
use mh_run_laws::bounds::runs_stay_within_their_events;
use mh_run_laws::forgetting::{events_keep_what_is_recalled, forgotten_traces_keep_their_promise};
use mh_scan::scan::Scanner;
use std::alloc::Global;
use std::marker::Model;
use thiserror::Error;
/// Why an event was not done. It left everything as it was.
#[derive(Clone, Copy, Debug, PartialEq, Eq, Error)]
pub enum Stop {
    #[error("history full")]
    HistoryFull,
    #[error("no memory")]
    NoMemory,
}

impl From<NoMemory> for Stop {
    ghost from_gives = { λ _ stop. stop ≡ Stop.NoMemory };

    fn from(_error: NoMemory) -> Stop {
        Stop::NoMemory
    }
}

/// The machine, which does events one by one, 2^42 at most.
pub struct Machine {
    alloc: Global,
    config: Config,
    engine: Engine,
    done: u64,
}

// An owner proves one call if it drops the machine, and not each of its parts.
impl Drop for Machine {
    fn drop(self) {
        let Machine {
            alloc: _,
            config: _,
            engine: _,
            done: _,
        } = self;
    }
}

impl Model for Machine {
    ghost use Rattle.std.specs.Prelude.{◌≡◌};
    ghost use Rattle.mh_machine.specs.{Auxiliary.{machine_of, IsRunning}, Running.Running};

    ghost Value = { Running };

    ghost view = { λ m. record { machine = machine_of m.engine; done = m.done; room = m.engine.trace.room; capacity = m.engine.trace.capacity } };

    ghost invariant = { λ m. IsRunning m.config (record { machine = machine_of m.engine; done = m.done; room = m.engine.trace.room; capacity = m.engine.trace.capacity }) };
}

/// The outcome of an event that there is room for: memory alone stops it.
#[inline(always)]
fn in_room(outcome: Result<Reply, Stop>) -> Result<Reply, NoMemory>
    requires room { ¬ IsErrOf outcome Stop.HistoryFull }
    ensures reply { IfOk result (λ reply. outcome ≡ Ok reply) }
    ensures memory { OnErr result (IsErrOf outcome Stop.NoMemory) }
{
    match outcome {
        Ok(reply) => Ok(reply),
        Err(Stop::NoMemory) => Err(NoMemory),
        Err(Stop::HistoryFull) => unreachable!(),
    }
}

impl Machine {
    /// The machine of a configuration before its first event.
    pub fn open(alloc: Global, config: Config) -> Result<Machine, NoMemory>
        ensures { IfOk result (λ machine. machine ≡ first_running config) }
    {
        events_keep_what_is_recalled();
        Ok(Machine {
            alloc,
            config,
            engine: Engine::open(alloc, config)?,
            done: 0,
        })
    }

    /// Does an event by an executor that was told nothing yet.
    // A reply is as large as several commands take to write, so none of the calls that hand it on stands by itself.
    #[inline(always)]
    #[tactic(auto, unfolding(mh_model::specs::Limits::most_events))]
    fn advance<P: Executor>(&mut self, event: Event, executor: &mut P) -> Result<Reply, Stop>
        requires fresh { P.tells nothing executor.old }
        ensures step { IfOk result (λ reply. Does self.old event reply self.new) }
        ensures few { OnOk result (self.old.done < most_events) }
        ensures stopped { OnErr result (self.new ≡ self.old) }
        ensures full { IsErrOf result Stop.HistoryFull → self.old.done ≡ most_events }
        ensures ends { self.old.done ≡ most_events → IsErrOf result Stop.HistoryFull }
        ensures memory { IsErrOf result Stop.NoMemory → MayAskForMemory self.old.room event }
        ensures told { IfOk result (λ reply. P.tells (account_of self.old.machine event) executor.new) }
        ensures quiet { OnErr result (executor.new ≡ executor.old) }
    {
        runs_stay_within_their_events();
        events_keep_what_is_recalled();
        if self.done == MOST_EVENTS {
            return Err(Stop::HistoryFull);
        }
        match self.engine.event(self.alloc, &self.config, event, executor) {
            Err(NoMemory) => Err(Stop::NoMemory),
            Ok(reply) => {
                self.done += 1;
                Ok(reply)
            }
        }
    }

    /// Does an event with the quantum that it makes due, and answers it. Memory is asked for before anything changes, and
    /// only for a dump and for the trace, which has room for an event if its room is 2; what the scanner asks for is its
    /// own, and a quantum never fails for it.
    pub fn step<S: Scanner>(&mut self, event: Event, scanner: &mut S) -> Result<Reply, Stop>
        ensures step { IfOk result (λ reply. Does self.old event reply self.new) }
        ensures few { OnOk result (self.old.done < most_events) }
        ensures stopped { OnErr result (self.new ≡ self.old) }
        ensures full { IsErrOf result Stop.HistoryFull → self.old.done ≡ most_events }
        ensures ends { self.old.done ≡ most_events → IsErrOf result Stop.HistoryFull }
        ensures memory { IsErrOf result Stop.NoMemory → MayAskForMemory self.old.room event }
    {
        self.advance(event, &mut Plain { scanner })
    }

    /// Does an event as `step` does, and tells what its command and its quantum did. Memory that is refused for a deed
    /// stops no event: then the account isn't whole. No scanner is asked, since it tells each block.
    pub fn step_told(&mut self, event: Event, account: &mut Account) -> Result<Reply, Stop>
        ensures step { IfOk result (λ reply. Does self.old event reply self.new) }
        ensures few { OnOk result (self.old.done < most_events) }
        ensures stopped { OnErr result (self.new ≡ self.old) }
        ensures full { IsErrOf result Stop.HistoryFull → self.old.done ≡ most_events }
        ensures ends { self.old.done ≡ most_events → IsErrOf result Stop.HistoryFull }
        ensures memory { IsErrOf result Stop.NoMemory → MayAskForMemory self.old.room event }
        ensures told { IfOk result (λ reply. Tells self.old.machine event account.new) }
        ensures quiet { OnErr result (account.new ≡ empty_account) }
    {
        account.clear();
        self.advance(event, account)
    }

    /// Does an event as `step` does, for a caller who knows that a history has room for it: memory alone stops it.
    // Whole scripts are run by it, so it is part of the loops that call it.
    #[inline(always)]
    #[tactic(auto, unfolding(mh_model::specs::Limits::most_entries, mh_model::specs::Limits::most_events))]
    pub fn step_in_room<S: Scanner>(
        &mut self,
        event: Event,
        scanner: &mut S,
    ) -> Result<Reply, NoMemory>
        requires room { self.old.done < most_entries }
        ensures step { IfOk result (λ reply. Does self.old event reply self.new) }
        ensures stopped { OnErr result (self.new ≡ self.old) }
        ensures memory { OnErr result (MayAskForMemory self.old.room event) }
    {
        in_room(self.advance(event, &mut Plain { scanner }))
    }

    /// Does an event as `step_told` does, for a caller who knows that a history has room for it: memory alone stops it.
    #[tactic(auto, unfolding(mh_model::specs::Limits::most_entries, mh_model::specs::Limits::most_events))]
    pub fn step_told_in_room(
        &mut self,
        event: Event,
        account: &mut Account,
    ) -> Result<Reply, NoMemory>
        requires room { self.old.done < most_entries }
        ensures step { IfOk result (λ reply. Does self.old event reply self.new) }
        ensures stopped { OnErr result (self.new ≡ self.old) }
        ensures memory { OnErr result (MayAskForMemory self.old.room event) }
        ensures told { IfOk result (λ reply. Tells self.old.machine event account.new) }
        ensures quiet { OnErr result (account.new ≡ empty_account) }
    {
        in_room(self.step_told(event, account))
    }

    /// Whether a history of its events has room for one more.
    #[tactic(auto, unfolding(mh_model::specs::Limits::most_entries))]
    pub fn has_history_room(&self) -> bool
        ensures { IsTrue result ↔ self.now.done < most_entries }
    {
        self.done < MOST_ENTRIES
    }

    /// Makes room for the letters of so many events: then none of the next so many is refused memory, unless it is a dump, and
    /// so none of so many after each time that the trace is forgotten. There is room for the walks of reports too.
    pub fn reserve(&mut self, events: usize) -> Result<(), NoMemory>
        ensures reserved { OnOk result (Reserves events self.old self.new) }
        ensures err { OnErr result (self.new ≡ self.old) }
    {
        self.engine.trace.reserve(events)
    }

    /// Forgets its trace, but not how many events it has done. What memory the trace had is room for events to come.
    pub fn forget(&mut self)
        ensures { Forgets self.old self.new }
    {
        events_keep_what_is_recalled();
        self.engine.trace.forget();
    }

    /// The report of its trace, for windows of this length. It is no event, and keeps what the configuration promises.
    pub fn report(&mut self, window: u64) -> Report
        ensures report { result ≡ report_on self.old.machine.heap.config self.old.machine.trace window }
        ensures kept { self.new ≡ self.old }
        ensures promise { KeepsPromise self.old.machine.heap.config result }
    {
        forgotten_traces_keep_their_promise();
        report(&mut self.engine.trace, &self.config, window)
    }

    /// How many events it has done.
    pub fn done(&self) -> u64
        ensures done { result ≡ self.now.done }
        ensures few { result ≤ most_events }
    {
        self.done
    }

    pub fn config(&self) -> Config
        ensures { result ≡ self.now.machine.heap.config }
    {
        self.config
    }

    /// The heap, with the roots, the table and the collector.
    pub fn heap(&self) -> &PagedHeap
        ensures { result.now.kept ≡ self.now.machine.heap }
    {
        &self.engine.heap
    }

    pub fn trace(&self) -> &Trace
        ensures { result.now.trace ≡ self.now.machine.trace }
    {
        &self.engine.trace
    }

    /// The heap and the trace.
    pub fn into_parts(self) -> (PagedHeap, Trace)
        ensures heap { result.0.kept ≡ self.machine.heap }
        ensures trace { result.1.trace ≡ self.machine.trace }
    {
        let Machine {
            alloc: _,
            config: _,
            engine,
            done: _,
        } = self;
        (engine.heap, engine.trace)
    }
}
