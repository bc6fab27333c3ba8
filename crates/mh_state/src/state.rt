//! The state: the machine with the history of what it did.
//!
//! It enters each event that it does with its reply. Its history is legal. Heap, free pages and trace are those of the
//! replay of it, and it keeps the promise of a run for that history. It answers that the history is full exactly at
//! 1,000,000 entries. It answers out of memory only if the machine asks for memory or the history has no room for an
//! entry (`memory`). Both leave machine and history as they were.
//!
//! `State::apply` is for users of this crate: here an example and tests call it. The service calls `apply_with_copy`.
//!
//! All growths come before the event: room in the trace, the entry's place in the history, and the handles of a dump.
//! If memory for the event is then refused, the room that was made stays, since room is no part of either.
ghost use Rattle.std.specs.{Prelude.{◌≡◌, ◌<◌, ◌⊎◌, IfOk, OnOk, OnErr, IsErrOf, length, vec_len}, Vec.vec_capacity};
ghost use Rattle.mh_model.specs.{History.IsLegal, Limits.most_entries, World.says, Machine.event_step};
ghost use Rattle.mh_state.specs.Auxiliary.{IsDumpOf};
ghost use Rattle.mh_state.specs.Storing.{first_stored, KeepsState, MayWantMemory, with_entry, IsTheReplay, KeepsItsPromise};
ghost use Rattle.mh_machine.specs.declared.machine.Stop.{Stop};
ghost use Rattle.mh_model.specs.declared.command.Control.TheVariants as controls;
ghost use Rattle.mh_model.specs.declared.command.Event.TheVariants as events;

use crate::copies::{Dumps, Twice, copies_of, dumps_for};
use mh_machine::machine::{Machine, Stop};
use mh_model::command::Event;
use mh_model::config::Config;
use mh_model::history::Entry;
use mh_model::limits::MOST_ENTRIES;
use mh_model::memory::NoMemory;
use mh_model::reply::Reply;
use mh_paged::paged::PagedHeap;
use mh_promise::replays::events_keep_the_replay;
use mh_report::trace::Trace;
use mh_scan::scan::Scanner;
use std::alloc::Global;
use std::marker::Model;

/// The machine, which enters each event that it does in its history.
#[derive(Drop)]
pub struct State {
    alloc: Global,
    machine: Machine,
    history: Vec<Entry>,
}

impl Model for State {
    ghost use Rattle.std.specs.{Prelude.{◌-◌, vec_len}, Vec.vec_capacity};
    ghost use Rattle.mh_state.specs.{Storing.Stored, Auxiliary.IsStored};

    ghost Value = { Stored };

    ghost view = { λ s. record {
      machine = s.machine.machine;
      history = s.history.items;
      trace_room = s.machine.room;
      entry_room = vec_capacity s.history - vec_len s.history;
    } };

    ghost invariant = { λ s. IsStored s.machine s.history.items };
}

/// Makes room for an entry, and the dumps that its event will be answered, if it asks for one.
fn prepare(
    alloc: Global,
    history: &mut Vec<Entry>,
    machine: &Machine,
    event: Event,
) -> Result<Option<Dumps>, NoMemory>
    ensures kept { history.new.items ≡ history.old.items }
    ensures room { OnOk result (vec_len history.new < vec_capacity history.new) }
    ensures dumps { IfOk result (λ dumps. IsDumpOf (event_step machine.now.machine event).reply dumps) }
    ensures memory { OnErr result ((event ≡ events.Control controls.Dump) ⊎ (vec_capacity history.old ≡ vec_len history.old)) }
{
    history.reserve(1)?;
    dumps_for(alloc, machine, event)
}

impl State {
    /// The machine of a configuration, which has done nothing.
    pub fn open(alloc: Global, config: Config) -> Result<State, NoMemory>
        ensures { IfOk result (λ state. state ≡ first_stored config) }
    {
        events_keep_the_replay();
        Ok(State {
            alloc,
            machine: Machine::open(alloc, config)?,
            history: Vec::new(alloc),
        })
    }

    /// Does an event and enters it.
    #[tactic(auto, unfolding(mh_model::specs::Limits::most_entries))]
    fn enter<S: Scanner>(&mut self, event: Event, scanner: &mut S) -> Result<Twice, Stop>
        ensures step { IfOk result (λ reply. event_step self.old.machine event ≡ says reply self.new.machine) }
        ensures entered { IfOk result (λ reply. self.new.history ≡ with_entry self.old.history event reply) }
        ensures config { self.new.machine.heap.config ≡ self.old.machine.heap.config }
        ensures stopped { OnErr result (KeepsState self.old self.new) }
        ensures full { IsErrOf result Stop.HistoryFull → length self.old.history ≡ most_entries }
        ensures ends { length self.old.history ≡ most_entries → IsErrOf result Stop.HistoryFull }
        ensures memory { IsErrOf result Stop.NoMemory → MayWantMemory self.old event }
    {
        events_keep_the_replay();
        if self.history.len() as u64 == MOST_ENTRIES {
            return Err(Stop::HistoryFull);
        }
        match prepare(self.alloc, &mut self.history, &self.machine, event) {
            Err(NoMemory) => Err(Stop::NoMemory),
            Ok(dumps) => {
                let reply = self.machine.step_in_room(event, scanner)?;
                let (copy, twice) = copies_of(reply, dumps);
                self.history.push_reserved(Entry { event, reply: copy });
                Ok(twice)
            }
        }
    }

    /// What the laws say of this state. It does nothing when it runs.
    fn told(&self)
        ensures legal { IsLegal self.now.machine.heap.config self.now.history }
        ensures replay { IsTheReplay self.now }
        ensures promise { KeepsItsPromise self.now }
    {
        events_keep_the_replay();
        let _alloc = self.alloc;
    }

    /// Does an event with the quantum that it makes due, enters it in the history, and answers it. Memory is asked for
    /// before anything changes.
    pub fn apply<S: Scanner>(&mut self, event: Event, scanner: &mut S) -> Result<Reply, Stop>
        ensures step { IfOk result (λ reply. event_step self.old.machine event ≡ says reply self.new.machine) }
        ensures entered { IfOk result (λ reply. self.new.history ≡ with_entry self.old.history event reply) }
        ensures config { self.new.machine.heap.config ≡ self.old.machine.heap.config }
        ensures stopped { OnErr result (KeepsState self.old self.new) }
        ensures full { IsErrOf result Stop.HistoryFull → length self.old.history ≡ most_entries }
        ensures ends { length self.old.history ≡ most_entries → IsErrOf result Stop.HistoryFull }
        ensures memory { IsErrOf result Stop.NoMemory → MayWantMemory self.old event }
        ensures legal { IsLegal self.new.machine.heap.config self.new.history }
        ensures replay { IsTheReplay self.new }
        ensures promise { KeepsItsPromise self.new }
    {
        let (reply, _) = self.apply_with_copy(event, scanner)?.both();
        Ok(reply)
    }

    /// Does what `apply` does, and answers twice over, for a caller that keeps the reply too.
    pub fn apply_with_copy<S: Scanner>(
        &mut self,
        event: Event,
        scanner: &mut S,
    ) -> Result<Twice, Stop>
        ensures step { IfOk result (λ reply. event_step self.old.machine event ≡ says reply self.new.machine) }
        ensures entered { IfOk result (λ reply. self.new.history ≡ with_entry self.old.history event reply) }
        ensures config { self.new.machine.heap.config ≡ self.old.machine.heap.config }
        ensures stopped { OnErr result (KeepsState self.old self.new) }
        ensures full { IsErrOf result Stop.HistoryFull → length self.old.history ≡ most_entries }
        ensures ends { length self.old.history ≡ most_entries → IsErrOf result Stop.HistoryFull }
        ensures memory { IsErrOf result Stop.NoMemory → MayWantMemory self.old event }
        ensures legal { IsLegal self.new.machine.heap.config self.new.history }
        ensures replay { IsTheReplay self.new }
        ensures promise { KeepsItsPromise self.new }
    {
        let outcome = self.enter(event, scanner);
        self.told();
        outcome
    }

    /// Each event that was done, with its reply, in order.
    pub fn history(&self) -> &[Entry]
        ensures { result.now ≡ self.now.history }
    {
        self.history.as_slice()
    }

    pub fn machine(&self) -> &Machine
        ensures machine { result.now.machine ≡ self.now.machine }
        ensures done { result.now.done ≡ length self.now.history }
    {
        &self.machine
    }

    /// The history, the heap and the trace.
    pub fn into_parts(self) -> (Vec<Entry>, PagedHeap, Trace)
        ensures history { result.0.items ≡ self.history }
        ensures heap { result.1.kept ≡ self.machine.heap }
        ensures trace { result.2.trace ≡ self.machine.trace }
        ensures legal { IsLegal self.machine.heap.config self.history }
        ensures replay { IsTheReplay self }
        ensures promise { KeepsItsPromise self }
    {
        self.told();
        let (heap, trace) = self.machine.into_parts();
        (self.history, heap, trace)
    }
}
