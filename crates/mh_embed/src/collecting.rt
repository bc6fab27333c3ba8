//! A machine, with what its last event added to the trace and, if they are asked for, the deeds of that. Quanta are run by
//! the calling thread alone. An event that isn't done leaves all as it was, the deeds of the last one too.
ghost use Rattle.std.specs.Prelude.{◌≡◌, ◌<◌, ◌≤◌, true, is_some, Some, None, List, IfOk, MatchOption, OnOk, OnErr, IsErrOf, length, slice_get};
ghost use Rattle.mh_model.specs.Limits.{most_events};
ghost use Rattle.mh_machine.specs.{Running.{Does, MayAskForMemory}, declared.machine.Stop.Stop};
ghost use Rattle.mh_embed.specs.{Drivers.{AreKept, first_collected}, Auxiliary.IsCounted, Numbers.units_between};
ghost use Rattle.mh_model.specs.declared.deed.Deed as deeds;
ghost use Rattle.mh_model.specs.declared.command.Control.TheVariants as controls;
ghost use Rattle.mh_model.specs.Machine as model;

use crate::numbers::UnitNumbers;
use mh_deeds::account::Account;
use mh_machine::machine::{Machine, Stop};
use mh_model::command::Event;
use mh_model::config::Config;
use mh_model::deed::Deed;
use mh_model::limits::MOST_EVENTS;
use mh_model::memory::NoMemory;
use mh_model::reply::Reply;
use mh_model::report::Report;
use mh_scan::scan::OneScan;
use std::alloc::Global;
use std::marker::Model;
use std::mem;

/// A machine with its last event.
#[derive(Drop)]
pub struct CollectingMachine {
    alloc: Global,
    machine: Machine,
    units: UnitNumbers,
    tells: bool,
    is_told: bool,
    account: Account,
    next: Account,
}

impl Model for CollectingMachine {
    ghost use Rattle.mh_embed.specs.{Drivers.Collected, Auxiliary.deeds_in};

    ghost Value = { Collected };

    ghost view = { λ c. record { machine = c.machine; units = c.units; tells = c.tells; deeds = deeds_in c.is_told c.account } };
}

/// What the trace of a machine counts.
#[derive(Clone, Copy)]
pub(crate) struct Counts {
    mutator: u64,
    collector: u64,
    quanta: u64,
}

fn counts_of(machine: &Machine) -> Counts
    ensures { IsCounted machine.now.machine result }
{
    let trace = machine.trace();
    Counts {
        mutator: trace.mutator_count(),
        collector: trace.collector_count(),
        quanta: trace.quanta(),
    }
}

/// What a machine's trace has more than it counted before.
fn units_since(before: Counts, machine: &Machine) -> UnitNumbers
    ensures { (old : model.Machine) → IsCounted old before → result ≡ units_between old machine.now.machine }
{
    let after = counts_of(machine);
    UnitNumbers {
        at: before.mutator.saturating_add(before.collector),
        mutator: after.mutator.saturating_sub(before.mutator),
        collector: after.collector.saturating_sub(before.collector),
        ran: u64::from(after.quanta != before.quanta),
        phase: machine.heap().phase().number(),
    }
}

impl CollectingMachine {
    ghost use Rattle.mh_embed.specs.Drivers.{Collecting, Forgetting, Reserving};
    ghost use Rattle.mh_run_laws.specs.Forgetting.{KeepsPromise};

    /// The machine of a configuration before its first event.
    pub fn open(alloc: Global, config: Config) -> Result<CollectingMachine, NoMemory>
        ensures { IfOk result (λ opened. opened ≡ first_collected config) }
    {
        Ok(CollectingMachine {
            alloc,
            machine: Machine::open(alloc, config)?,
            units: UnitNumbers {
                at: 0,
                mutator: 0,
                collector: 0,
                ran: 0,
                phase: 0,
            },
            tells: false,
            is_told: false,
            account: Account::new(alloc),
            next: Account::new(alloc),
        })
    }

    /// Does an event without its deeds.
    fn untold(&mut self, event: Event) -> Result<Reply, Stop>
        ensures does { IfOk result (λ reply. Does self.old.machine event reply self.new.machine) }
        ensures deeds { IfOk result (λ _. self.new.deeds ≡ None) }
        ensures units { self.new.units ≡ self.old.units }
        ensures tells { self.new.tells ≡ self.old.tells }
        ensures kept { OnErr result (self.new ≡ self.old) }
        ensures full { IsErrOf result Stop.HistoryFull → self.old.machine.done ≡ most_events }
        ensures memory { IsErrOf result Stop.NoMemory → MayAskForMemory self.old.machine.room event }
    {
        let mut scanner = OneScan::new(self.alloc);
        let reply = self.machine.step(event, &mut scanner)?;
        self.is_told = false;
        Ok(reply)
    }

    /// Does an event with its deeds, which become those of the last event only if it is done.
    fn told(&mut self, event: Event) -> Result<Reply, Stop>
        ensures does { IfOk result (λ reply. Does self.old.machine event reply self.new.machine) }
        ensures deeds { IfOk result (λ _. AreKept true self.old.machine.machine event self.new.deeds) }
        ensures units { self.new.units ≡ self.old.units }
        ensures tells { self.new.tells ≡ self.old.tells }
        ensures kept { OnErr result (self.new ≡ self.old) }
        ensures full { IsErrOf result Stop.HistoryFull → self.old.machine.done ≡ most_events }
        ensures memory { IsErrOf result Stop.NoMemory → MayAskForMemory self.old.machine.room event }
    {
        let reply = self.machine.step_told(event, &mut self.next)?;
        mem::swap(&mut self.account, &mut self.next);
        self.is_told = true;
        Ok(reply)
    }

    /// Does an event.
    #[tactic(auto, unfolding(mh_model::specs::Limits::most_events))]
    pub fn event(&mut self, event: Event) -> Result<Reply, Stop>
        ensures done { IfOk result (λ reply. Collecting self.old event reply self.new) }
        ensures kept { OnErr result (self.new ≡ self.old) }
        ensures full { IsErrOf result Stop.HistoryFull → self.old.machine.done ≡ most_events }
        ensures room { IsErrOf result Stop.NoMemory → self.old.machine.done < most_events }
        ensures memory { IsErrOf result Stop.NoMemory → MayAskForMemory self.old.machine.room event }
    {
        if self.machine.done() >= MOST_EVENTS {
            return Err(Stop::HistoryFull);
        }
        let before = counts_of(&self.machine);
        let reply = if self.tells {
            self.told(event)?
        } else {
            self.untold(event)?
        };
        self.units = units_since(before, &self.machine);
        Ok(reply)
    }

    /// Whether events keep their deeds, from the next one on.
    pub fn tell(&mut self, tells: bool)
        ensures { self.new ≡ record (self.old) { tells = tells } }
    {
        self.tells = tells;
    }

    /// What the last event added to the trace.
    pub fn units(&self) -> UnitNumbers
        ensures { result ≡ self.now.units }
    {
        self.units
    }

    /// Whether it has the deeds of the last event.
    pub fn has_deeds(&self) -> bool
        ensures { result ≡ is_some self.now.deeds }
    {
        self.is_told && self.account.is_whole()
    }

    /// A deed of the last event, if it has its deeds.
    pub fn deed(&self, index: usize) -> Option<&Deed>
        ensures { (kept : List deeds.Deed) → self.now.deeds ≡ Some kept → MatchOption result (length kept ≤ index) (λ deed. slice_get kept index ≡ Some deed.now) }
    {
        let command = self.account.command.deeds();
        if index < command.len() {
            return Some(&command[index]);
        }
        match self.account.quantum {
            Some(_) => self.account.ran.deeds().get(index - command.len()),
            None => None,
        }
    }

    /// What a `stat` would answer.
    #[tactic(auto, unfolding(mh_model::specs::Machine::control_step))]
    pub fn stat(&self) -> Reply
        ensures { result ≡ (model.control_step self.now.machine.machine controls.Stat).reply }
    {
        Reply::Stat(self.machine.heap().stat())
    }

    /// What a `left` would answer.
    #[tactic(auto, unfolding(mh_model::specs::Machine::control_step))]
    pub fn left(&self) -> Reply
        ensures { result ≡ (model.control_step self.now.machine.machine controls.Left).reply }
    {
        Reply::Left(self.machine.heap().quanta_left())
    }
    /// Makes room for so many events. Deeds that are kept ask for memory of their own.
    pub fn reserve(&mut self, events: usize) -> Result<(), NoMemory>
        ensures done { OnOk result (Reserving events self.old self.new) }
        ensures err { OnErr result (self.new ≡ self.old) }
    {
        self.machine.reserve(events)
    }

    /// Forgets its trace.
    pub fn forget(&mut self)
        ensures { Forgetting self.old self.new }
    {
        self.machine.forget();
    }

    /// The report of its trace since that was last forgotten. It is no event, and keeps the promise of the configuration.
    pub fn report(&mut self, window: u64) -> Report
        ensures report { result ≡ model.report_on self.old.machine.machine.heap.config self.old.machine.machine.trace window }
        ensures promise { KeepsPromise self.old.machine.machine.heap.config result }
        ensures kept { self.new ≡ self.old }
    {
        self.machine.report(window)
    }
}
