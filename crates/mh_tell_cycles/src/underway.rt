//! What is kept of a cycle while it runs.
ghost use Rattle.std.specs.{Prelude.{◌≡◌, ◌+◌, ◌-◌, ◌≤◌, ◌<◌, ◌^◌, length}, List.sum_by};
ghost use Rattle.mh_deeds.specs.Accounts.{account_in};
ghost use Rattle.mh_model.specs.{Deeds.units_of, Trace.{collector_count, mutator_count}};
ghost use Rattle.mh_tell_laws.specs.Cycles.{opens, ran_deeds};
ghost use Rattle.mh_tell_cycles.specs.Lines.{line_after};
ghost use Rattle.mh_tell_cycles.specs.Tallies.{HasRoom, blocks_after, blocks_of_stat, spent_by, underway_from, with_account, with_quantum};

use crate::line::{CycleLine, Ending};
use crate::tally::Tally;
use crate::watch::Watch;
use mh_deeds::account::Account;
use mh_machine::machine::Machine;
use mh_model::cycle::Phase;
use mh_model::stat::Stat;

/// What is in a heap.
#[derive(Clone, Copy)]
pub struct BlockCounts {
    /// Free pages.
    pub free: u128,
    /// Blocks that aren't forwarders, and forwarders.
    pub live: u128,
    pub old: u128,
}

/// What is kept of a cycle that runs.
#[derive(Clone, Copy)]
pub struct Underway {
    pub number: u128,
    /// The number of the event whose quantum started it.
    pub first: u64,
    pub is_asked: bool,
    /// The units of the mutator and of the collector before that quantum.
    pub mutator: u64,
    pub collector: u64,
    /// What was in the heap before it.
    pub before: BlockCounts,
    pub quanta: u64,
    /// The most that one of them spent.
    pub greatest: u64,
    pub tally: Tally,
}

impl BlockCounts {
    fn of(stat: Stat) -> BlockCounts
        ensures value { result ≡ blocks_of_stat stat }
        ensures few { result.live < 2 ^ 64 }
    {
        BlockCounts {
            free: u128::from(stat.free),
            live: u128::from(stat.live),
            old: u128::from(stat.old),
        }
    }
}

/// What is in the heap after the command of an event, from what was in it before. No machine is seen between a command
/// and its quantum, so the deeds of the command say what has changed.
fn after_command(stat: Stat, account: &Account) -> BlockCounts
    requires opened { sum_by opens account.now.command.deeds ≤ stat.free }
    requires commands { units_of account.now.command.deeds ≡ 0 }
    ensures { result ≡ blocks_after stat account.now.command.deeds }
{
    let mut tally = Tally::new();
    tally.note_all(account.command.deeds());
    let blocks = BlockCounts::of(stat);
    BlockCounts {
        free: blocks.free - tally.counts.opened,
        live: blocks.live + tally.counts.made,
        old: blocks.old,
    }
}

/// What the quantum of an event spent, if it ran one.
fn spent_by(account: &Account) -> u64
    ensures { result ≡ spent_by (account_in account.now).quantum }
{
    match account.quantum {
        Some(ended) => ended.units.0,
        None => 0,
    }
}

impl Underway {
    /// The cycle that the quantum of an event starts: from what was known before the event, the machine after it, and what
    /// it did.
    pub fn begun(number: u64, watch: &Watch, machine: &Machine, account: &Account) -> Underway
        requires spent { spent_by (account_in account.now).quantum ≤ collector_count machine.now.machine.trace.letters }
        requires opened { sum_by opens account.now.command.deeds ≤ watch.now.stat.free }
        requires commands { units_of account.now.command.deeds ≡ 0 }
        requires units { units_of (ran_deeds (account_in account.now).quantum) < 2 ^ 64 }
        ensures value { result ≡ underway_from number watch.now machine.now.machine (account_in account.now) }
        ensures few { length (ran_deeds (account_in account.now).quantum) < 2 ^ 64 }
    {
        let trace = machine.trace();
        let mut cycle = Underway {
            number: u128::from(watch.stat.cycle) + 1,
            first: number,
            is_asked: watch.is_asked,
            mutator: trace.mutator_count(),
            collector: trace.collector_count() - spent_by(account),
            before: after_command(watch.stat, account),
            quanta: 0,
            greatest: 0,
            tally: Tally::new(),
        };
        cycle.take_quantum(account);
        cycle
    }

    /// Takes in what the quantum of an event did, if it ran one.
    fn take_quantum(&mut self, account: &Account)
        requires room { HasRoom (2 ^ 125) self.old.tally }
        requires quanta { self.old.quanta < 2 ^ 62 }
        requires units { units_of (ran_deeds (account_in account.now).quantum) < 2 ^ 64 }
        ensures value { self.new ≡ with_quantum self.old (account_in account.now).quantum }
        ensures few { length (ran_deeds (account_in account.now).quantum) < 2 ^ 64 }
    {
        if let Some(ended) = account.quantum {
            self.quanta += 1;
            self.greatest = self.greatest.max(ended.units.0);
            self.tally.note_all(account.ran.deeds());
        }
    }

    /// Takes in what an event did.
    pub fn take(&mut self, account: &Account)
        requires room { HasRoom (2 ^ 120) self.old.tally }
        requires quanta { self.old.quanta < 2 ^ 62 }
        requires commands { units_of account.now.command.deeds ≡ 0 }
        requires units { units_of (ran_deeds (account_in account.now).quantum) < 2 ^ 64 }
        ensures value { self.new ≡ with_account self.old (account_in account.now) }
        ensures few { length account.now.command.deeds + length (ran_deeds (account_in account.now).quantum) < 2 ^ 65 }
    {
        self.tally.note_all(account.command.deeds());
        self.take_quantum(account);
    }

    /// Its line after the event of this number.
    pub fn line(&self, number: u64, machine: &Machine) -> CycleLine
        requires mutator { self.now.mutator ≤ mutator_count machine.now.machine.trace.letters }
        requires collector { self.now.collector ≤ collector_count machine.now.machine.trace.letters }
        ensures { result ≡ line_after self.now number machine.now.machine }
    {
        let trace = machine.trace();
        let mutator = trace.mutator_count();
        let collector = trace.collector_count();
        let stat = machine.heap().stat();
        let ending = match stat.phase {
            Phase::Idle => Some(Ending {
                event: number,
                at: u128::from(mutator) + u128::from(collector),
                blocks: BlockCounts::of(stat),
            }),
            _ => None,
        };
        CycleLine {
            number: self.number,
            is_asked: self.is_asked,
            first: self.first,
            at: u128::from(self.mutator) + u128::from(self.collector),
            quanta: self.quanta,
            greatest: self.greatest,
            mutator: mutator - self.mutator,
            collector: collector - self.collector,
            units: self.tally.units,
            counts: self.tally.counts,
            grey: self.tally.longest,
            before: self.before,
            ending,
        }
    }
}
