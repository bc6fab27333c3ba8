//! What is known of a run between two events: the cycle that runs, whether one is asked for, and what is in the heap.
ghost use Rattle.std.specs.{Prelude.{◌≡◌, ◌+◌, ◌-◌, ◌≤◌, ◌<◌, ◌^◌, ◌++◌, suc, IfSome, OnOk}, List.sum_by};
ghost use Rattle.std.specs.String.{string_bytes};
ghost use Rattle.mh_deeds.specs.Accounts.{account_in};
ghost use Rattle.mh_model.specs.{Deeds.{account_of, units_of}, Limits.most_entries, Machine.{event_step, stat_on}};
ghost use Rattle.mh_model.specs.Trace.{collector_count};
ghost use Rattle.mh_tell_laws.specs.Cycles.{opens, ran_deeds};
ghost use Rattle.mh_tell_cycles.specs.Lines.{closed_text, kept_text, told_text};
ghost use Rattle.mh_tell_cycles.specs.Tallies.{IsWithin, Watches, asked_after, first_watch, spent_by, watch_closed, watch_next, watch_noted};

use crate::line::push_line;
use crate::underway::Underway;
use mh_deeds::account::Account;
use mh_machine::machine::Machine;
use mh_model::command::{Control, Event};
use mh_model::cycle::Phase;
use mh_model::memory::NoMemory;
use mh_model::stat::Stat;
use mh_tell_steps::run::answer_told;

/// What is known between two events.
#[derive(Clone, Copy)]
pub struct Watch {
    /// The cycle that runs, if one does.
    pub cycle: Option<Underway>,
    /// Whether a cycle is asked for.
    pub is_asked: bool,
    /// What is in the heap.
    pub stat: Stat,
}

/// Whether a cycle is asked for after an event.
fn asked_after(was_asked: bool, event: Event, starts: bool) -> bool
    ensures { result ≡ asked_after was_asked event starts }
{
    match event {
        Event::Control(Control::Start) => true,
        _ => was_asked && !starts,
    }
}

impl Watch {
    /// Before the first event.
    pub fn new(machine: &Machine) -> Watch
        ensures { result ≡ first_watch (stat_on machine.now.machine.heap.collector) }
    {
        Watch {
            cycle: None,
            is_asked: false,
            stat: machine.heap().stat(),
        }
    }

    /// Notes an event of this number, which left this machine and did this.
    fn note(&mut self, number: u64, event: Event, machine: &Machine, account: &Account)
        requires few { number ≤ most_entries }
        requires within { IfSome self.old.cycle (IsWithin (number - 1) machine.now.machine) }
        requires later { 0 < number }
        requires spent { spent_by (account_in account.now).quantum ≤ collector_count machine.now.machine.trace.letters }
        requires opened { sum_by opens account.now.command.deeds ≤ self.old.stat.free }
        requires commands { units_of account.now.command.deeds ≡ 0 }
        requires units { units_of (ran_deeds (account_in account.now).quantum) < 2 ^ 64 }
        ensures noted { self.new ≡ watch_noted number self.old event machine.now.machine (account_in account.now) }
        ensures within { IfSome self.new.cycle (IsWithin number machine.now.machine) }
    {
        let stat = machine.heap().stat();
        let starts = stat.cycle != self.stat.cycle;
        let cycle = match self.cycle {
            Some(mut cycle) => {
                cycle.take(account);
                Some(cycle)
            }
            None if starts => Some(Underway::begun(number, self, machine, account)),
            None => None,
        };
        *self = Watch {
            cycle,
            is_asked: asked_after(self.is_asked, event, starts),
            stat,
        };
    }

    /// Adds the line of the cycle that is kept, if one is.
    pub fn push_cycle(
        &self,
        number: u64,
        machine: &Machine,
        text: &mut String,
    ) -> Result<(), NoMemory>
        requires { IfSome self.now.cycle (IsWithin number machine.now.machine) }
        ensures { OnOk result (string_bytes text.new ≡ string_bytes text.old ++ kept_text self.now.cycle number machine.now.machine) }
    {
        match self.cycle {
            Some(cycle) => push_line(text, &cycle.line(number, machine)),
            None => Ok(()),
        }
    }

    /// Adds the line of a cycle that has ended, and forgets it.
    fn close(&mut self, number: u64, machine: &Machine, text: &mut String) -> Result<(), NoMemory>
        requires { IfSome self.old.cycle (IsWithin number machine.now.machine) }
        ensures closed { OnOk result (self.new ≡ watch_closed self.old) }
        ensures text { OnOk result (string_bytes text.new ≡ string_bytes text.old ++ closed_text number self.old machine.now.machine) }
    {
        if let Phase::Idle = self.stat.phase {
            self.push_cycle(number, machine, text)?;
            self.cycle = None;
        }
        Ok(())
    }

    /// Does an event, and adds the line of a cycle that it ends.
    pub fn tell(
        &mut self,
        machine: &mut Machine,
        event: Event,
        account: &mut Account,
        text: &mut String,
    ) -> Result<(), NoMemory>
        requires room { machine.old.done < most_entries }
        requires watches { Watches machine.old.done machine.old.machine self.old }
        ensures machine { OnOk result (machine.new.machine ≡ (event_step machine.old.machine event).state) }
        ensures count { OnOk result (machine.new.done ≡ suc machine.old.done) }
        ensures text { OnOk result (string_bytes text.new ≡ string_bytes text.old ++ told_text (suc machine.old.done) self.old machine.old.machine event) }
        ensures next { OnOk result (self.new ≡ watch_next (suc machine.old.done) self.old machine.old.machine event) }
        ensures watches { OnOk result (Watches machine.new.done machine.new.machine self.new) }
    {
        answer_told(machine, event, account)?;
        let number = machine.done();
        self.note(number, event, machine, account);
        self.close(number, machine, text)
    }
}
