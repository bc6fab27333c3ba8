//! Entries of either version, as they are judged.
//!
//! An entry is right if it is what the machine makes of its event: its reply is the machine's, and if it states its
//! units, they are those that the event added. That is all in which the versions differ for a judge.
ghost use Rattle.std.specs.Prelude.{◌≡◌, List, IfOk, OnErr};
ghost use Rattle.mh_model.specs.{declared.command.Event.Event, declared.config.Config.Config, History.IsLegal};
ghost use Rattle.mh_model.specs.HistoryTexts.{IsLegalRecord};
ghost use Rattle.mh_run_laws.proofs.runs.RunsByEvents.{replies_more};
ghost use Rattle.mh_machine.specs.{Judging.{HasItsReply, IsEventRule, IsMeasured, IsTried}, Running.MayAskForMemory};
ghost use Rattle.mh_machine.specs.Rules.{legal_rule, record_rule};
ghost use Rattle.mh_model.specs.Machine as model;

use crate::machine::Machine;
use crate::same::is_same;
use mh_model::command::Event;
use mh_model::history::{Entry, Measured};
use mh_model::memory::NoMemory;
use mh_scan::scan::OneScan;

/// An entry of the histories of some version.
pub trait JudgedEntry {
    ghost event_of: { Self → Event };

    // that it is what the machine makes of its event
    ghost fits: { model.Machine → Self → Type 0 };

    // which lists of them are histories under a configuration
    ghost lawful: { Config → List Self → Type 0 };

    fn event(&self) -> Event
        ensures { result ≡ event_of self.now };

    /// Does its event, unless a history of 1,000,000 was done, and reports whether it is what the machine made of it.
    fn try_on(&self, machine: &mut Machine, scanner: &mut OneScan) -> Result<bool, NoMemory>
        ensures tried { IfOk result (IsTried (fits machine.old.machine self.now) machine.old (event_of self.now) machine.new) }
        ensures stopped { OnErr result (machine.new ≡ machine.old) }
        ensures memory { OnErr result (MayAskForMemory machine.old.room (event_of self.now)) };

    ghost rule: { (config : Config) → IsEventRule config event_of fits (lawful config) };
}

impl JudgedEntry for Entry {
    ghost event_of = { λ entry. entry.event };

    ghost fits = { HasItsReply };

    ghost lawful = { IsLegal };

    fn event(&self) -> Event {
        self.event
    }

    fn try_on(&self, machine: &mut Machine, scanner: &mut OneScan) -> Result<bool, NoMemory> {
        if !machine.has_history_room() {
            return Ok(false);
        }
        let reply = machine.step_in_room(self.event, scanner)?;
        Ok(is_same(&self.reply, &reply))
    }

    ghost rule = { legal_rule replies_more };
}

impl JudgedEntry for Measured {
    ghost event_of = { λ measured. measured.entry.event };

    ghost fits = { IsMeasured };

    ghost lawful = { IsLegalRecord };

    fn event(&self) -> Event {
        self.entry.event
    }

    fn try_on(&self, machine: &mut Machine, scanner: &mut OneScan) -> Result<bool, NoMemory> {
        let mutator = machine.trace().mutator_count();
        let collector = machine.trace().collector_count();
        let answered = self.entry.try_on(machine, scanner)?;
        let trace = machine.trace();
        Ok(
            answered
                && self.mutator == trace.mutator_count().saturating_sub(mutator)
                && self.collector == trace.collector_count().saturating_sub(collector),
        )
    }

    ghost rule = { record_rule };
}
