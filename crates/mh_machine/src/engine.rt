//! What events change: the heap, the units since the last quantum, and the trace. Its calls ask that no count is close
//! to 2^62 (`IsShort`). The machine around it counts events, from which a law gives that. Room in the trace is made
//! before anything changes.
//!
//! Commands and quanta are done by a `Executor`. What that was told is the model's account of the event, and an event that
//! isn't done leaves it as it was.
ghost use Rattle.std.specs.Prelude.{◌≡◌, ℕ, ◌+◌, ◌<◌, ◌≤◌, ◌==◌, IfOk, OnOk, OnErr, Some, length};
ghost use Rattle.mh_model.specs.{declared.birth.TheConstants.LIFE, Classes.parts, World.says};
ghost use Rattle.mh_model.specs.Deeds.{account_of, command_deeds, ran_by, ran_if};
ghost use Rattle.mh_model.specs.Machine.{first_machine, command_units, quantum_run, is_quantum_due, with_due_quantum, command_step, control_step, half_step, event_step};
ghost use Rattle.mh_machine.specs.Auxiliary.{machine_of, IsShort, AddsRan, command_alone, nothing};
ghost use Rattle.mh_machine.specs.Running.{MayAskForMemory};
ghost use Rattle.mh_model.specs.declared.command.Command.TheVariants as commands;
ghost use Rattle.mh_model.specs.declared.command.Control.TheVariants as controls;
ghost use Rattle.mh_model.specs.declared.command.Event.TheVariants as events;
ghost use Rattle.mh_model.specs.declared.reply.Reply.TheVariants as replies;

use crate::executor::Executor;
use mh_classes::parts::parts;
use mh_model::command::{Command, Control, Event};
use mh_model::config::{Config, Rules};
use mh_model::cycle::Spent;
use mh_model::memory::NoMemory;
use mh_model::reply::Reply;
use mh_paged::paged::PagedHeap;
use mh_report::report::report;
use mh_report::trace::Trace;
use std::alloc::Global;

/// The part of the machine that events change.
#[derive(Drop)]
pub(crate) struct Engine {
    pub(crate) heap: PagedHeap,
    units: u64,
    pub(crate) trace: Trace,
}

/// How many blocks an object of so many fields has.
fn block_count(references: u32, numbers: u32) -> u64
    requires { references + numbers ≤ 216000 }
    ensures { result ≡ length (parts references numbers) }
{
    parts(Rules::Second, references, numbers).map_or(1, |all| all.count() as u64)
}

/// How many units of the mutator a command with its reply is.
fn units_of(config: &Config, command: &Command, reply: &Reply) -> u64
    requires { (slot references numbers : ℕ) → command.now ≡ commands.New slot references numbers → reply.now ≡ replies.Done → references + numbers ≤ 216000 }
    ensures { result ≡ command_units config.now command.now reply.now }
{
    match (config.rules(), command, reply) {
        (
            Rules::Second,
            Command::New {
                references,
                numbers,
                ..
            },
            Reply::Done,
        ) => block_count(*references, *numbers),
        _ => 1,
    }
}

impl Engine {
    pub(crate) fn open(alloc: Global, config: Config) -> Result<Engine, NoMemory>
        ensures machine { IfOk result (λ engine. machine_of engine ≡ first_machine config) }
        ensures room { IfOk result (λ engine. engine.trace.room ≡ 0) }
        ensures capacity { IfOk result (λ engine. engine.trace.capacity ≡ 0) }
    {
        Ok(Engine {
            heap: PagedHeap::open(alloc, config)?,
            units: 0,
            trace: Trace::open(alloc),
        })
    }

    /// Runs a quantum.
    #[tactic(auto, unfolding(mh_model::specs::Machine::quantum_run))]
    fn quantum<P: Executor>(&mut self, executor: &mut P) -> Reply
        requires room { 0 < self.old.trace.room }
        requires short { IsShort (machine_of self.old) }
        ensures step { quantum_run (machine_of self.old) ≡ says result (machine_of self.new) }
        ensures room { self.old.trace.room ≤ self.new.trace.room + 1 }
        ensures capacity { self.new.trace.capacity ≡ self.old.trace.capacity }
        ensures told { AddsRan P.tells executor.old (Some (ran_by self.old.heap.kept)) executor.new }
    {
        let units = executor.quantum(&mut self.heap);
        self.trace.spent(units.0);
        self.units = 0;
        Reply::Spent {
            units,
            phase: self.heap.phase(),
        }
    }

    /// Performs a command.
    #[inline(always)]
    #[tactic(auto, unfolding(mh_model::specs::Machine::command_step))]
    fn command<P: Executor>(
        &mut self,
        config: &Config,
        who: u8,
        command: &Command,
        executor: &mut P,
    ) -> Reply
        requires config { config.now ≡ self.old.heap.kept.config }
        requires room { 1 < self.old.trace.room }
        requires short { IsShort (machine_of self.old) }
        requires half { IsShort (half_step (machine_of self.old) (events.Session who command.now)) }
        requires fresh { P.tells nothing executor.old }
        ensures step { command_step (machine_of self.old) who command.now ≡ says result (machine_of self.new) }
        ensures config { self.new.heap.kept.config ≡ self.old.heap.kept.config }
        ensures room { 0 < self.new.trace.room }
        ensures taken { self.old.trace.room ≤ self.new.trace.room + 1 }
        ensures capacity { self.new.trace.capacity ≡ self.old.trace.capacity }
        ensures told { P.tells (command_alone (command_deeds self.old.heap.kept who command.now)) executor.new }
    {
        let reply = executor.perform(&mut self.heap, who, command);
        let units = units_of(config, command, &reply);
        self.trace.mutator(units);
        self.units += units;
        reply
    }

    /// Runs the quantum that is due, if one is.
    #[inline(always)]
    fn run_due<P: Executor>(&mut self, config: &Config, executor: &mut P)
        requires config { config.now ≡ self.old.heap.kept.config }
        requires room { 0 < self.old.trace.room }
        requires short { IsShort (machine_of self.old) }
        ensures step { machine_of self.new ≡ with_due_quantum (machine_of self.old) }
        ensures room { self.old.trace.room ≤ self.new.trace.room + 1 }
        ensures capacity { self.new.trace.capacity ≡ self.old.trace.capacity }
        ensures told { AddsRan P.tells executor.old (ran_if (is_quantum_due (machine_of self.old)) self.old.heap.kept) executor.new }
    {
        let every = u64::from(config.every);
        if every > 0 && self.units >= every {
            let _ = self.quantum(executor);
        }
    }

    /// Performs a command of the session `who`, and then runs the quantum that it makes due.
    #[inline(always)]
    #[tactic(auto, unfolding(mh_model::specs::Machine::event_step, mh_model::specs::Deeds::account_of))]
    fn session<P: Executor>(
        &mut self,
        config: &Config,
        who: u8,
        command: &Command,
        executor: &mut P,
    ) -> Result<Reply, NoMemory>
        requires config { config.now ≡ self.old.heap.kept.config }
        requires short { IsShort (machine_of self.old) }
        requires half { IsShort (half_step (machine_of self.old) (events.Session who command.now)) }
        requires fresh { P.tells nothing executor.old }
        ensures step { IfOk result (λ reply. event_step (machine_of self.old) (events.Session who command.now) ≡ says reply (machine_of self.new)) }
        ensures room { OnOk result (self.old.trace.room ≤ self.new.trace.room + 2) }
        ensures capacity { OnOk result (self.old.trace.capacity ≤ self.new.trace.capacity) }
        ensures err { OnErr result (self.new ≡ self.old) }
        ensures memory { OnErr result (self.old.trace.room < 2) }
        ensures told { IfOk result (λ reply. P.tells (account_of (machine_of self.old) (events.Session who command.now)) executor.new) }
        ensures quiet { OnErr result (executor.new ≡ executor.old) }
    {
        self.trace.room()?;
        let reply = self.command(config, who, command, executor);
        self.run_due(config, executor);
        Ok(reply)
    }

    /// Runs a quantum on request, if the scheduler runs none.
    #[inline(always)]
    #[tactic(auto, unfolding(mh_model::specs::Machine::control_step))]
    fn quantum_by_hand<P: Executor>(&mut self, config: &Config, executor: &mut P) -> Reply
        requires config { config.now ≡ self.old.heap.kept.config }
        requires room { 0 < self.old.trace.room }
        requires short { IsShort (machine_of self.old) }
        ensures step { control_step (machine_of self.old) controls.Quantum ≡ says result (machine_of self.new) }
        ensures room { self.old.trace.room ≤ self.new.trace.room + 1 }
        ensures capacity { self.new.trace.capacity ≡ self.old.trace.capacity }
        ensures told { AddsRan P.tells executor.old (ran_if (self.old.heap.kept.config.every == 0) self.old.heap.kept) executor.new }
    {
        if config.every == 0 {
            return self.quantum(executor);
        }
        Reply::Spent {
            units: Spent(0),
            phase: self.heap.phase(),
        }
    }

    /// Does a control.
    #[inline(always)]
    #[tactic(auto, unfolding(mh_model::specs::Machine::control_step, mh_model::specs::Deeds::account_of))]
    fn control<P: Executor>(
        &mut self,
        alloc: Global,
        config: &Config,
        control: Control,
        executor: &mut P,
    ) -> Result<Reply, NoMemory>
        requires config { config.now ≡ self.old.heap.kept.config }
        requires short { IsShort (machine_of self.old) }
        requires fresh { P.tells nothing executor.old }
        ensures step { IfOk result (λ reply. control_step (machine_of self.old) control ≡ says reply (machine_of self.new)) }
        ensures room { OnOk result (self.old.trace.room ≤ self.new.trace.room + 2) }
        ensures capacity { OnOk result (self.old.trace.capacity ≤ self.new.trace.capacity) }
        ensures err { OnErr result (self.new ≡ self.old) }
        ensures memory { OnErr result (MayAskForMemory self.old.trace.room (events.Control control)) }
        ensures told { IfOk result (λ reply. P.tells (account_of (machine_of self.old) (events.Control control)) executor.new) }
        ensures quiet { OnErr result (executor.new ≡ executor.old) }
    {
        let reply = match control {
            Control::Quantum => {
                self.trace.room()?;
                self.quantum_by_hand(config, executor)
            }
            Control::Start => {
                self.heap.start();
                Reply::Done
            }
            Control::Stat => Reply::Stat(self.heap.stat()),
            Control::Dump => Reply::Dump(self.heap.dump(alloc)?),
            Control::Left => Reply::Left(self.heap.quanta_left()),
            Control::Report { window } => Reply::Report(report(&mut self.trace, config, window)),
        };
        Ok(reply)
    }

    /// Does an event with the quantum that it makes due.
    #[inline(always)]
    #[tactic(auto, unfolding(mh_model::specs::Machine::event_step, mh_model::specs::Deeds::account_of))]
    pub(crate) fn event<P: Executor>(
        &mut self,
        alloc: Global,
        config: &Config,
        event: Event,
        executor: &mut P,
    ) -> Result<Reply, NoMemory>
        requires config { config.now ≡ self.old.heap.kept.config }
        requires short { IsShort (machine_of self.old) }
        requires half { IsShort (half_step (machine_of self.old) event) }
        requires fresh { P.tells nothing executor.old }
        ensures step { IfOk result (λ reply. event_step (machine_of self.old) event ≡ says reply (machine_of self.new)) }
        ensures room { OnOk result (self.old.trace.room ≤ self.new.trace.room + 2) }
        ensures capacity { OnOk result (self.old.trace.capacity ≤ self.new.trace.capacity) }
        ensures err { OnErr result (self.new ≡ self.old) }
        ensures memory { OnErr result (MayAskForMemory self.old.trace.room event) }
        ensures told { IfOk result (λ reply. P.tells (account_of (machine_of self.old) event) executor.new) }
        ensures quiet { OnErr result (executor.new ≡ executor.old) }
    {
        match event {
            Event::Session(who, command) => self.session(config, who, &command, executor),
            Event::Control(control) => self.control(alloc, config, control, executor),
        }
    }
}
