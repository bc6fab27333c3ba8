//! The heap of pages as it tells what it does.
//!
//! A command of a session tells where the parts of a new object were placed, and then what its barrier made grey. That
//! is read off the end of the grey list after the command, in the order of shading. A quantum tells its deeds to any
//! log. Both are otherwise as those that tell nothing.
ghost use Rattle.std.specs.Prelude.{◌≡◌, ◌<◌, Some, drop, length, map, slice_get};
ghost use Rattle.mh_model.specs.{declared.birth.TheConstants.LIFE, Classes.parts};
ghost use Rattle.mh_model.specs.Deeds.{Adds, new_deeds, command_deeds, quantum_deeds};
ghost use Rattle.mh_deeds.specs.Logs.{Told};
ghost use Rattle.mh_paged.specs.{Kept.{KeepsEachWorld, Steps}, Lawful.IsQuantum};
ghost use Rattle.mh_model.specs.declared.command.Command.TheVariants as command;
ghost use Rattle.mh_model.specs.declared.deed.Deed.TheVariants as deed;

use crate::kept::KeptHeap;
use crate::paged::PagedHeap;
use mh_deeds::log::{Deeds, Log};
use mh_laws::snapshots::commands_keep_the_snapshot;
use mh_model::command::Command;
use mh_model::cycle::Spent;
use mh_model::deed::Deed;
use mh_model::place::Place;
use mh_model::reply::Reply;
use mh_scan::scan::Scanner;

impl KeptHeap {
    /// How many blocks are grey.
    pub fn grey_count(&self) -> usize
        ensures { result ≡ length self.now.collector.grey }
    {
        self.cycle.grey_count()
    }

    /// The grey place of a number, counted from 0.
    pub fn grey_at(&self, index: usize) -> Place
        requires { index < length self.now.collector.grey }
        ensures { slice_get self.now.collector.grey index ≡ Some result }
    {
        self.cycle.grey_at(index)
    }

    /// Tells what became grey after so many were.
    pub fn tell_shaded(&self, before: usize, deeds: &mut Deeds)
        ensures { Adds deeds.old (map (λ place. deed.Shade place) (drop before self.now.collector.grey)) deeds.new }
    {
        for index in 0..self.cycle.grey_count().saturating_sub(before) {
            deeds.push(Deed::Shade {
                place: self.cycle.grey_at(before + index),
            });
        }
    }
}

/// The same of the heap as its sessions see it, with what its commands do.
impl PagedHeap {
    /// Runs a quantum, and tells its deeds.
    pub fn quantum_with_log<S: Scanner, L: Log>(&mut self, scanner: &mut S, log: &mut L) -> Spent
        requires { self.old.kept.collector.cycle < LIFE }
        ensures collects { IsQuantum self.old.kept result self.new.kept }
        ensures told { Told L.has log.old (quantum_deeds self.old.kept.config self.old.kept.collector) log.new }
    {
        let kept = &mut self.kept;
        let spent = kept.quantum(scanner, log);
        kept.lawful();
        spent
    }

    /// Performs a command of the session `who`. A new object tells where its parts were placed.
    fn answer_told(&mut self, who: u8, command: &Command, deeds: &mut Deeds) -> Reply
        requires { self.old.kept.next_birth < LIFE }
        ensures step { Steps self.old.kept who command.now result self.new.kept }
        ensures told { Adds deeds.old (new_deeds self.old.kept command.now result) deeds.new }
    {
        if let Command::New {
            slot,
            references,
            numbers,
        } = *command
        {
            let kept = &mut self.kept;
            let outcome = kept.make(who, slot, references, numbers, deeds);
            kept.lawful();
            return outcome.map_or_else(Reply::Refused, |()| Reply::Done);
        }
        self.perform(who, command)
    }

    /// Performs a command of the session `who`, and tells what it places and what its barriers shade.
    pub fn perform_told(&mut self, who: u8, command: &Command, deeds: &mut Deeds) -> Reply
        requires { self.old.kept.next_birth < LIFE }
        ensures step { Steps self.old.kept who command.now result self.new.kept }
        ensures keeps { KeepsEachWorld self.old.kept self.new.kept }
        ensures told { Adds deeds.old (command_deeds self.old.kept who command.now) deeds.new }
    {
        commands_keep_the_snapshot();
        let grey = self.kept.grey_count();
        let reply = self.answer_told(who, command, deeds);
        self.kept.tell_shaded(grey, deeds);
        reply
    }
}
