//! What has been seen of a run so far, event by event: its cycles, what they leave, and what each interval opens since the
//! first cycle started.
//!
//! How many intervals in a row count isn't known before the last cycle. So what each opens is kept.
ghost use Rattle.std.specs.Prelude.{◌≡◌, ◌+◌, ◌<◌, ◌≤◌, ◌++◌, ◌∷◌, [], ◌^◌, max, if◌then◌else◌, nat_lt, List, None, Some, OnOk, IfOk, IsSome, unwrap_or, map};
ghost use Rattle.mh_model.specs.{Classes.Part, Openings.{asked_parts, pages_of_parts}, Trace.lesser};
ghost use Rattle.mh_size_runs.specs.Auxiliary.{HasCounted, ended_between, quanta_between, GoesOn, HasSameCounts, HasSameCycles, Starts};

use crate::class_counts::ClassCounts;
use crate::sample::Sample;
use mh_classes::parts::{Parts, parts};
use mh_model::command::{Command, Event};
use mh_model::config::Config;
use mh_model::memory::NoMemory;
use std::alloc::Global;

/// The blocks of the object that an event asks for, if it asks for one that the rules allow.
pub(crate) fn asked_by(config: &Config, event: &Event) -> Option<Parts>
    ensures { unwrap_or result [] ≡ asked_parts config.now event.now }
{
    match *event {
        Event::Session(
            _,
            Command::New {
                references,
                numbers,
                ..
            },
        ) => parts(config.rules(), references, numbers),
        _ => None,
    }
}

/// The lesser of a number and another, if there is another.
fn lesser(number: u64, other: Option<u64>) -> u64
    ensures { result ≡ lesser number other }
{
    match other {
        None => number,
        Some(other) => number.min(other),
    }
}

/// What is seen of the cycles and the intervals of a run.
#[derive(Drop)]
pub(crate) struct Facts {
    pub(crate) cycles: u64,
    pub(crate) quanta: u64,
    pub(crate) left: Option<u64>,
    pub(crate) start: Option<u64>,
    pub(crate) opened: Vec<u64>,
}

/// What has been seen so far.
#[derive(Drop)]
pub(crate) struct Watched {
    /// How many cycles ended.
    pub(crate) cycles: u64,
    /// The most quanta that a cycle takes.
    pub(crate) quanta: u64,
    /// The fewest free pages as a cycle ended.
    pub(crate) left: Option<u64>,
    /// The free pages after the quantum that started the first cycle.
    pub(crate) start: Option<u64>,
    /// The pages that each interval opened which has ended since.
    opened: Vec<u64>,
    /// The blocks that the interval has asked for which runs since then.
    running: ClassCounts,
}

impl Watched {
    pub(crate) fn new(alloc: Global) -> Watched
        ensures cycles { (result.cycles ≡ 0) × (result.quanta ≡ 0) × (result.left ≡ None) × (result.start ≡ None) }
        ensures opened { result.opened.items ≡ [] }
        ensures running { HasCounted result.running [] }
        ensures total { result.running.total ≡ 0 }
    {
        Watched {
            cycles: 0,
            quanta: 0,
            left: None,
            start: None,
            opened: Vec::new(alloc),
            running: ClassCounts::new(),
        }
    }

    /// Notes what an event has changed of the cycles.
    pub(crate) fn note_cycle(&mut self, old: Sample, new: Sample)
        requires cycles { self.old.cycles < 2 ^ 62 }
        requires quanta { (old.quanta < 2 ^ 62) × (new.quanta < 2 ^ 62) }
        ensures cycles { self.new.cycles ≡ self.old.cycles + (if ended_between old.stage new.stage then 1 else 0) }
        ensures quanta { self.new.quanta ≡ max self.old.quanta (quanta_between old new) }
        ensures left { self.new.left ≡ (if ended_between old.stage new.stage then Some (lesser new.free self.old.left) else self.old.left) }
        ensures start { self.new.start ≡ self.old.start }
        ensures opened { self.new.opened ≡ self.old.opened }
        ensures running { self.new.running ≡ self.old.running }
    {
        if new.stage.ends_since(old.stage) {
            self.cycles += 1;
            self.left = Some(lesser(new.free, self.left));
        }
        self.quanta = self.quanta.max(new.quanta_since(old));
    }

    /// Ends the interval that runs, and begins the next.
    fn end_interval(&mut self) -> Result<(), NoMemory>
        ensures opened { OnOk result ((parts : List Part) → HasCounted self.old.running parts → self.new.opened.items ≡ self.old.opened.items ++ pages_of_parts parts ∷ []) }
        ensures running { OnOk result (HasCounted self.new.running []) }
        ensures total { OnOk result (self.new.running.total ≡ 0) }
        ensures rest { OnOk result (HasSameCycles self.old self.new) }
    {
        self.opened.push(self.running.pages())?;
        self.running = ClassCounts::new();
        Ok(())
    }

    /// Notes what an event asks for, since the first cycle started, and the end of an interval, or that the first cycle starts.
    pub(crate) fn note_interval(
        &mut self,
        asked: &Option<Parts>,
        old: Sample,
        new: Sample,
    ) -> Result<(), NoMemory>
        requires { self.old.running.total < 2 ^ 62 }
        ensures cycles { OnOk result (HasSameCounts self.old self.new) }
        ensures starts { OnOk result (self.old.start ≡ None → Starts old new self.old self.new) }
        ensures goes_on { OnOk result (IsSome self.old.start → GoesOn (unwrap_or asked.now []) (nat_lt old.quanta_run new.quanta_run) self.old self.new) }
        ensures total { OnOk result (self.new.running.total ≤ self.old.running.total + 3661) }
    {
        if self.start.is_none() {
            if new.stage.cycle > 0 {
                self.start = Some(new.free);
            }
            return Ok(());
        }
        self.running.ask_for(asked);
        if new.has_quantum_since(old) {
            self.end_interval()?;
        }
        Ok(())
    }

    /// What has been seen at the end of a run, with what the interval opened that still runs.
    pub(crate) fn into_facts(self) -> Result<Facts, NoMemory>
        ensures counts { IfOk result (λ facts. (facts.cycles ≡ self.cycles) × (facts.quanta ≡ self.quanta) × (facts.left ≡ self.left) × (facts.start ≡ self.start)) }
        ensures none { IfOk result (λ facts. self.start ≡ None → facts.opened.items ≡ self.opened.items) }
        ensures some { IfOk result (λ facts. IsSome self.start → (parts : List Part) → HasCounted self.running parts → facts.opened.items ≡ self.opened.items ++ pages_of_parts parts ∷ []) }
    {
        let mut opened = self.opened;
        if self.start.is_some() {
            opened.push(self.running.pages())?;
        }
        Ok(Facts {
            cycles: self.cycles,
            quanta: self.quanta,
            left: self.left,
            start: self.start,
            opened,
        })
    }
}
