//! The heap of pages as its sessions see it.
//!
//! It is a type of its own because the laws of `Heap` speak of views and those of `KeptHeap` of pages: it keeps at
//! hand, as a ghost, what the laws say of the view of its pages.
//!
//! It meets the laws of `Heap` on its view, and never answers a command that there is no memory. A command takes none,
//! and keeps each world that is taken as the snapshot of the running cycle (`keeps`). A quantum is that of `KeptHeap`,
//! as what `Heap::quantum` collects. `start` asks for a cycle, and keeps each such world too. What is read of `KeptHeap`
//! is read here, but for its root slots.
ghost use Rattle.std.specs.Prelude.{◌≡◌, ◌<◌, true, IfOk};
ghost use Rattle.mh_model.specs.{declared.birth.TheConstants.LIFE, Pages.free_pages};
ghost use Rattle.mh_model.specs.{Machine.{dump_pages, quanta_left, stat_on}, Mutator.first_heap};
ghost use Rattle.mh_paged.specs.{Kept.{KeepsEachWorld, Steps}, Lawful.IsLawful};

use crate::kept::KeptHeap;
use mh_deeds::log::NoLog;
use mh_heap::heap::Heap;
use mh_heap::perform::perform;
use mh_laws::snapshots::commands_keep_the_snapshot;
use mh_model::command::Command;
use mh_model::config::Config;
use mh_model::cycle::{Phase, Spent};
use mh_model::dump::Dump;
use mh_model::memory::NoMemory;
use mh_model::reply::{Refusal, Reply};
use mh_model::shape::Shape;
use mh_model::stat::Stat;
use mh_scan::scan::Scanner;
use std::alloc::Global;

/// The heap of pages, with what the laws say of it at each moment.
#[derive(Drop)]
pub struct PagedHeap {
    pub kept: KeptHeap,
    ghost told: { IsLawful kept },
}

impl PagedHeap {
    /// The heap of a configuration, with all pages free and no cycle running.
    pub fn open(alloc: Global, config: Config) -> Result<PagedHeap, NoMemory>
        ensures { IfOk result (λ heap. heap.kept ≡ first_heap config) }
    {
        let kept = KeptHeap::open(alloc, config)?;
        kept.lawful();
        Ok(PagedHeap { kept })
    }

    /// Asks for a cycle, which the next quantum starts that finds none running.
    pub fn start(&mut self)
        ensures after { self.new.kept ≡ record (self.old.kept) { collector = record (self.old.kept.collector) { is_asked = true } } }
        ensures keeps { KeepsEachWorld self.old.kept self.new.kept }
    {
        let kept = &mut self.kept;
        kept.start();
        kept.lawful();
    }

    /// Performs a command of the session `who`. It takes no memory.
    // It has a second caller, which tells what commands do; the first runs every command of a script.
    #[inline(always)]
    pub fn perform(&mut self, who: u8, command: &Command) -> Reply
        requires { self.old.kept.next_birth < LIFE }
        ensures step { Steps self.old.kept who command.now result self.new.kept }
        ensures keeps { KeepsEachWorld self.old.kept self.new.kept }
    {
        commands_keep_the_snapshot();
        let Ok(reply) = perform(self, who, command) else {
            unreachable!()
        };
        reply
    }

    /// What the collector is at.
    pub fn phase(&self) -> Phase
        ensures { result ≡ self.now.kept.collector.phase }
    {
        self.kept.phase()
    }

    /// How many quanta the running cycle still has at most.
    pub fn quanta_left(&self) -> u64
        ensures { result ≡ quanta_left self.now.kept.config self.now.kept.collector }
    {
        self.kept.quanta_left()
    }

    /// How many pages are free.
    pub fn free_pages(&self) -> u64
        ensures { result ≡ free_pages self.now.kept.collector.table }
    {
        self.kept.free_pages()
    }

    /// The free pages, the blocks that aren't forwarders, the forwarders, the phase and the cycles started.
    pub fn stat(&self) -> Stat
        ensures { result ≡ stat_on self.now.kept.collector }
    {
        self.kept.stat()
    }

    /// Each page in use with its blocks.
    pub fn dump(&self, alloc: Global) -> Result<Dump, NoMemory>
        ensures { IfOk result (λ dump. dump ≡ dump_pages 0 self.now.kept.collector.table) }
    {
        self.kept.dump(alloc)
    }
}

impl Heap for PagedHeap {
    ghost use Rattle.mh_paged.specs.{Lawful.{IsQuantum, showing}, Telling.{commands_shown, quanta_shown}};

    ghost shown = { λ heap. showing heap.kept };

    ghost performs = { λ old who command reply new. Steps old.kept who command reply new.kept };

    ghost lacks = { λ heap. ⊥ };

    ghost collects = { λ old spent new. IsQuantum old.kept spent new.kept };

    ghost closed = { λ heap. heap.told.closed };

    ghost shows_commands = { λ old new who command reply steps. commands_shown old.kept new.kept old.told who command reply steps };

    ghost shows_quanta = { λ old new spent is. quanta_shown old.kept new.kept spent old.told is };

    fn make(
        &mut self,
        who: u8,
        slot: u32,
        references: u32,
        numbers: u32,
    ) -> Result<Result<(), Refusal>, NoMemory> {
        let kept = &mut self.kept;
        let outcome = kept.make(who, slot, references, numbers, &mut NoLog);
        kept.lawful();
        Ok(outcome)
    }

    fn get(&mut self, who: u8, slot: u32, source: u32, field: u32) -> Result<(), Refusal> {
        let kept = &mut self.kept;
        let outcome = kept.get(who, slot, source, field);
        kept.lawful();
        outcome
    }

    fn put(&mut self, who: u8, slot: u32, field: u32, value: u32) -> Result<(), Refusal> {
        let kept = &mut self.kept;
        let outcome = kept.put(who, slot, field, value);
        kept.lawful();
        outcome
    }

    fn copy(&mut self, who: u8, slot: u32, source: u32) -> Result<(), Refusal> {
        let kept = &mut self.kept;
        let outcome = kept.copy(who, slot, source);
        kept.lawful();
        outcome
    }

    fn clear(&mut self, who: u8, slot: u32) -> Result<(), Refusal> {
        let kept = &mut self.kept;
        let outcome = kept.clear(who, slot);
        kept.lawful();
        outcome
    }

    fn read(&self, who: u8, slot: u32, index: u32) -> Result<u64, Refusal> {
        self.kept.read(who, slot, index)
    }

    fn write(&mut self, who: u8, slot: u32, index: u32, number: u64) -> Result<(), Refusal> {
        let kept = &mut self.kept;
        let outcome = kept.write(who, slot, index, number);
        kept.lawful();
        outcome
    }

    fn same(&self, who: u8, left: u32, right: u32) -> Result<bool, Refusal> {
        self.kept.same(who, left, right)
    }

    fn shape(&self, who: u8, slot: u32) -> Result<Shape, Refusal> {
        self.kept.shape(who, slot)
    }

    fn post(&mut self, who: u8, board: u32, slot: u32) -> Result<(), Refusal> {
        let kept = &mut self.kept;
        let outcome = kept.post(who, board, slot);
        kept.lawful();
        outcome
    }

    fn take(&mut self, who: u8, slot: u32, board: u32) -> Result<(), Refusal> {
        let kept = &mut self.kept;
        let outcome = kept.take(who, slot, board);
        kept.lawful();
        outcome
    }

    fn end(&mut self, who: u8) -> Result<(), Refusal> {
        let kept = &mut self.kept;
        let outcome = kept.end(who);
        kept.lawful();
        outcome
    }

    fn quantum<S: Scanner>(&mut self, scanner: &mut S) -> Spent {
        self.quantum_with_log(scanner, &mut NoLog)
    }

    fn births(&self) -> u64 {
        self.kept.births()
    }

    fn cycle_number(&self) -> u64 {
        self.kept.cycle_number()
    }

    fn limit(&self) -> u64 {
        self.kept.limit()
    }
}
