//! A heap that keeps what its sessions may reach.
//!
//! It opens as the model's first heap, and after every call it is the model's, with its collector. A quantum is the
//! model's and spends at most what is configured, whatever the scanner answers. It keeps the snapshot of a running
//! cycle and ends a cycle with exactly what that reached or was born since (`keeps`). It starts a cycle with what is
//! reachable in the heap's view (`starts`). It leaves no forwarders but those that it made (`forwarders`).
//!
//! `start` asks for a cycle, and keeps each snapshot (`keeps`). These are read: free pages, live blocks, forwarders,
//! phase and cycles; the table and its dump; the root slots, the cursor and the grey list; births, the quanta left, the
//! limit of a quantum.
//!
//! The heap has a `drop` of its own, which takes it apart and does nothing else. So whoever owns one proves one call
//! when it is dropped. A derived drop is proved table by table in the proof of each owner, at each of its ends: some 25
//! steps for a heap, and 15 to 20 s of a processor.
ghost use Rattle.std.specs.Prelude.{◌≡◌, ◌<◌, [], ◌∷◌, true, false, get_or, nat_le, nat_lt, ◌+◌, ◌≤◌, IfOk, MatchResult, Some, None};
ghost use Rattle.mh_model.specs.{World.most_fields, Classes.parts, Pages.free_pages, declared.birth.TheConstants.LIFE};
ghost use Rattle.mh_model.specs.{Collector.quantum, Deeds.quantum_deeds, Machine.{dump_pages, quanta_left, stat_on}};
ghost use Rattle.mh_model.specs.{Mutator.{first_heap, root_at, shape_at}, Invariant.IsObjectAt};
ghost use Rattle.mh_model.specs.declared.reply.Refusal.TheVariants.{Null, NoField, TooLarge, Ended, TooManySessions};
ghost use Rattle.mh_model.specs.Limits.{root_slots};
ghost use Rattle.mh_deeds.specs.Logs.{Told};
ghost use Rattle.mh_laws.specs.Forwarders.{MakesItsForwarders};
ghost use Rattle.mh_cycle.specs.Snapshots.{ContinuesEach};
ghost use Rattle.mh_heap.specs.Checks.{tested};
ghost use Rattle.mh_paged.specs.{Kept.{KeepsEachWorld, StartsFromItsView}, Lawful.IsLawful};

use crate::lent::{dump_table, forwarder_count, free_pages, live_count, root, shape_of};
use mh_blocks::blocks::Blocks;
use mh_classes::parts::{Parts, parts};
use mh_cycle::cycle::Cycle;
use mh_deeds::log::Log;
use mh_groups::group::PartPlaces;
use mh_laws::bounds::{collectors_stay_in_bounds, quantum_starts_one_cycle_at_most};
use mh_laws::commands::command_keeps_the_course;
use mh_laws::costs::quantum_keeps_its_limit;
use mh_laws::fields::slots_hold_objects;
use mh_laws::snapshots::{collectors_stay_steady, heaps_stay_kept};
use mh_model::config::Config;
use mh_model::cycle::{Phase, Spent};
use mh_model::dump::Dump;
use mh_model::limits::{ROOT_SLOTS, SESSIONS};
use mh_model::memory::NoMemory;
use mh_model::place::Place;
use mh_model::reply::Refusal;
use mh_model::shape::Shape;
use mh_model::stat::Stat;
use mh_run_laws::following::commands_follow;
use mh_run_laws::showing::{
    kept_views_agree_with_themselves, kept_views_are_closed, quanta_keep_the_view,
};
use mh_scan::scan::Scanner;
use std::alloc::Global;
use std::marker::Model;
/// The heap of pages with its collector and its sessions.
pub struct KeptHeap {
    pub(crate) cycle: Cycle,
    pub(crate) next_birth: u64,
    pub(crate) ended: [bool; SESSIONS],
    pub(crate) places: PartPlaces,
}

// An owner proves one call if it drops the heap, and not each of its tables.
impl Drop for KeptHeap {
    fn drop(self) {
        let KeptHeap {
            cycle: _,
            next_birth: _,
            ended: _,
            places: _,
        } = self;
    }
}

impl Model for KeptHeap {
    ghost use Rattle.mh_model.specs.Mutator.{HeapState};
    ghost use Rattle.mh_paged.specs.Auxiliary.{heap_of, IsHeap};

    ghost Value = { HeapState };

    ghost view = { λ heap. heap_of heap.cycle heap.next_birth heap.ended };

    ghost invariant = { λ heap. IsHeap heap.cycle heap.next_birth heap.ended };
}

/// An object that a root holds.
#[derive(Clone, Copy)]
pub(crate) struct Found {
    pub(crate) place: Place,
    pub(crate) shape: Shape,
}

/// The parts of an object of so many references and numbers.
pub(crate) fn parts_of(config: Config, references: u32, numbers: u32) -> Result<Parts, Refusal>
    ensures { result ≡ tested ((nat_lt (most_fields config) (references + numbers), TooLarge) ∷ []) (parts references numbers) }
{
    match parts(config.rules(), references, numbers) {
        None => Err(Refusal::TooLarge),
        Some(all) => Ok(all),
    }
}

/// A field below a count.
pub(crate) fn field_below(count: u32, field: u32) -> Result<usize, Refusal>
    ensures step { result ≡ tested ((nat_le count field, NoField) ∷ []) field }
    ensures within { IfOk result (λ field. field < count) }
{
    if field >= count {
        return Err(Refusal::NoField);
    }
    Ok(field as usize)
}

impl KeptHeap {
    /// The heap of a configuration, with all pages free and no cycle running. No other call takes memory but of the
    /// scanner and for a dump.
    pub fn open(alloc: Global, config: Config) -> Result<KeptHeap, NoMemory>
        ensures { IfOk result (λ heap. heap ≡ first_heap config) }
    {
        heaps_stay_kept();
        collectors_stay_in_bounds();
        Ok(KeptHeap {
            cycle: Cycle::open(alloc, config)?,
            next_birth: 0,
            ended: [false; SESSIONS],
            places: PartPlaces::open(alloc)?,
        })
    }

    /// Asks for a cycle, which the next quantum starts that finds none running.
    pub fn start(&mut self)
        ensures after { self.new ≡ record (self.old) { collector = record (self.old.collector) { is_asked = true } } }
        ensures keeps { KeepsEachWorld self.old self.new }
    {
        heaps_stay_kept();
        collectors_stay_in_bounds();
        self.cycle.start();
    }

    /// Runs a quantum, tells its deeds, and answers the units that it spent. Whatever the scanner answers, the quantum is
    /// the same.
    pub fn quantum<S: Scanner, L: Log>(&mut self, scanner: &mut S, log: &mut L) -> Spent
        requires { self.old.collector.cycle < LIFE }
        ensures spent { result ≡ (quantum self.old.config self.old.collector).units }
        ensures after { self.new ≡ record (self.old) { collector = (quantum self.old.config self.old.collector).collector } }
        ensures limit { result ≤ self.old.config.quantum }
        ensures keeps { ContinuesEach self.old.collector self.new.collector }
        ensures starts { StartsFromItsView self.old self.new }
        ensures forwarders { MakesItsForwarders self.old.config self.old.collector self.new.collector }
        ensures told { Told L.has log.old (quantum_deeds self.old.config self.old.collector) log.new }
    {
        heaps_stay_kept();
        collectors_stay_in_bounds();
        collectors_stay_steady();
        self.cycle.quantum(scanner, log)
    }

    /// What the collector is at.
    pub fn phase(&self) -> Phase
        ensures { result ≡ self.now.collector.phase }
    {
        self.cycle.phase()
    }

    /// What the root slots hold, in order.
    pub fn roots(&self) -> &[Option<Place>; ROOT_SLOTS]
        ensures { result.now ≡ self.now.collector.slots }
    {
        self.cycle.roots.slots()
    }

    /// The table of its blocks.
    pub fn blocks(&self) -> &Blocks
        ensures { result.now ≡ self.now.collector.table }
    {
        &self.cycle.blocks
    }

    /// While roots are scanned the number of the next slot, and while the table is swept or defragmented the next place.
    pub fn cursor(&self) -> usize
        ensures { result ≡ self.now.collector.cursor }
    {
        self.cycle.cursor()
    }

    /// Whether a cycle is asked for.
    pub fn is_asked(&self) -> bool
        ensures { result ≡ self.now.collector.is_asked }
    {
        self.cycle.is_asked()
    }

    /// How many cycles have started.
    pub fn cycle_number(&self) -> u64
        ensures { result ≡ self.now.collector.cycle }
    {
        self.cycle.cycle_number()
    }

    /// How many quanta the running cycle still has at most.
    pub fn quanta_left(&self) -> u64
        ensures { result ≡ quanta_left self.now.config self.now.collector }
    {
        self.cycle.quanta_left()
    }

    /// How many pages are free.
    pub fn free_pages(&self) -> u64
        ensures { result ≡ free_pages self.now.collector.table }
    {
        free_pages(&self.cycle) as u64
    }

    /// The free pages, the blocks that aren't forwarders, the forwarders, the phase and the cycles started.
    pub fn stat(&self) -> Stat
        ensures { result ≡ stat_on self.now.collector }
    {
        Stat {
            free: free_pages(&self.cycle) as u64,
            live: live_count(&self.cycle),
            old: forwarder_count(&self.cycle),
            phase: self.cycle.phase(),
            cycle: self.cycle.cycle_number(),
        }
    }

    /// Each page in use with its blocks.
    pub fn dump(&self, alloc: Global) -> Result<Dump, NoMemory>
        ensures { IfOk result (λ dump. dump ≡ dump_pages 0 self.now.collector.table) }
    {
        dump_table(alloc, &self.cycle)
    }

    /// How many objects were made.
    pub fn births(&self) -> u64
        ensures { result ≡ self.now.next_birth }
    {
        self.next_birth
    }

    /// The most units that a quantum spends.
    pub fn limit(&self) -> u64
        ensures { result ≡ self.now.config.quantum }
    {
        u64::from(self.cycle.config().quantum)
    }

    /// What the laws say of this heap. It does nothing when it runs.
    pub(crate) fn lawful(&self)
        ensures { IsLawful self.now }
    {
        kept_views_are_closed();
        kept_views_agree_with_themselves();
        commands_follow();
        command_keeps_the_course();
        quanta_keep_the_view();
        quantum_keeps_its_limit();
        quantum_starts_one_cycle_at_most();
        let _next_birth = self.next_birth;
    }
}

impl KeptHeap {
    /// A session that may give commands.
    pub(crate) fn session(&self, who: u8) -> Result<usize, Refusal>
        ensures step { result ≡ tested ((nat_le 8 who, TooManySessions) ∷ (get_or self.now.ended who false, Ended) ∷ []) who }
        ensures within { IfOk result (λ session. session < 8) }
    {
        let session = usize::from(who);
        if session >= SESSIONS {
            return Err(Refusal::TooManySessions);
        }
        if self.ended[session] {
            return Err(Refusal::Ended);
        }
        Ok(session)
    }

    /// The object that a root holds.
    pub(crate) fn object_in(&self, slot: usize) -> Result<Found, Refusal>
        requires { slot < root_slots }
        ensures { MatchResult result
            (λ found. (root_at self.now slot ≡ Some found.place) × (shape_at self.now slot ≡ Some found.shape) × IsObjectAt self.now.collector found.place found.shape)
            (λ refusal. (shape_at self.now slot ≡ None) × (refusal ≡ Null)) }
    {
        let place = root(&self.cycle, slot).ok_or(Refusal::Null)?;
        slots_hold_objects();
        let shape = shape_of(&self.cycle, place);
        Ok(Found { place, shape })
    }
}
