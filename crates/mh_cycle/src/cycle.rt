//! The collector with its table and its roots: quanta, and the deletion barriers.
//!
//! A quantum is the model's, whatever the scanner answers: what it spends, at most the units configured, and what it
//! leaves of each thing that the collector has. It tells its deeds to a log, and runs faster for one that keeps nothing
//! (`told`). It is never refused. It keeps each world that is taken as the snapshot of the running cycle. One that ends
//! the cycle leaves exactly the objects that the snapshot reached or that were born since, each with all its parts
//! (`keeps`; `starts`, if the same quantum began it). One that starts a cycle starts it with what is reachable in the
//! view at its entry (`starts`).
//!
//! When a cycle's defragmentation begins, no block is a forwarder. A quantum leaves a cycle ended only if it was
//! entered in that defragmentation, or that defragmentation begins in it. So each forwarder that a cycle leaves was
//! made in it (`forwarders`).
//!
//! The barriers of a slot and of a reference are the model's and keep each snapshot. That of a reference does so if its
//! block belongs to what the snapshot keeps. Of another block it promises nothing: to shade what garbage refers to
//! marks what no snapshot reached. So it gives back that the cycle is steady only through a snapshot that its caller
//! names. Each command of the heap above has one.
//!
//! `start` asks for a cycle. The configuration, the phase and the number of cycles are read. So are the quanta that the
//! running cycle has had (`quanta_run`), and those that it has left at most.
//!
//! The promise of the snapshot is no part of the type. `Cycle` keeps its own frame alone: how many pages the table and
//! the grey list have, that the cursor is in range, and that marking has a grey block. Quanta, steps and barriers
//! require that some world is the snapshot of the running cycle (`IsSteady`). All but the barrier of a reference give
//! this back. For each world taken as the snapshot, whichever it is, the calls keep what it reached. The heap above,
//! which knows the next birth, keeps one.
//!
//! A quantum asks that its cycle has had fewer than 2^62 quanta, beside the same of the number of cycles. That a cycle
//! never has so many is a law of whole commands and quanta (`collectors_stay_in_bounds`). In the type's invariant it
//! would have to hold after each single step too, and after whatever a caller writes into the lent table. So the heap
//! above keeps it, and its quantum asks for the number of cycles alone.
ghost use Rattle.std.specs.Prelude.{◌≡◌, ◌^◌, ◌<◌, ◌≤◌, true, IfOk, None, length};
ghost use Rattle.mh_model.specs.{Table.{references_at, forward_at}, Collector.{is_idle, quantum_start, quantum}};
ghost use Rattle.mh_model.specs.{Deeds.quantum_deeds, Mutator.{before_root, before_field}, Machine.quanta_left};
ghost use Rattle.mh_model.specs.{Invariant.IsSteady, Limits.root_slots};
ghost use Rattle.mh_deeds.specs.Logs.{Told};
ghost use Rattle.mh_laws.specs.Forwarders.{MakesItsForwarders};
ghost use Rattle.mh_cycle.specs.State.{state_with_collector, first_state};
ghost use Rattle.mh_cycle.specs.Snapshots.{ContinuesEach, StartsFromTheView, KeepsEach, KeepsEachBehind};

use mh_blocks::blocks::Blocks;
use mh_deeds::log::Log;
use mh_grey::grey::Grey;
use mh_laws::barriers::barriers_keep_the_snapshot;
use mh_laws::fields::references_lead_on;
use mh_laws::forwarders::quanta_make_their_forwarders;
use mh_laws::snapshots::{
    collectors_stay_steady, cycles_start_from_the_view, heaps_stay_kept, quanta_keep_the_snapshot,
    shading_keeps_the_snapshot,
};
use mh_model::config::Config;
use mh_model::cycle::{Phase, Spent};
use mh_model::memory::NoMemory;
use mh_model::place::Place;
use mh_roots::roots::Roots;
use mh_scan::scan::Scanner;
use std::alloc::Global;
use std::marker::Model;

/// The collector with the table and the roots that it works on. Both are lent: what is written there is up to the
/// caller, each reference after its barrier.
#[derive(Drop)]
pub struct Cycle {
    pub blocks: Blocks,
    pub roots: Roots,
    pub(crate) config: Config,
    pub(crate) phase: Phase,
    /// The next slot of the roots, or the next place of the sweep or of defragmentation.
    pub(crate) cursor: usize,
    pub(crate) grey: Grey,
    pub(crate) number: u64,
    pub(crate) is_asked: bool,
    /// How many quanta the running cycle has had.
    pub(crate) quanta: u64,
}

impl Model for Cycle {
    ghost use Rattle.mh_cycle.specs.{State.CycleState, Auxiliary.IsFramed};

    ghost Value = { CycleState };

    ghost view = { λ c. record { config = c.config; collector = record { table = c.blocks; slots = c.roots; phase = c.phase; cursor = c.cursor; grey = c.grey.places; cycle = c.number; is_asked = c.is_asked; quanta = c.quanta } } };

    ghost invariant = { λ c. IsFramed c.config c.blocks c.phase c.cursor c.grey };
}

impl Cycle {
    /// The collector of an empty table, with no cycle running.
    pub fn open(alloc: Global, config: Config) -> Result<Cycle, NoMemory>
        ensures first { IfOk result (λ cycle. cycle ≡ first_state config) }
        ensures steady { IfOk result (λ cycle. IsSteady cycle.collector) }
    {
        heaps_stay_kept();
        collectors_stay_steady();
        let pages = config.pages as usize;
        Ok(Cycle {
            blocks: Blocks::open(alloc, pages)?,
            roots: Roots::new(),
            config,
            phase: Phase::Idle,
            cursor: 0,
            grey: Grey::open(alloc, pages)?,
            number: 0,
            is_asked: false,
            quanta: 0,
        })
    }

    pub fn config(&self) -> Config
        ensures { result ≡ self.now.config }
    {
        self.config
    }

    /// What the collector is at.
    pub fn phase(&self) -> Phase
        ensures { result ≡ self.now.collector.phase }
    {
        self.phase
    }

    /// How many cycles have started.
    pub fn cycle_number(&self) -> u64
        ensures { result ≡ self.now.collector.cycle }
    {
        self.number
    }

    /// While roots are scanned the number of the next slot, and while the table is swept or defragmented the next place.
    pub fn cursor(&self) -> usize
        ensures { result ≡ self.now.collector.cursor }
    {
        self.cursor
    }

    /// Whether a cycle is asked for.
    pub fn is_asked(&self) -> bool
        ensures { result ≡ self.now.collector.is_asked }
    {
        self.is_asked
    }

    /// How many quanta the running cycle has had, with the one that started it, and 0 while none runs.
    pub fn quanta_run(&self) -> u64
        ensures { result ≡ self.now.collector.quanta }
    {
        self.quanta
    }

    /// How many quanta the running cycle still has at most.
    pub fn quanta_left(&self) -> u64
        ensures { result ≡ quanta_left self.now.config self.now.collector }
    {
        if self.is_idle() {
            return 0;
        }
        self.config.most_quanta().saturating_sub(self.quanta)
    }

    /// Asks for a cycle, which the next quantum starts that finds none running.
    pub fn start(&mut self)
        ensures asked { self.new ≡ state_with_collector self.old (record (self.old.collector) { is_asked = true }) }
        ensures kept { KeepsEach self.old.collector self.new.collector }
        ensures steady { IsSteady self.old.collector → IsSteady self.new.collector }
    {
        self.is_asked = true;
    }

    /// Runs a quantum: a cycle that is due starts, and while a cycle runs steps are taken whose cost fits in what is left
    /// of the configured units. A scanner is asked for what blocks refer to; whatever it answers, the quantum is the
    /// same. The log gets its deeds, unless it keeps nothing. Answers the units that it spent.
    pub fn quantum<S: Scanner, L: Log>(&mut self, scanner: &mut S, log: &mut L) -> Spent
        requires steady { IsSteady self.old.collector }
        requires cycles { self.old.collector.cycle < 2 ^ 62 }
        requires quanta { self.old.collector.quanta < 2 ^ 62 }
        ensures spent { result ≡ (quantum self.old.config self.old.collector).units }
        ensures after { self.new ≡ state_with_collector self.old (quantum self.old.config self.old.collector).collector }
        ensures limit { result ≤ self.old.config.quantum }
        ensures steady { IsSteady self.new.collector }
        ensures keeps { ContinuesEach self.old.collector self.new.collector }
        ensures starts { StartsFromTheView self.old self.new.collector }
        ensures forwarders { MakesItsForwarders self.old.config self.old.collector self.new.collector }
        ensures told { Told L.has log.old (quantum_deeds self.old.config self.old.collector) log.new }
    {
        collectors_stay_steady();
        quanta_keep_the_snapshot();
        cycles_start_from_the_view();
        quanta_make_their_forwarders();
        self.begin_told(log);
        let most = u64::from(self.config.quantum);
        let mut left = most;
        left -= self.scan_roots(left, log);
        left -= self.mark(scanner, left, log);
        left -= self.sweep(left, log);
        left -= self.defragment(left, log);
        Spent(most - left)
    }

    /// The barrier of a slot that is to be overwritten: while the roots are scanned, what it held is shaded.
    pub fn before_root(&mut self, slot: usize)
        requires slot { slot < root_slots }
        requires steady { IsSteady self.old.collector }
        ensures shaded { self.new ≡ state_with_collector self.old (before_root self.old.collector slot) }
        ensures kept { KeepsEach self.old.collector self.new.collector }
        ensures steady { IsSteady self.new.collector }
    {
        references_lead_on();
        shading_keeps_the_snapshot();
        if self.is_scanning() {
            let reference = self.roots.get(slot);
            self.grey.shade(&mut self.blocks, self.number, reference);
        }
    }

    /// The barrier of a reference that is to be overwritten: until all blocks are marked, what it led to is shaded.
    pub fn before_field(&mut self, place: Place, index: usize)
        requires there { index < length (references_at self.old.collector.table place) }
        requires original { forward_at self.old.collector.table place ≡ None }
        requires steady { IsSteady self.old.collector }
        ensures shaded { self.new ≡ state_with_collector self.old (before_field self.old.collector (record { place = place; index = index })) }
        ensures kept { KeepsEachBehind place self.old.collector self.new.collector }
    {
        references_lead_on();
        barriers_keep_the_snapshot();
        if self.is_marking() {
            let reference = self.blocks.reference(place, index);
            self.grey.shade(&mut self.blocks, self.number, reference);
        }
    }
}
