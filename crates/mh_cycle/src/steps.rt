//! What a quantum does in one go: its start, and one step or some steps of a phase.
ghost use Rattle.std.specs.Prelude.{◌≡◌, ◌+◌, ◌-◌, ◌^◌, ◌<◌, ◌≤◌, ◌==◌, ℕ, Bool, true, false, if◌then◌else◌, Option, List, length};
ghost use Rattle.mh_model.specs.declared.cycle.Phase.TheVariants.{Roots, Mark, Sweep, Defrag};
ghost use Rattle.mh_model.specs.Collector.{is_idle, quantum_start, collector_step, step_cost};
ghost use Rattle.mh_model.specs.Deeds.{deeds_in, step_deeds, deeds_of_steps, start_deeds};
ghost use Rattle.mh_model.specs.{Mutator.{in_roots, in_roots_or_mark}, Invariant.IsSteady};
ghost use Rattle.mh_deeds.specs.{Logs.Told, Auxiliary.Leads};
ghost use Rattle.mh_mark.specs.First.{IsFirstGrey};
ghost use Rattle.mh_defrag.specs.Moves.{IsTarget, AreStill};
ghost use Rattle.mh_cycle.specs.State.{state_with_collector};
ghost use Rattle.mh_cycle.specs.Auxiliary.{with_slots, step_beside_slots, IsStretch, IsStride};

use crate::cycle::Cycle;
use crate::told::{sweep_told, target_of, tell_phase, tell_slot};
use mh_deeds::log::Log;
use mh_defrag::defrag;
use mh_defrag::defrag::Still;
use mh_grey::grey::Grey;
use mh_laws::batches::any_cut_into_batches_is_the_same;
use mh_laws::fields::references_lead_on;
use mh_mark::batch::{front_guess, mark_batch};
use mh_mark::mark::{FirstGrey, first_grey, mark_step};
use mh_model::cycle::Phase;
use mh_model::deed::{Deed, Edge};
use mh_model::limits::ROOT_SLOTS;
use mh_model::place::Place;
use mh_scan::scan::Scanner;
use mh_sweep::sweep;
/// The phase in which blocks are marked while some are grey, and then the sweep.
fn after_mark(grey: &Grey) -> Phase
    ensures { result ≡ (if length grey.now.places == 0 then Sweep else Mark) }
{
    if grey.is_empty() {
        Phase::Sweep
    } else {
        Phase::Mark
    }
}

impl Cycle {
    pub(crate) fn is_idle(&self) -> bool
        ensures { result ≡ is_idle self.now.collector.phase }
    {
        matches!(self.phase, Phase::Idle)
    }

    /// Whether the roots are scanned.
    pub(crate) fn is_scanning(&self) -> bool
        ensures { result ≡ in_roots self.now.collector.phase }
    {
        matches!(self.phase, Phase::Roots)
    }

    /// Whether the roots are scanned or blocks are marked.
    pub(crate) fn is_marking(&self) -> bool
        ensures { result ≡ in_roots_or_mark self.now.collector.phase }
    {
        matches!(self.phase, Phase::Roots | Phase::Mark)
    }

    /// Whether the collector is in this phase.
    pub(crate) fn is_in(&self, phase: Phase) -> bool
        ensures yes { result ≡ true → self.now.collector.phase ≡ phase }
        ensures no { self.now.collector.phase ≡ phase → result ≡ true }
    {
        self.phase == phase
    }

    /// Starts a cycle that is due, and counts the quantum.
    pub(crate) fn begin(&mut self)
        requires steady { IsSteady self.old.collector }
        requires cycles { self.old.collector.cycle < 2 ^ 62 }
        requires quanta { self.old.collector.quanta < 2 ^ 62 }
        ensures { self.new ≡ state_with_collector self.old (quantum_start self.old.config self.old.collector) }
    {
        if self.is_idle()
            && (self.is_asked
                || self.blocks.free_pages() as u64 <= u64::from(self.config.trigger))
        {
            self.phase = Phase::Roots;
            self.cursor = 0;
            self.number += 1;
            self.blocks.begin_cycle(self.number);
            self.grey.begin_cycle();
            self.is_asked = false;
            self.quanta = 0;
        }
        if !self.is_idle() {
            self.quanta += 1;
        }
    }

    /// The same, and tells the start.
    pub(crate) fn begin_told<L: Log>(&mut self, log: &mut L)
        requires steady { IsSteady self.old.collector }
        requires cycles { self.old.collector.cycle < 2 ^ 62 }
        requires quanta { self.old.collector.quanta < 2 ^ 62 }
        ensures begun { self.new ≡ state_with_collector self.old (quantum_start self.old.config self.old.collector) }
        ensures told { Told L.has log.old (start_deeds self.old.config self.old.collector) log.new }
    {
        let before = self.number;
        self.begin();
        if self.number != before {
            log.tell(Deed::Start { cycle: self.number });
            log.tell(Deed::Enter {
                phase: Phase::Roots,
            });
        }
    }

    /// Shades what the next slot holds.
    pub(crate) fn roots_step(&mut self)
        requires phase { self.old.collector.phase ≡ Roots }
        requires steady { IsSteady self.old.collector }
        ensures { self.new ≡ state_with_collector self.old (collector_step self.old.collector) }
    {
        references_lead_on();
        let reference = self.roots.get(self.cursor);
        self.grey.shade(&mut self.blocks, self.number, reference);
        self.cursor += 1;
        if self.cursor == ROOT_SLOTS {
            self.cursor = 0;
            self.phase = after_mark(&self.grey);
        }
    }

    /// The same, and tells what it shaded, and the phase that it enters.
    pub(crate) fn root_told<L: Log>(&mut self, log: &mut L)
        requires phase { self.old.collector.phase ≡ Roots }
        requires steady { IsSteady self.old.collector }
        ensures after { self.new ≡ state_with_collector self.old (collector_step self.old.collector) }
        ensures told { Told L.has log.old (step_deeds self.old.collector false) log.new }
    {
        if log.is_silent() {
            self.roots_step();
            return;
        }
        references_lead_on();
        let slot = self.cursor;
        let before = self.grey.len();
        let mut edge = Edge {
            reference: self.roots.get(slot),
            target: None,
            is_shaded: false,
        };
        edge.target = target_of(&self.blocks, edge.reference);
        self.roots_step();
        edge.is_shaded = before < self.grey.len();
        log.tell(Deed::Root { slot, edge });
        tell_phase(Phase::Roots, self.phase, log);
    }

    /// The first grey block, and with it what marking through it costs.
    pub(crate) fn first_grey(&self) -> FirstGrey
        requires phase { self.now.collector.phase ≡ Mark }
        requires steady { IsSteady self.now.collector }
        ensures first { IsFirstGrey self.now.collector.table self.now.collector.grey result }
        ensures cost { (moved : Bool) → 1 + result.count ≡ step_cost self.now.collector moved }
        ensures few { result.count ≤ 60 }
    {
        references_lead_on();
        first_grey(&self.blocks, &self.grey)
    }

    /// Marks through the first grey block, which is given.
    pub(crate) fn mark_step<L: Log>(&mut self, first: FirstGrey, log: &mut L)
        requires phase { self.old.collector.phase ≡ Mark }
        requires first { IsFirstGrey self.old.collector.table self.old.collector.grey first }
        requires steady { IsSteady self.old.collector }
        ensures after { self.new ≡ state_with_collector self.old (collector_step self.old.collector) }
        ensures told { Told L.has log.old (step_deeds self.old.collector false) log.new }
    {
        references_lead_on();
        mark_step(&mut self.blocks, &mut self.grey, self.number, first, log);
        self.grey.touch(&self.blocks, first.address, first.count);
        self.cursor = 0;
        self.phase = after_mark(&self.grey);
        tell_phase(Phase::Mark, self.phase, log);
    }

    /// About what marking through the next front costs.
    pub(crate) fn front_guess(&self) -> u64
        requires steady { IsSteady self.now.collector }
    {
        references_lead_on();
        front_guess(&self.blocks, &self.grey)
    }

    /// Marks through the longest front that fits in what is left, by the scanner. Answers what that cost, nothing if
    /// the first block doesn't fit.
    pub(crate) fn mark_batch<S: Scanner>(&mut self, scanner: &mut S, left: u64) -> u64
        requires phase { self.old.collector.phase ≡ Mark }
        requires steady { IsSteady self.old.collector }
        ensures state { self.new ≡ state_with_collector self.old self.new.collector }
        ensures run { IsStretch left self.old.collector result self.new.collector }
    {
        references_lead_on();
        any_cut_into_batches_is_the_same();
        self.grey.has_each_once();
        let cost = mark_batch(&mut self.blocks, &mut self.grey, self.number, scanner, left);
        if cost == 0 {
            return 0;
        }
        self.cursor = 0;
        self.phase = after_mark(&self.grey);
        cost
    }

    /// Sweeps slots of one page, as many as fit in what is left. Answers what that cost.
    pub(crate) fn sweep_page(&mut self, left: u64) -> u64
        requires phase { self.old.collector.phase ≡ Sweep }
        requires some { 0 < left }
        ensures state { self.new ≡ state_with_collector self.old self.new.collector }
        ensures run { IsStretch left self.old.collector result self.new.collector }
        ensures some { 0 < result }
    {
        let place = Place(self.cursor);
        let swept = sweep::sweep_page(&mut self.blocks, self.number, place, left as usize);
        let end = swept.next;
        self.cursor = end.0;
        if end.page() >= self.blocks.len() {
            self.cursor = 0;
            self.phase = Phase::Defrag;
        }
        swept.count as u64
    }

    /// Sweeps one slot, or passes a free page, and tells it.
    fn slot_told<L: Log>(&mut self, log: &mut L)
        requires { self.old.collector.phase ≡ Sweep }
        ensures after { self.new ≡ state_with_collector self.old (collector_step self.old.collector) }
        ensures told { Told L.has log.old (deeds_in Sweep self.old.collector false) log.new }
    {
        let place = Place(self.cursor);
        let end = sweep_told(&mut self.blocks, self.number, place, log);
        self.cursor = end.0;
        if end.page() >= self.blocks.len() {
            self.cursor = 0;
            self.phase = Phase::Defrag;
        }
    }

    /// The same, and tells the phase that it enters.
    fn sweep_told<L: Log>(&mut self, log: &mut L)
        requires { self.old.collector.phase ≡ Sweep }
        ensures after { self.new ≡ state_with_collector self.old (collector_step self.old.collector) }
        ensures told { Told L.has log.old (step_deeds self.old.collector false) log.new }
    {
        self.slot_told(log);
        tell_phase(Phase::Sweep, self.phase, log);
    }

    /// Sweeps slots of one page, as many as fit in what is left, or one slot if the log keeps deeds. Answers what that cost.
    // One slot has a step of its own, since a second caller would keep `sweep_page` out of this loop.
    pub(crate) fn sweep_some<L: Log>(&mut self, left: u64, log: &mut L) -> u64
        requires phase { self.old.collector.phase ≡ Sweep }
        requires some { 0 < left }
        ensures state { self.new ≡ state_with_collector self.old self.new.collector }
        ensures run { IsStretch left self.old.collector result self.new.collector }
        ensures some { 0 < result }
        ensures told { Leads L.has log.old (deeds_of_steps left left false self.old.collector) log.new (deeds_of_steps (left - result) (left - result) false self.new.collector) }
    {
        if log.is_silent() {
            return self.sweep_page(left);
        }
        self.sweep_told(log);
        1
    }

    /// The next steps of defragmentation that move no block, as many as fit in what is left.
    pub(crate) fn still_run(&self, left: u64) -> Still
        requires { self.now.collector.phase ≡ Defrag }
        ensures still { AreStill self.now.collector.table self.now.collector.cursor result.count result.next }
        ensures fits { result.count ≤ left }
    {
        defrag::still_run(&self.blocks, Place(self.cursor), left as usize)
    }

    /// Takes steps of defragmentation that move no block.
    pub(crate) fn pass(&mut self, run: Still)
        requires phase { self.old.collector.phase ≡ Defrag }
        requires some { 0 < run.count }
        requires still { AreStill self.old.collector.table self.old.collector.cursor run.count run.next }
        ensures state { self.new ≡ state_with_collector self.old self.new.collector }
        ensures table { self.new.collector.table ≡ self.old.collector.table }
        ensures slots { self.new.collector.slots ≡ self.old.collector.slots }
        ensures stride { (slots : List (Option ℕ)) (moved : Bool) → IsStride run.count moved (with_slots self.old.collector slots) moved (with_slots self.new.collector slots) }
    {
        let after = run.next;
        self.cursor = after.0;
        if after.page() >= self.blocks.len() {
            self.cursor = 0;
            self.quanta = 0;
            self.phase = Phase::Idle;
        }
    }

    /// Where the next step of defragmentation moves a block, if it moves one.
    pub(crate) fn next_target(&self) -> Option<Place>
        requires { self.now.collector.phase ≡ Defrag }
        ensures { IsTarget self.now.collector.table self.now.collector.cursor result }
    {
        defrag::next_target(&self.blocks, Place(self.cursor))
    }

    /// What the next step of defragmentation costs.
    pub(crate) fn move_cost(&self, target: Option<Place>, has_moved: bool) -> u64
        requires phase { self.now.collector.phase ≡ Defrag }
        requires target { IsTarget self.now.collector.table self.now.collector.cursor target }
        ensures { result ≡ step_cost self.now.collector has_moved }
    {
        defrag::cost(&self.blocks, Place(self.cursor), target, has_moved)
    }

    /// One step of defragmentation. The slots aren't forwarded.
    pub(crate) fn defrag_step(&mut self, target: Option<Place>)
        requires phase { self.old.collector.phase ≡ Defrag }
        requires target { IsTarget self.old.collector.table self.old.collector.cursor target }
        ensures { self.new ≡ state_with_collector self.old (step_beside_slots self.old.collector) }
    {
        let place = Place(self.cursor);
        let next = defrag::step(&mut self.blocks, place, target);
        self.cursor = next.0;
        if next.page() >= self.blocks.len() {
            self.cursor = 0;
            self.quanta = 0;
            self.phase = Phase::Idle;
        }
    }

    /// Tells what the next step of defragmentation does.
    pub(crate) fn tell_move<L: Log>(&self, target: Option<Place>, has_moved: bool, log: &mut L)
        requires phase { self.now.collector.phase ≡ Defrag }
        requires target { IsTarget self.now.collector.table self.now.collector.cursor target }
        ensures { Told L.has log.old (deeds_in Defrag self.now.collector has_moved) log.new }
    {
        tell_slot(&self.blocks, Place(self.cursor), target, has_moved, log);
    }
}
