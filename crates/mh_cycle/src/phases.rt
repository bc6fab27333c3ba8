//! The phases of a quantum: each takes its steps in a loop of its own, as many as fit in what is left. A quantum is
//! these loops in the order of the phases, while the model's takes step after step. Both are the same, since a run of
//! steps is one stride.
ghost use Rattle.std.specs.Prelude.{◌≡◌, ◌-◌, false};
ghost use Rattle.mh_model.specs.{declared.cycle.Phase.TheVariants.{Mark, Sweep, Defrag}, Deeds.deeds_of_steps};
ghost use Rattle.mh_model.specs.Invariant.{IsSteady};
ghost use Rattle.mh_roots.specs.Roots.{SlotsLead};
ghost use Rattle.mh_cycle.specs.Auxiliary.{with_forwarded, forwarded_state, IsFrom, IsMarkingTurn, IsAdvance, IsRest};
ghost use Rattle.mh_deeds.specs.{Logs.Told, Auxiliary.Leads};

use crate::cycle::Cycle;
use crate::told::tell_phase;
use mh_deeds::log::{Log, NoLog};
use mh_laws::snapshots::collectors_stay_steady;
use mh_model::cycle::Phase;
use mh_scan::scan::Scanner;

/// What the scan of one slot costs.
pub(crate) const ROOT_COST: u64 = 2;

/// The most units of a turn in which a crew isn't called.
const TURN: u64 = 4_096;

/// What steps of defragmentation cost, and whether one of them moved a block.
#[derive(Clone, Copy)]
struct Moves {
    spent: u64,
    has_moved: bool,
}

impl Cycle {
    /// Scans roots while they fit in what is left. Answers what that cost.
    pub(crate) fn scan_roots<L: Log>(&mut self, left: u64, log: &mut L) -> u64
        requires steady { IsSteady self.old.collector }
        ensures advance { IsAdvance left self.old result false self.new }
        ensures from { IsFrom Mark (left - result) self.new.collector }
        ensures told { Leads L.has log.old (deeds_of_steps left left false self.old.collector) log.new (deeds_of_steps (left - result) (left - result) false self.new.collector) }
    {
        collectors_stay_steady();
        let mut spent = 0;
        while self.is_in(Phase::Roots) {
            if left - spent < ROOT_COST {
                break;
            }
            self.root_told(log);
            spent += ROOT_COST;
        }
        spent
    }

    /// Marks blocks one after the other.
    fn mark_alone<L: Log>(&mut self, left: u64, log: &mut L) -> u64
        requires steady { IsSteady self.old.collector }
        requires from { IsFrom Mark left self.old.collector }
        ensures turn { IsMarkingTurn left self.old result self.new }
        ensures from { IsFrom Sweep (left - result) self.new.collector }
        ensures told { Leads L.has log.old (deeds_of_steps left left false self.old.collector) log.new (deeds_of_steps (left - result) (left - result) false self.new.collector) }
    {
        collectors_stay_steady();
        let mut spent = 0;
        while self.is_in(Phase::Mark) {
            let first = self.first_grey();
            let cost = 1 + first.count as u64;
            if left - spent < cost {
                break;
            }
            self.mark_step(first, log);
            spent += cost;
        }
        spent
    }

    /// Marks blocks for a turn: by a batch, where that pays, and else one after the other for a while.
    fn mark_turn<S: Scanner>(&mut self, scanner: &mut S, left: u64) -> u64
        requires phase { self.old.collector.phase ≡ Mark }
        requires steady { IsSteady self.old.collector }
        ensures { IsMarkingTurn left self.old result self.new }
    {
        collectors_stay_steady();
        if scanner.pays(self.front_guess()) {
            self.mark_batch(scanner, left)
        } else {
            self.mark_alone(left.min(TURN), &mut NoLog)
        }
    }

    /// Marks blocks by turns, until one of them takes no step.
    fn mark_by_turns<S: Scanner>(&mut self, scanner: &mut S, left: u64) -> u64
        requires steady { IsSteady self.old.collector }
        requires from { IsFrom Mark left self.old.collector }
        ensures advance { IsAdvance left self.old result false self.new }
        ensures from { IsFrom Mark (left - result) self.new.collector }
    {
        let mut spent = 0;
        while self.is_in(Phase::Mark) {
            let cost = self.mark_turn(scanner, left - spent);
            if cost == 0 {
                break;
            }
            spent += cost;
        }
        spent
    }

    /// Marks blocks while they fit in what is left. Answers what that cost.
    pub(crate) fn mark<S: Scanner, L: Log>(
        &mut self,
        scanner: &mut S,
        left: u64,
        log: &mut L,
    ) -> u64
        requires steady { IsSteady self.old.collector }
        requires from { IsFrom Mark left self.old.collector }
        ensures advance { IsAdvance left self.old result false self.new }
        ensures from { IsFrom Sweep (left - result) self.new.collector }
        ensures told { Leads L.has log.old (deeds_of_steps left left false self.old.collector) log.new (deeds_of_steps (left - result) (left - result) false self.new.collector) }
    {
        if scanner.is_alone() {
            return self.mark_alone(left, log);
        }
        if !log.is_silent() {
            return self.mark_alone(left, log);
        }
        let spent = self.mark_by_turns(scanner, left);
        let rest = self.mark_alone(left - spent, log);
        spent + rest
    }

    /// Sweeps while steps fit in what is left. Answers what that cost.
    pub(crate) fn sweep<L: Log>(&mut self, left: u64, log: &mut L) -> u64
        requires steady { IsSteady self.old.collector }
        requires from { IsFrom Sweep left self.old.collector }
        ensures advance { IsAdvance left self.old result false self.new }
        ensures from { IsFrom Defrag (left - result) self.new.collector }
        ensures told { Leads L.has log.old (deeds_of_steps left left false self.old.collector) log.new (deeds_of_steps (left - result) (left - result) false self.new.collector) }
    {
        collectors_stay_steady();
        let mut spent = 0;
        while self.is_in(Phase::Sweep) {
            if spent == left {
                break;
            }
            spent += self.sweep_some(left - spent, log);
        }
        spent
    }

    /// Moves blocks while steps fit in what is left. The slots stay as they were, since no step reads one: from each a hop
    /// at most leads to its object.
    fn move_blocks<L: Log>(&mut self, left: u64, log: &mut L) -> Moves
        requires steady { IsSteady self.old.collector }
        requires from { IsFrom Defrag left self.old.collector }
        ensures rest { IsRest left self.old result.spent (forwarded_state self.new) }
        ensures still { result.has_moved ≡ false → with_forwarded self.new.collector ≡ self.new.collector }
        ensures lead { SlotsLead self.new.collector.table self.new.collector.slots }
        ensures told { Told L.has log.old (deeds_of_steps left left false self.old.collector) log.new }
    {
        collectors_stay_steady();
        let mut spent = 0;
        let mut has_moved = false;
        while self.is_in(Phase::Defrag) {
            if log.is_silent() {
                let run = self.still_run(left - spent);
                let count = run.count;
                if count != 0 {
                    self.pass(run);
                    spent += count as u64;
                    continue;
                }
            }
            let target = self.next_target();
            let cost = self.move_cost(target, has_moved);
            if left - spent < cost {
                break;
            }
            self.tell_move(target, has_moved, log);
            self.defrag_step(target);
            tell_phase(Phase::Defrag, self.phase, log);
            has_moved = has_moved || target.is_some();
            spent += cost;
        }
        Moves { spent, has_moved }
    }

    /// Moves blocks while steps fit in what is left, and then forwards the slots, once for all moves. Answers what that
    /// cost.
    pub(crate) fn defragment<L: Log>(&mut self, left: u64, log: &mut L) -> u64
        requires steady { IsSteady self.old.collector }
        requires from { IsFrom Defrag left self.old.collector }
        ensures rest { IsRest left self.old result self.new }
        ensures told { Told L.has log.old (deeds_of_steps left left false self.old.collector) log.new }
    {
        let moves = self.move_blocks(left, log);
        if moves.has_moved {
            self.roots.forward_all(&self.blocks);
        }
        moves.spent
    }
}
