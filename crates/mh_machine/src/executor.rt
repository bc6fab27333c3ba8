//! Who does what an event asks of the heap: a scanner alone, or an account that keeps each deed. The engine is written
//! once over both, and each answers and leaves the same.
ghost use Rattle.std.specs.Prelude.{◌≡◌, ◌<◌, Some};
ghost use Rattle.mh_model.specs.{declared.birth.TheConstants.LIFE, Deeds.{command_deeds, ran_by}};
ghost use Rattle.mh_paged.specs.{Kept.Steps, Lawful.IsQuantum};
ghost use Rattle.mh_machine.specs.Auxiliary.{AddsRan, command_alone, nothing};
ghost use Rattle.mh_model.specs.Deeds as model;

use mh_deeds::account::Account;
use mh_heap::heap::Heap;
use mh_model::command::Command;
use mh_model::cycle::Spent;
use mh_model::deed::QuantumEnd;
use mh_model::reply::Reply;
use mh_paged::paged::PagedHeap;
use mh_scan::scan::{NoScan, Scanner};

/// Performs commands and runs quanta on the heap of pages.
pub(crate) trait Executor {
    // What it was told of an event so far is exactly this, unless memory was refused for a deed.
    ghost tells: { model.Account → Self → Type 0 };

    /// Performs a command of the session `who`.
    fn perform(&mut self, heap: &mut PagedHeap, who: u8, command: &Command) -> Reply
        requires few { heap.old.kept.next_birth < LIFE }
        requires fresh { tells nothing self.old }
        ensures step { Steps heap.old.kept who command.now result heap.new.kept }
        ensures told { tells (command_alone (command_deeds heap.old.kept who command.now)) self.new };

    /// Runs a quantum.
    fn quantum(&mut self, heap: &mut PagedHeap) -> Spent
        requires { heap.old.kept.collector.cycle < LIFE }
        ensures collects { IsQuantum heap.old.kept result heap.new.kept }
        ensures told { AddsRan tells self.old (Some (ran_by heap.old.kept)) self.new };
}

/// A scanner alone, which keeps no deed.
#[derive(Drop)]
pub(crate) struct Plain<'a, S> {
    pub(crate) scanner: &'a mut S,
}

impl<'a, S: Scanner> Executor for Plain<'a, S> {
    ghost tells = { λ _ _. Unit {0} };

    // A script is run by this one: its reply is not to go through memory.
    #[inline(always)]
    fn perform(&mut self, heap: &mut PagedHeap, who: u8, command: &Command) -> Reply {
        heap.perform(who, command)
    }

    fn quantum(&mut self, heap: &mut PagedHeap) -> Spent {
        heap.quantum(self.scanner)
    }
}

impl Executor for Account {
    ghost use Rattle.mh_machine.specs.Telling.{HasTold};

    ghost tells = { HasTold };

    fn perform(&mut self, heap: &mut PagedHeap, who: u8, command: &Command) -> Reply {
        heap.perform_told(who, command, &mut self.command)
    }

    fn quantum(&mut self, heap: &mut PagedHeap) -> Spent {
        let units = heap.quantum_with_log(&mut NoScan, &mut self.ran);
        let phase = heap.phase();
        self.quantum = Some(QuantumEnd { units, phase });
        units
    }
}
