//! What is read of a machine between two events, and what two readings say of the event between them.
//!
//! A machine reports how many quanta its cycle has left. How many it has had is the rest of the most that a cycle
//! takes, since a cycle never has more (`IsInTime`).
ghost use Rattle.std.specs.Prelude.{◌≡◌, ◌<◌, ◌^◌, nat_lt};
ghost use Rattle.mh_laws.specs.Bounds.{IsInTime};
ghost use Rattle.mh_size_runs.specs.Auxiliary.{ended_between, quanta_between, sample_of, stage_of};

use mh_machine::machine::Machine;
use mh_model::cycle::Phase;

/// Which cycle a machine is at.
#[derive(Clone, Copy)]
pub(crate) struct Stage {
    pub(crate) is_idle: bool,
    /// How many cycles have started.
    pub(crate) cycle: u64,
}

impl Stage {
    pub(crate) fn read(machine: &Machine) -> Stage
        ensures { result ≡ stage_of machine.now.machine.heap.collector }
    {
        let heap = machine.heap();
        Stage {
            is_idle: heap.phase() == Phase::Idle,
            cycle: heap.kept.cycle_number(),
        }
    }

    /// Whether a cycle has ended since an earlier stage, with one event in between.
    pub(crate) fn ends_since(self, old: Stage) -> bool
        ensures { result ≡ ended_between old self }
    {
        self.is_idle && (!old.is_idle || old.cycle < self.cycle)
    }
}

/// What is read of a machine between two events.
#[derive(Clone, Copy)]
pub(crate) struct Sample {
    pub(crate) stage: Stage,
    pub(crate) free: u64,
    /// How many quanta the running cycle has had, and 0 if none runs.
    pub(crate) quanta: u64,
    /// How many quanta were run.
    pub(crate) quanta_run: u64,
}

impl Sample {
    pub(crate) fn read(machine: &Machine) -> Sample
        requires { IsInTime machine.now.machine.heap.config machine.now.machine.heap.collector }
        ensures { result ≡ sample_of machine.now.machine }
    {
        let stage = Stage::read(machine);
        let heap = machine.heap();
        let quanta = if stage.is_idle {
            0
        } else {
            machine.config().most_quanta() - heap.quanta_left()
        };
        Sample {
            stage,
            free: heap.free_pages(),
            quanta,
            quanta_run: machine.trace().quanta(),
        }
    }

    /// Whether the event between had a quantum run.
    pub(crate) fn has_quantum_since(self, old: Sample) -> bool
        ensures { result ≡ nat_lt old.quanta_run self.quanta_run }
    {
        old.quanta_run < self.quanta_run
    }

    /// How many quanta a cycle takes at least that has ended since an earlier sample, or that runs.
    pub(crate) fn quanta_since(self, old: Sample) -> u64
        requires old { old.quanta < 2 ^ 62 }
        requires new { self.quanta < 2 ^ 62 }
        ensures { result ≡ quanta_between old self }
    {
        if self.stage.ends_since(old.stage) {
            old.quanta + 1
        } else if self.stage.is_idle {
            0
        } else {
            self.quanta + 1
        }
    }
}
