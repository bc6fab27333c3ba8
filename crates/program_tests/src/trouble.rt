//! Devices that have a trouble at each of their calls in turn.
use crate::cases::Case;
use crate::trial::{Devices, Outcome, SOUND_DEVICES};
use std::alloc::Global;
use std::process::Abort;
use std::sync::Wait;
use std::thread::Threads;
use test_support::troubled::{Device, Trouble};

/// A trouble of a device that gives or takes at most so many bytes at a call, and how the program ends then.
#[derive(Clone, Copy)]
pub struct Way {
    pub most: usize,
    pub trouble: Trouble,
    pub outcome: Outcome,
}

impl Way {
    fn device(&self, at: u64) -> Device {
        Device {
            most: self.most,
            at,
            trouble: self.trouble,
        }
    }

    /// How many calls so many bytes take at least.
    fn calls_for(&self, bytes: usize) -> u64 {
        bytes.div_ceil(self.most.max(1)) as u64
    }
}

/// The reader has a trouble at each call in turn, until the program doesn't come to it. Its last call finds the end.
pub fn trouble_each_read<R: Threads + Wait + Sync + Abort>(
    rt: &R,
    alloc: Global,
    case: &Case<'_>,
    way: &Way,
) {
    for at in 1..u64::MAX {
        let devices = Devices {
            input: way.device(at),
            ..SOUND_DEVICES
        };
        let trial = devices.run(rt, alloc, case);
        let is_last = trial.reads < at;
        let wanted = if is_last {
            let reads = way.calls_for(case.input.len()).wrapping_add(1);
            (Outcome::Right, reads)
        } else {
            (way.outcome, trial.reads)
        };
        assert_eq!(rt; (trial.outcome, trial.reads), wanted);
        if is_last {
            break;
        }
    }
}

/// The writer has a trouble at each call in turn, until the program doesn't come to it.
pub fn trouble_each_write<R: Threads + Wait + Sync + Abort>(
    rt: &R,
    alloc: Global,
    case: &Case<'_>,
    way: &Way,
) {
    for at in 1..u64::MAX {
        let devices = Devices {
            output: way.device(at),
            ..SOUND_DEVICES
        };
        let trial = devices.run(rt, alloc, case);
        let is_last = trial.writes < at;
        let wanted = if is_last { Outcome::Right } else { way.outcome };
        let has_all = !is_last || trial.writes >= way.calls_for(trial.written);
        assert_eq!(rt; (trial.outcome, has_all), (wanted, true));
        if is_last {
            break;
        }
    }
}
