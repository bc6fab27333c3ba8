//! Words that are refused while standard error fails.
use crate::cases::Case;
use crate::trial::{Devices, Outcome, SOUND_DEVICES};
use std::alloc::Global;
use std::io::ErrorKind;
use std::process::Abort;
use std::sync::Wait;
use std::thread::Threads;
use test_support::troubled::{Device, Trouble};

const UNKNOWN: Case<'static> = Case {
    words: &[b"metroheap", b"walk"],
    input: b"config 4 209 0 0\na clear 0\n",
    outputs: &[],
    told: b"error: ",
    status: 2,
};

/// Standard error takes two bytes at a call, and fails at one of the first.
fn fail_to_refuse<R: Threads + Wait + Sync + Abort>(rt: &R, alloc: Global, at: u64) {
    let devices = Devices {
        errors: Device {
            most: 2,
            at,
            trouble: Trouble::Error(ErrorKind::BrokenPipe),
        },
        ..SOUND_DEVICES
    };
    let trial = devices.run(rt, alloc, &UNKNOWN);
    let found = (trial.outcome, trial.tellings);
    assert_eq!(rt; found, (Outcome::WordsRefused, at));
}

#[test]
fn words_are_refused_where_standard_error_fails(rt: HostRuntime) {
    for at in 1..4 {
        fail_to_refuse(&rt, rt.alloc(), at);
    }
}
