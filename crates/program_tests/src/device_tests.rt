use crate::cases::{Case, GENERATED, cases, live_cases};
use crate::trial::{Devices, Outcome, SOUND_DEVICES};
use crate::trouble::{Way, trouble_each_read, trouble_each_write};
use std::alloc::Global;
use std::io::ErrorKind;
use std::process::Abort;
use std::sync::Wait;
use std::test::Fail;
use std::thread::Threads;
use test_support::troubled::{Device, Trouble};

/// By how many bytes at most a reader gives, and the error of one call.
const READ_ERRORS: [(usize, ErrorKind); 5] = [
    (1, ErrorKind::WouldBlock),
    (7, ErrorKind::WouldBlock),
    (usize::MAX, ErrorKind::WouldBlock),
    (7, ErrorKind::UnexpectedEof),
    (7, ErrorKind::OutOfMemory),
];

/// One call is interrupted.
const INTERRUPTED: Way = Way {
    most: 7,
    trouble: Trouble::Error(ErrorKind::Interrupted),
    outcome: Outcome::Right,
};

fn trouble_reads<R: Threads + Wait + Sync + Abort>(rt: &R, alloc: Global, case: &Case<'_>) {
    for (most, kind) in READ_ERRORS {
        let way = Way {
            most,
            trouble: Trouble::Error(kind),
            outcome: Outcome::ReadFailed,
        };
        trouble_each_read(rt, alloc, case, &way);
    }
    trouble_each_read(rt, alloc, case, &INTERRUPTED);
}

#[test]
fn each_read_has_trouble_in_turn(rt: HostRuntime) -> Result<(), Fail> {
    for case in &cases(rt.alloc())? {
        trouble_reads(&rt, rt.alloc(), case);
    }
    for case in live_cases() {
        trouble_reads(&rt, rt.alloc(), case);
    }
    Ok(())
}

/// By how many bytes at most a writer takes, and the trouble of one call.
const WRITE_TROUBLES: [(usize, Trouble); 6] = [
    (1, Trouble::Error(ErrorKind::BrokenPipe)),
    (7, Trouble::Error(ErrorKind::BrokenPipe)),
    (usize::MAX, Trouble::Error(ErrorKind::BrokenPipe)),
    (7, Trouble::Error(ErrorKind::StorageFull)),
    (7, Trouble::Error(ErrorKind::OutOfMemory)),
    (7, Trouble::NoByte),
];

fn trouble_writes<R: Threads + Wait + Sync + Abort>(rt: &R, alloc: Global, case: &Case<'_>) {
    for (most, trouble) in WRITE_TROUBLES {
        let way = Way {
            most,
            trouble,
            outcome: Outcome::WriteFailed,
        };
        trouble_each_write(rt, alloc, case, &way);
    }
    trouble_each_write(rt, alloc, case, &INTERRUPTED);
}

#[test]
fn each_write_has_trouble_in_turn(rt: HostRuntime) -> Result<(), Fail> {
    for case in &cases(rt.alloc())? {
        trouble_writes(&rt, rt.alloc(), case);
    }
    for case in live_cases() {
        trouble_writes(&rt, rt.alloc(), case);
    }
    trouble_writes(&rt, rt.alloc(), &GENERATED);
    Ok(())
}

#[test]
fn nothing_is_read_for_a_random_script(rt: HostRuntime) {
    let trial = SOUND_DEVICES.run(&rt, rt.alloc(), &GENERATED);
    assert_eq!(rt; (trial.outcome, trial.reads), (Outcome::Right, 0));
}

const FAILURE: Trouble = Trouble::Error(ErrorKind::BrokenPipe);

/// A device that takes or gives at most so many bytes at a call, and fails at one call.
fn failing(most: usize, at: u64) -> Device {
    Device {
        most,
        at,
        trouble: FAILURE,
    }
}

/// The reader fails at one call and the writer at one, if the program comes to them.
fn fail_both<R: Threads + Wait + Sync + Abort>(
    rt: &R,
    alloc: Global,
    case: &Case<'_>,
    read: u64,
    write: u64,
) {
    let devices = Devices {
        input: failing(16, read),
        output: failing(16, write),
        ..SOUND_DEVICES
    };
    let trial = devices.run(rt, alloc, case);
    let reads = (case.input.len().div_ceil(16) as u64).wrapping_add(1);
    let wanted = if read <= reads {
        Outcome::ReadFailed
    } else if write <= trial.writes {
        Outcome::WriteFailed
    } else {
        Outcome::Right
    };
    assert_eq!(rt; trial.outcome, wanted);
}

fn fail_both_in_turn<R: Threads + Wait + Sync + Abort>(
    rt: &R,
    alloc: Global,
    case: &Case<'_>,
    write: u64,
) {
    for read in 1..15 {
        fail_both(rt, alloc, case, read, write);
    }
}

fn fail_each_with_each<R: Threads + Wait + Sync + Abort>(rt: &R, alloc: Global, case: &Case<'_>) {
    for write in 1..15 {
        fail_both_in_turn(rt, alloc, case, write);
    }
}

#[test]
fn the_device_that_fails_first_is_blamed(rt: HostRuntime) -> Result<(), Fail> {
    for case in &cases(rt.alloc())? {
        fail_each_with_each(&rt, rt.alloc(), case);
    }
    Ok(())
}

/// Standard error fails at each write in turn, until it doesn't, while the reader fails at one call or the writer at one. Gives
/// how many writes a whole line takes.
fn fail_to_tell<R: Threads + Wait + Sync + Abort>(
    rt: &R,
    alloc: Global,
    case: &Case<'_>,
    read: u64,
    write: u64,
    outcome: Outcome,
) -> u64 {
    for at in 1..u64::MAX {
        let devices = Devices {
            input: failing(7, read),
            output: failing(7, write),
            errors: failing(1, at),
        };
        let trial = devices.run(rt, alloc, case);
        assert_eq!(rt; trial.outcome, outcome);
        if trial.tellings < at {
            return trial.tellings;
        }
    }
    0
}

fn fail_to_tell_each<R: Threads + Wait + Sync + Abort>(rt: &R, alloc: Global, case: &Case<'_>) {
    let writes = [
        fail_to_tell(rt, alloc, case, 2, 0, Outcome::ReadFailed),
        fail_to_tell(rt, alloc, case, 0, 2, Outcome::WriteFailed),
    ];
    assert_eq!(rt; writes, [23, 24]);
}

#[test]
fn the_status_is_the_same_where_standard_error_fails(rt: HostRuntime) -> Result<(), Fail> {
    for case in &cases(rt.alloc())? {
        fail_to_tell_each(&rt, rt.alloc(), case);
    }
    Ok(())
}

/// Of the calls of devices that take or give at most `most` bytes, only each with a number that `every` divides is not
/// interrupted.
fn interrupt<R: Threads + Wait + Sync + Abort>(
    rt: &R,
    alloc: Global,
    case: &Case<'_>,
    most: usize,
    every: u64,
) {
    let device = Device {
        most,
        at: every,
        trouble: Trouble::Interruptions,
    };
    let devices = Devices {
        input: device,
        output: device,
        errors: device,
    };
    let trial = devices.run(rt, alloc, case);
    let is_interrupted = trial.reads > every && trial.writes >= every;
    assert_eq!(rt; (trial.outcome, is_interrupted), (Outcome::Right, true));
}

fn interrupt_at_each_pace<R: Threads + Wait + Sync + Abort>(
    rt: &R,
    alloc: Global,
    case: &Case<'_>,
) {
    for most in [1, 7, usize::MAX] {
        interrupt(rt, alloc, case, most, 2);
        interrupt(rt, alloc, case, most, 11);
    }
}

#[test]
fn interruptions_change_nothing(rt: HostRuntime) -> Result<(), Fail> {
    for case in &cases(rt.alloc())? {
        interrupt_at_each_pace(&rt, rt.alloc(), case);
    }
    for case in live_cases() {
        interrupt_at_each_pace(&rt, rt.alloc(), case);
    }
    Ok(())
}
