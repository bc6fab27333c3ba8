//! The program over devices that have troubles.
use crate::cases::Case;
use crate::program::launch;
use std::alloc::Global;
use std::sync::Wait;
use std::thread::Threads;
use test_support::environment::Words;
use test_support::troubled::{Device, Trouble, Troubled};

/// The three devices of the program.
#[derive(Clone, Copy)]
pub struct Devices {
    pub input: Device,
    pub output: Device,
    pub errors: Device,
}

const SOUND: Device = Device {
    most: usize::MAX,
    at: 0,
    trouble: Trouble::NoByte,
};

/// Devices without a trouble. Standard error takes five bytes at a call.
pub const SOUND_DEVICES: Devices = Devices {
    input: SOUND,
    output: SOUND,
    errors: Device {
        most: 5,
        at: 0,
        trouble: Trouble::NoByte,
    },
};

/// How the program ended.
#[derive(Clone, Copy, Debug, PartialEq, Eq)]
pub enum Outcome {
    /// As it does if no device fails.
    Right,
    /// With what may be written before a read fails, and a line that says that one did after those on refused lines.
    ReadFailed,
    /// With less than the output, a prefix of it, and a line that says that a write failed.
    WriteFailed,
    /// With nothing read or written, and what is wrong with the words reported.
    WordsRefused,
    Other,
}

/// What the program did.
#[derive(Clone, Copy)]
pub struct Trial {
    pub outcome: Outcome,
    /// How many calls the devices had.
    pub reads: u64,
    pub writes: u64,
    pub tellings: u64,
    pub unread: usize,
    pub written: usize,
}

const READ_FAILED: &[u8] = b"metroheap: read failed\n";

const WRITE_FAILED: &[u8] = b"metroheap: write failed\n";

/// Whether this was reported, or a prefix of it if standard error failed.
fn is_told(errors: &Troubled<'_>, text: &[u8]) -> bool {
    let told = errors.taken.as_slice();
    told == text
        || (errors.device.at > 0 && errors.device.at == errors.calls && text.starts_with(told))
}

/// Whether a fault was reported, and before it the lines that were refused until then.
fn is_fault_told(case: &Case<'_>, errors: &Troubled<'_>, fault: &[u8]) -> bool {
    let told = errors.taken.as_slice();
    if is_told(errors, fault) {
        return true;
    }
    if !case.is_live() || !told.ends_with(fault) {
        return false;
    }
    let before = &told[..told.len() - fault.len()];
    before.ends_with(b"\n") && case.told.starts_with(before)
}

/// Whether what was reported begins so, or as far as standard error took it.
fn begins_to_tell(errors: &Troubled<'_>, text: &[u8]) -> bool {
    is_told(errors, text) || (errors.calls > 0 && errors.taken.as_slice().starts_with(text))
}

/// How a program ended that failed.
fn failure(
    case: &Case<'_>,
    input: &Troubled<'_>,
    output: &Troubled<'_>,
    errors: &Troubled<'_>,
    status: u8,
) -> Outcome {
    match status {
        3
            if case.is_written_early(output.taken.as_slice())
                && is_fault_told(case, errors, READ_FAILED) => { Outcome::ReadFailed }
        3 if case.is_begun(output.taken.as_slice()) && is_fault_told(case, errors, WRITE_FAILED) =>
            { Outcome::WriteFailed }
        2 if input.calls == 0 && output.calls == 0 && begins_to_tell(errors, case.told) => {
            Outcome::WordsRefused
        }
        _ => Outcome::Other,
    }
}

impl Devices {
    /// Runs the program on a case.
    pub fn run<R: Threads + Wait + Sync>(&self, rt: &R, alloc: Global, case: &Case<'_>) -> Trial {
        let mut input = self.input.reader(alloc, case.input);
        let mut output = self.output.writer(alloc);
        let mut errors = self.errors.writer(alloc);
        let words = Words(case.words);
        let status = launch(rt, alloc, &words, &mut input, &mut output, &mut errors);
        let is_right = status == case.status
            && is_told(&errors, case.told)
            && case.is_output(output.taken.as_slice());
        let outcome = if is_right {
            Outcome::Right
        } else {
            failure(case, &input, &output, &errors, status)
        };
        Trial {
            outcome,
            reads: input.calls,
            writes: output.calls,
            tellings: errors.calls,
            unread: input.bytes.len(),
            written: output.taken.len(),
        }
    }
}
