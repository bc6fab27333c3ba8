use crate::cases::{Case, MIGRATE, NONE, RACE, RUN};
use crate::trial::{Devices, Outcome, SOUND_DEVICES, Trial};
use crate::trouble::{Way, trouble_each_write};
use std::alloc::{AllocError, Global};
use std::io::ErrorKind;
use std::process::Abort;
use std::sync::Wait;
use std::test::Fail;
use std::thread::Threads;
use test_support::graph::repeated;
use test_support::troubled::{Device, Trouble};

const FAILURE: Trouble = Trouble::Error(ErrorKind::BrokenPipe);

/// A text and an output that have one line so many times after their first.
#[derive(Drop)]
struct LongCase<'a> {
    words: &'a [&'a [u8]],
    first: &'a [u8],
    line: &'a [u8],
    first_output: &'a [u8],
    line_output: &'a [u8],
    times: usize,
}

const RUN_OF_MANY: LongCase<'static> = LongCase {
    words: RUN,
    first: b"config 4 209 0 0\n",
    line: b"a clear 0\n",
    first_output: b"",
    line_output: b"ok\n",
    times: 30_000,
};

const LONG_CASES: &[LongCase<'static>] = &[
    RUN_OF_MANY,
    LongCase {
        words: RACE,
        first: b"config 4 209 0 0\n",
        line: b"a clear 0\n",
        first_output: b"history 2 rules 2 4 209 0 0\n",
        line_output: b"s0 clear 0 = ok units 1 0\n",
        times: 3_000,
    },
    LongCase {
        words: MIGRATE,
        first: b"history 1\n",
        line: b"s0 clear 0 = ok\n",
        first_output: b"history 2 rules 1 4 353 0 0\n",
        line_output: b"s0 clear 0 = ok units 1 0\n",
        times: 3_000,
    },
];

impl LongCase<'_> {
    fn input(&self, alloc: Global) -> Result<Vec<u8>, AllocError> {
        repeated(alloc, self.first, self.line, self.times)
    }

    fn output(&self, alloc: Global) -> Result<Vec<u8>, AllocError> {
        repeated(alloc, self.first_output, self.line_output, self.times)
    }

    fn case<'a>(&'a self, input: &'a [u8], outputs: &'a [&'a [u8]]) -> Case<'a> {
        Case {
            words: self.words,
            input,
            outputs,
            told: NONE,
            status: 0,
        }
    }
}

fn fail_long<R: Threads + Wait + Sync + Abort>(
    rt: &R,
    alloc: Global,
    long: &LongCase<'_>,
    way: &Way,
) -> Result<(), AllocError> {
    let input = long.input(alloc)?;
    let output = long.output(alloc)?;
    trouble_each_write(rt, alloc, &long.case(&input, &[output.as_slice()]), way);
    Ok(())
}

#[test]
fn each_write_of_several_pieces_fails(rt: HostRuntime) -> Result<(), Fail> {
    let way = Way {
        most: 10_000,
        trouble: FAILURE,
        outcome: Outcome::WriteFailed,
    };
    for long in LONG_CASES {
        fail_long(&rt, rt.alloc(), long, &way)?;
    }
    Ok(())
}

/// Replies are written in pieces of some 65,536 bytes.
const AFTER_A_PIECE: Devices = Devices {
    output: Device {
        most: 65_538,
        at: 2,
        trouble: FAILURE,
    },
    ..SOUND_DEVICES
};

fn run_long<R: Threads + Wait + Sync>(
    rt: &R,
    alloc: Global,
    long: &LongCase<'_>,
    devices: &Devices,
) -> Result<Trial, AllocError> {
    let input = long.input(alloc)?;
    let output = long.output(alloc)?;
    Ok(devices.run(rt, alloc, &long.case(&input, &[output.as_slice()])))
}

#[test]
fn a_writer_fails_after_a_piece(rt: HostRuntime) -> Result<(), Fail> {
    let trial = run_long(&rt, rt.alloc(), &RUN_OF_MANY, &AFTER_A_PIECE)?;
    let found = (trial.outcome, trial.written);
    assert_eq!(rt; found, (Outcome::WriteFailed, 65_538));
    Ok(())
}

/// So many bytes are more than a script may have.
const TOO_MANY: usize = 1 << 27;

/// The program on a text that is too long, of whose reads one fails.
fn read_too_much<R: Threads + Wait + Sync>(
    rt: &R,
    alloc: Global,
    words: &[&[u8]],
    text: &[u8],
    at: u64,
) -> Trial {
    let case = Case {
        words,
        input: text,
        outputs: &[b"refused 10 line 0\n"],
        told: b"metroheap: line 0: a script has at most 67108864 bytes\n",
        status: 1,
    };
    let devices = Devices {
        input: Device {
            most: usize::MAX,
            at,
            trouble: FAILURE,
        },
        ..SOUND_DEVICES
    };
    devices.run(rt, alloc, &case)
}

/// It is read until it gave too much, and the last read may fail.
fn expect_an_end<R: Threads + Wait + Sync + Abort>(
    rt: &R,
    alloc: Global,
    words: &[&[u8]],
    text: &[u8],
) {
    let sound = read_too_much(rt, alloc, words, text, 0);
    let last = read_too_much(rt, alloc, words, text, sound.reads);
    let next = read_too_much(rt, alloc, words, text, sound.reads.wrapping_add(1));
    assert!(rt; sound.unread > 0);
    assert_eq!(rt;
        [sound.outcome, last.outcome, next.outcome],
        [Outcome::Right, Outcome::ReadFailed, Outcome::Right]
    );
}

#[test]
fn a_reader_is_read_until_it_gave_too_much(rt: HostRuntime) -> Result<(), Fail> {
    let mut text = Vec::new(rt.alloc());
    text.resize(TOO_MANY, b'#')?;
    expect_an_end(&rt, rt.alloc(), RUN, text.as_slice());
    expect_an_end(&rt, rt.alloc(), RACE, text.as_slice());
    Ok(())
}
