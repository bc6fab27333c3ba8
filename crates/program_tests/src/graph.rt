//! Scripts whose cycles crews mark.

use std::alloc::{AllocError, Global};
use test_support::gates::Seen;
use test_support::graph::{chain_script, graph_script, repeated, wide_script};

/// A cycle that crews mark: the script, what is answered to it, and what a hook sees that wants two workers.
#[derive(Drop)]
pub struct Marked {
    pub script: Vec<u8>,
    pub output: Vec<u8>,
    pub seen: Seen,
}

/// A script with its answers, of which the first are so often `ok`.
fn with_answers(
    alloc: Global,
    script: Vec<u8>,
    accepted: usize,
    answers: &[u8],
    seen: Seen,
) -> Result<Marked, AllocError> {
    let mut output = repeated(alloc, b"", b"ok\n", accepted)?;
    output.extend_from_slice(answers)?;
    Ok(Marked {
        script,
        output,
        seen,
    })
}

/// An object with 60 others in its fields.
pub fn wide_object(alloc: Global) -> Result<Marked, AllocError> {
    let script = wide_script(alloc)?;
    let answers =
        b"spent 399 phase mark\nspent 239 phase idle\nfree 5 live 61 old 0 phase idle cycle 1\n";
    let seen = Seen {
        passed: 6,
        cut: 2,
        faults: 0,
    };
    with_answers(alloc, script, 123, answers, seen)
}

/// A chain of 300 objects.
pub fn chain(alloc: Global) -> Result<Marked, AllocError> {
    let script = chain_script(alloc)?;
    let answers =
        b"spent 208 phase roots\nspent 208 phase mark\nspent 208 phase mark\nspent 208 phase mark\nspent 209 phase sweep\nspent 163 phase idle\nfree 2 live 300 old 0 phase idle cycle 1\n";
    let seen = Seen {
        passed: 300,
        cut: 0,
        faults: 0,
    };
    with_answers(alloc, script, 900, answers, seen)
}

/// A script of one session over the same graph, after each fortieth unit of which a quantum is run.
pub fn scheduled_script(alloc: Global) -> Result<Vec<u8>, AllocError> {
    let mut script = graph_script(alloc, b"config 32 1000 19 40\na new 0 8 0\n", 8, 60)?;
    for _ in 0..241 {
        script.extend_from_slice(b"a shape 0\n")?;
    }
    Ok(script)
}

/// What a hook sees of the scheduled quanta: their batches have 98 pieces, and seven of them more than one.
pub const SCHEDULED_SEEN: Seen = Seen {
    passed: 98,
    cut: 7,
    faults: 0,
};

/// The lines of the scheduled script's history that speak of quanta.
pub const SCHEDULED_QUANTA: &[u8] =
    b"s0 put 2 0 1 = ok units 1 999\ns0 new 2 1 0 = ok units 1 1000\ns0 shape 0 = shape 8 0 units 1 296\ns0 shape 0 = shape 8 0 units 1 999\ns0 shape 0 = shape 8 0 units 1 1000\ns0 shape 0 = shape 8 0 units 1 334\ns0 shape 0 = shape 8 0 units 1 999\ns0 shape 0 = shape 8 0 units 1 1000\n";

/// A cycle over 64 objects in the slots of four sessions, which are one batch.
pub const SLOTS: &[u8] =
    b"config 8 1000 0 0\na new 0 0 0\na new 1 0 0\na new 2 0 0\na new 3 0 0\na new 4 0 0\na new 5 0 0\na new 6 0 0\na new 7 0 0\na new 8 0 0\na new 9 0 0\na new 10 0 0\na new 11 0 0\na new 12 0 0\na new 13 0 0\na new 14 0 0\na new 15 0 0\nb new 0 0 0\nb new 1 0 0\nb new 2 0 0\nb new 3 0 0\nb new 4 0 0\nb new 5 0 0\nb new 6 0 0\nb new 7 0 0\nb new 8 0 0\nb new 9 0 0\nb new 10 0 0\nb new 11 0 0\nb new 12 0 0\nb new 13 0 0\nb new 14 0 0\nb new 15 0 0\nc new 0 0 0\nc new 1 0 0\nc new 2 0 0\nc new 3 0 0\nc new 4 0 0\nc new 5 0 0\nc new 6 0 0\nc new 7 0 0\nc new 8 0 0\nc new 9 0 0\nc new 10 0 0\nc new 11 0 0\nc new 12 0 0\nc new 13 0 0\nc new 14 0 0\nc new 15 0 0\nd new 0 0 0\nd new 1 0 0\nd new 2 0 0\nd new 3 0 0\nd new 4 0 0\nd new 5 0 0\nd new 6 0 0\nd new 7 0 0\nd new 8 0 0\nd new 9 0 0\nd new 10 0 0\nd new 11 0 0\nd new 12 0 0\nd new 13 0 0\nd new 14 0 0\nd new 15 0 0\n* start\n* quantum\n";

/// A thousand cycles over an object that leads to 1,080 others of 60 references each. All are grey at once but for those
/// that are marked already, so a front of 1,024 blocks costs 62,464 units.
pub fn front_script(alloc: Global) -> Result<Vec<u8>, AllocError> {
    let mut script = Vec::from_slice(alloc, b"config 300 1000000 0 0\na new 0 1080 0\n")?;
    for field in 0..1_080_u32 {
        let lines = format!(in alloc; "a new 1 60 0\na put 0 {field} 1\n")?;
        script.extend_from_slice(lines.as_bytes())?;
    }
    for _ in 0..1_000 {
        script.extend_from_slice(b"* start\n* quantum\n")?;
    }
    Ok(script)
}
