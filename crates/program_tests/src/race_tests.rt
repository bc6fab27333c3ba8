//! Races whose sessions have to run at once, and one whose quanta are scanned by crews.
use crate::graph::{SCHEDULED_QUANTA, SCHEDULED_SEEN, scheduled_script};
use crate::program::printed;
use std::alloc::Global;
use std::sync::Wait;
use std::test::Fail;
use std::thread::Threads;
use test_support::gates::{Arrivals, Seen, Watch};

/// Whether so many sessions of a script, the desk among them, are in the race at once. Each is held until all have come.
fn run_at_once<R: Threads + Wait + Sync>(
    rt: &R,
    alloc: Global,
    script: &[u8],
    sessions: u32,
) -> Result<bool, Fail> {
    let gate = Arrivals::new(sessions);
    let _ = printed(rt, alloc, "race", "2", script, &gate)?;
    Ok(gate.sessions().is_each_once(sessions))
}

const NONE: &[u8] = b"config 4 209 0 0\n";

const TWO: &[u8] = b"config 4 209 0 0\na new 0 0 1\nb new 0 0 1\n";

const THREE: &[u8] =
    b"config 4 353 4 3\na new 0 1 0\nb new 0 0 0\nb post 0 0\na take 1 0\na put 0 0 1\nc take 0 0\nc end\n";

const NINE: &[u8] =
    b"config 4 209 0 0\na new 0 0 1\nb new 0 0 1\nc new 0 0 1\nd new 0 0 1\ne new 0 0 1\nf new 0 0 1\ng new 0 0 1\nh new 0 0 1\ni new 0 0 1\n* start\n* quantum\na post 0 0\nh take 1 0\nh end\n* stat\n* dump\n";

#[test]
fn all_sessions_run_at_once(rt: HostRuntime) -> Result<(), Fail> {
    let at_once = [
        run_at_once(&rt, rt.alloc(), NONE, 0)?,
        run_at_once(&rt, rt.alloc(), TWO, 2)?,
        run_at_once(&rt, rt.alloc(), THREE, 3)?,
        run_at_once(&rt, rt.alloc(), NINE, 9)?,
    ];
    assert_eq!(rt; at_once, [true; 4]);
    Ok(())
}

/// The first call starts a cycle and scans what it made.
#[test]
fn a_session_passes_its_gate_before_its_first_call(rt: HostRuntime) -> Result<(), Fail> {
    let gate = Arrivals::new(1);
    let script = b"config 4 1000 4 1\na new 0 0 0\n";
    let _ = printed(&rt, rt.alloc(), "race", "2", script, &gate)?;
    assert!(rt; gate.scans() == (1, 0));
    Ok(())
}

/// The lines of a history that state units of the collector.
fn quanta_of(alloc: Global, history: &[u8]) -> Result<Vec<u8>, Fail> {
    let mut quanta = Vec::new(alloc);
    for line in history.split_inclusive(|byte| *byte == b'\n').skip(1) {
        if !line.ends_with(b" 0\n") {
            quanta.extend_from_slice(line)?;
        }
    }
    Ok(quanta)
}

/// Whether the history of a race has the lines that speak of quanta, and what a hook sees of it that wants two workers.
fn seen_of_quanta<R: Threads + Wait + Sync>(
    rt: &R,
    alloc: Global,
    workers: &str,
) -> Result<(bool, Seen), Fail> {
    let script = scheduled_script(alloc)?;
    let gate = Watch::new(2);
    let history = printed(rt, alloc, "race", workers, &script, &gate)?;
    let quanta = quanta_of(alloc, &history)?;
    Ok((quanta.as_slice() == SCHEDULED_QUANTA, gate.seen()))
}

#[test]
fn two_workers_share_each_batch_of_a_race(rt: HostRuntime) -> Result<(), Fail> {
    for workers in ["2", "7", "64"] {
        let (has_quanta, seen) = seen_of_quanta(&rt, rt.alloc(), workers)?;
        assert!(rt;
            has_quanta && seen == SCHEDULED_SEEN,
            "with {workers} workers"
        );
    }
    Ok(())
}
