//! Crews that mark graphs and slots in runs of the program.

use crate::graph::{Marked, SLOTS, chain, wide_object};
use crate::program::printed;
use std::alloc::{AllocError, Global};
use std::sync::Wait;
use std::test::Fail;
use std::thread::Threads;
use test_support::gates::{Hold, Seen, Watch};
use test_support::graph::{CYCLES_SEEN, cycles_output, cycles_script};

/// Three cycles over the graph.
fn cycles(alloc: Global) -> Result<Marked, AllocError> {
    Ok(Marked {
        script: cycles_script(alloc)?,
        output: cycles_output(alloc)?,
        seen: CYCLES_SEEN,
    })
}

/// Whether a run prints what it has to, and what a hook sees of it if each batch is shared by so many workers at least.
fn seen_of<R: Threads + Wait + Sync>(
    rt: &R,
    alloc: Global,
    marked: &Marked,
    workers: &str,
    wanted: u32,
) -> Result<(bool, Seen), Fail> {
    let gate = Watch::new(wanted);
    let output = printed(rt, alloc, "run", workers, &marked.script, &gate)?;
    Ok((output.as_slice() == marked.output.as_slice(), gate.seen()))
}

/// Whether two workers at least share each batch of a run, however many there may be.
fn is_shared<R: Threads + Wait + Sync>(
    rt: &R,
    alloc: Global,
    marked: &Marked,
) -> Result<bool, Fail> {
    for workers in ["2", "7", "64"] {
        let (is_right, seen) = seen_of(rt, alloc, marked, workers, 2)?;
        if !is_right || seen != marked.seen {
            return Ok(false);
        }
    }
    Ok(true)
}

#[test]
fn two_workers_share_each_batch_of_a_run(rt: HostRuntime) -> Result<(), Fail> {
    let are_shared = [
        is_shared(&rt, rt.alloc(), &cycles(rt.alloc())?)?,
        is_shared(&rt, rt.alloc(), &wide_object(rt.alloc())?)?,
        is_shared(&rt, rt.alloc(), &chain(rt.alloc())?)?,
    ];
    assert_eq!(rt; are_shared, [true; 3]);
    Ok(())
}

const NOTHING_SEEN: Seen = Seen {
    passed: 0,
    cut: 0,
    faults: 0,
};

#[test]
fn one_worker_calls_no_gate(rt: HostRuntime) -> Result<(), Fail> {
    let (is_right, seen) = seen_of(&rt, rt.alloc(), &cycles(rt.alloc())?, "1", 1)?;
    assert!(rt; is_right && seen == NOTHING_SEEN);
    Ok(())
}

/// One worker is held at the first piece, and the other goes on to the next, and on to the last of four.
#[test]
fn a_worker_draws_on_while_another_is_held(rt: HostRuntime) -> Result<(), Fail> {
    for until in [1, 3] {
        let gate = Hold::new(until);
        let _ = printed(&rt, rt.alloc(), "run", "2", SLOTS, &gate)?;
        assert!(rt; gate.is_met());
    }
    Ok(())
}
