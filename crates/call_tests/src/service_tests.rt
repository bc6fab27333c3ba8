//! Calls of a service, one after the other, up to a full history.
ghost use Rattle.std.specs.Prelude.{◌<◌, ◌≤◌};

use crate::callers::Callers;
use mh_model::command::Event;
use mh_model::reply::Reply;
use mh_scan::crew_scan::CrewGate;
use mh_state::machine::Stop;
use mh_text::script::{Script, parse};
use std::alloc::Global;
use std::sync::Wait;
use std::test::Fail;
use std::thread::Threads;
use test_support::gates::{Seen, Watch};
use test_support::graph::{CYCLES_SEEN, cycles_output, cycles_script};

/// Whether these are the lines of the answers to the calls of a script.
fn answers_are<R: Threads + Wait, G: CrewGate>(
    rt: &R,
    alloc: Global,
    script: &Script,
    workers: usize,
    gate: &G,
    wanted: &[u8],
) -> Result<bool, Fail>
    requires { (0 < workers) × (workers ≤ 64) }
{
    let mut callers = Callers::new(rt, alloc, script.config(), workers, gate)?;
    callers.answers_are(alloc, script.events(), wanted)
}

/// Whether so many workers answer the script of three cycles, and what the hook sees that wants two of them.
fn cycles_by<R: Threads + Wait>(rt: &R, alloc: Global, workers: usize) -> Result<(bool, Seen), Fail>
    requires { (0 < workers) × (workers ≤ 64) }
{
    let script = parse(alloc, &cycles_script(alloc)?)?;
    let output = cycles_output(alloc)?;
    let gate = Watch::new(2);
    let is_right = answers_are(rt, alloc, &script, workers, &gate, &output)?;
    Ok((is_right, gate.seen()))
}

#[test]
fn two_workers_share_each_batch_of_a_service(rt: HostRuntime) -> Result<(), Fail> {
    for workers in [2, 7, 64] {
        let (is_right, seen) = cycles_by(&rt, rt.alloc(), workers)?;
        assert!(rt; is_right && seen == CYCLES_SEEN, "with {workers} workers");
    }
    Ok(())
}

/// Whether as many calls of an event are answered `ok` as a history has room for.
fn fills<R: Threads + Wait, G: CrewGate>(callers: &mut Callers<'_, R, G>, event: Event) -> bool {
    for _ in 0..1_000_000 {
        if !matches!(callers.call(event), Some(Ok(Reply::Done))) {
            return false;
        }
    }
    true
}

/// Whether each of these calls is answered that the history is full.
fn are_stopped<R: Threads + Wait, G: CrewGate>(
    callers: &mut Callers<'_, R, G>,
    events: &[Event],
) -> bool {
    for event in events {
        if !matches!(callers.call(*event), Some(Err(Stop::HistoryFull))) {
            return false;
        }
    }
    true
}

/// An event of each seat.
const EACH_SEAT: &[u8] =
    b"config 4 209 0 0\na clear 0\nb clear 0\nc clear 0\nd clear 0\ne clear 0\nf clear 0\ng clear 0\nh clear 0\n* dump\n";

/// Whether calls of a first event fill the history, and whether each of these calls is stopped then.
fn fills_and_stops<R: Threads + Wait, G: CrewGate>(
    callers: &mut Callers<'_, R, G>,
    events: &[Event],
) -> Option<[bool; 2]> {
    let first = *events.first()?;
    let is_filled = fills(callers, first);
    Some([is_filled, are_stopped(callers, events)])
}

/// The same of a service of its own, by an event of each seat.
fn fill_and_stop<R: Threads + Wait>(rt: &R, alloc: Global) -> Result<Option<[bool; 2]>, Fail> {
    let script = parse(alloc, EACH_SEAT)?;
    let gate = Watch::new(0);
    let mut callers = Callers::new(rt, alloc, script.config(), 2, &gate)?;
    Ok(fills_and_stops(&mut callers, script.events()))
}

#[test]
fn a_full_history_stops_every_seat(rt: HostRuntime) -> Result<(), Fail> {
    assert_eq!(rt; fill_and_stop(&rt, rt.alloc())?, Some([true, true]));
    Ok(())
}
