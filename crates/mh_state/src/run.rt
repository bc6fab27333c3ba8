//! Whole runs.
//!
//! A run by 1 to 64 workers gives the replies, the heap, the free pages and the trace of the model's machine
//! (`machine`). So it keeps the promise of `mh_promise` (`promise`). A run that stops promises this of the events that
//! it did (`so_far`). It stops for a full history exactly when these are 1,000,000, and only if there are more. If it
//! did any events, it stops only with more left.
//!
//! A program that has its events in memory calls `run`: here tests alone do. `metroheap run` writes each reply and keeps
//! none (`run_script` of `mh_script`).
//!
//! It opens a machine before anything else, so no clause says when memory is refused to it. It asks for a `CrewGate`, a
//! hook that the threads of a crew can call. For one thread `Gate` alone would do.
ghost use Rattle.std.specs.Prelude.{◌≡◌, ◌<◌, ◌≤◌, IfOk, OnOk, IfErr, OnErr, IsErrOf, length, vec_len};
ghost use Rattle.mh_model.specs.Limits.{most_entries};
ghost use Rattle.mh_promise.specs.{Runs.{IsTheMachines, AreAnsweredSoFar}, Replays.IsReplay};
ghost use Rattle.mh_promise.specs.Promise.{IsPromised, IsPromisedSoFar};
ghost use Rattle.mh_state.specs.{Whole.shown_outcome, Auxiliary.{GoesOn, HasDone, IsStopped}};
ghost use Rattle.mh_machine.specs.declared.machine.Stop.{Stop};

use mh_machine::machine::{Machine, Stop};
use mh_model::command::Event;
use mh_model::config::Config;
use mh_model::memory::NoMemory;
use mh_model::reply::Reply;
use mh_paged::paged::PagedHeap;
use mh_promise::promise::{runs_keep_their_promise, stopped_runs_keep_their_promise};
use mh_promise::replays::events_keep_the_replay;
use mh_report::trace::Trace;
use mh_scan::crew_scan::{CrewGate, CrewScan};
use mh_scan::scan::Scanner;
use std::alloc::Global;
use std::thread::Threads;
use thiserror::Error;

/// What a run gives back: the reply to each event, the heap after the last, how many of its pages are free, and the trace.
#[derive(Drop)]
pub struct Outcome {
    pub replies: Vec<Reply>,
    pub heap: PagedHeap,
    pub free: u64,
    pub trace: Trace,
}

/// Why a run stopped, and the replies to the events that it did.
#[derive(Debug, Drop, Error)]
#[error("{stop}")]
pub struct RunFault {
    pub stop: Stop,
    pub replies: Vec<Reply>,
}

/// Does an event, and keeps its reply.
fn go_on<S: Scanner>(
    machine: &mut Machine,
    replies: &mut Vec<Reply>,
    event: Event,
    scanner: &mut S,
) -> Result<(), Stop>
    ensures done { OnOk result (GoesOn machine.old replies.old.items event machine.new replies.new.items) }
    ensures machine { OnErr result (machine.new ≡ machine.old) }
    ensures replies { OnErr result (replies.new.items ≡ replies.old.items) }
    ensures full { IsErrOf result Stop.HistoryFull → most_entries ≤ machine.old.done }
    ensures ends { most_entries ≤ machine.old.done → IsErrOf result Stop.HistoryFull }
{
    if !machine.has_history_room() {
        return Err(Stop::HistoryFull);
    }
    if replies.reserve(1).is_err() {
        return Err(Stop::NoMemory);
    }
    let reply = machine.step_in_room(event, scanner)?;
    replies.push_reserved(reply);
    Ok(())
}

/// Does events one by one, up to one that is refused.
fn go_on_with_all<S: Scanner>(
    machine: &mut Machine,
    replies: &mut Vec<Reply>,
    events: &[Event],
    scanner: &mut S,
) -> Result<(), Stop>
    ensures done { OnOk result ((config : Config) → HasDone config events.now 0 replies.old.items machine.old → HasDone config events.now (length events.now) replies.new.items machine.new) }
    ensures stopped { IfErr result (λ stop. (config : Config) → HasDone config events.now 0 replies.old.items machine.old → IsStopped config events.now replies.new.items machine.new stop) }
{
    events_keep_the_replay();
    for event in events {
        go_on(machine, replies, *event, scanner)?;
    }
    Ok(())
}

/// Does events one by one from the first machine on.
fn replay<S: Scanner>(
    alloc: Global,
    config: Config,
    events: &[Event],
    scanner: &mut S,
) -> Result<(Machine, Vec<Reply>), RunFault>
    ensures replay { IfOk result (λ done. IsReplay config events.now done.1.items done.0.machine) }
    ensures so_far { IfErr result (λ fault. AreAnsweredSoFar config events.now fault.replies.items) }
    ensures full { IfErr result (λ fault. fault.stop ≡ Stop.HistoryFull → vec_len fault.replies ≡ most_entries) }
    ensures more { IfErr result (λ fault. fault.stop ≡ Stop.HistoryFull → most_entries < length events.now) }
    ensures stops { IfErr result (λ fault. vec_len fault.replies ≡ most_entries → fault.stop ≡ Stop.HistoryFull) }
    ensures left { IfErr result (λ fault. 0 < vec_len fault.replies → vec_len fault.replies < length events.now) }
    ensures ends { OnOk result (length events.now ≤ most_entries) }
{
    events_keep_the_replay();
    let mut replies = Vec::new(alloc);
    let mut machine = match Machine::open(alloc, config) {
        Err(NoMemory) => {
            let stop = Stop::NoMemory;
            return Err(RunFault { stop, replies });
        }
        Ok(machine) => machine,
    };
    match go_on_with_all(&mut machine, &mut replies, events, scanner) {
        Ok(()) => Ok((machine, replies)),
        Err(stop) => Err(RunFault { stop, replies }),
    }
}

/// Does all events, the cycles by as many workers at most as are asked for. A run that stops did the events before the one
/// that it stopped at, and that one not at all; one for which no memory could be opened did none.
pub fn run<R: Threads, G: CrewGate>(
    rt: &R,
    alloc: Global,
    config: Config,
    events: &[Event],
    workers: usize,
    gate: &G,
) -> Result<Outcome, RunFault>
    requires { (0 < workers) × (workers ≤ 64) }
    ensures machine { IfOk result (λ outcome. IsTheMachines config events.now (shown_outcome outcome)) }
    ensures promise { IfOk result (λ outcome. IsPromised config events.now (shown_outcome outcome)) }
    ensures so_far { IfErr result (λ fault. IsPromisedSoFar config events.now fault.replies.items) }
    ensures full { IfErr result (λ fault. fault.stop ≡ Stop.HistoryFull → vec_len fault.replies ≡ most_entries) }
    ensures more { IfErr result (λ fault. fault.stop ≡ Stop.HistoryFull → most_entries < length events.now) }
    ensures stops { IfErr result (λ fault. vec_len fault.replies ≡ most_entries → fault.stop ≡ Stop.HistoryFull) }
    ensures left { IfErr result (λ fault. 0 < vec_len fault.replies → vec_len fault.replies < length events.now) }
    ensures ends { OnOk result (length events.now ≤ most_entries) }
{
    runs_keep_their_promise();
    stopped_runs_keep_their_promise();
    let mut scanner = CrewScan::new(rt, alloc, workers, gate);
    let (machine, replies) = replay(alloc, config, events, &mut scanner)?;
    let free = machine.heap().free_pages();
    let (heap, trace) = machine.into_parts();
    Ok(Outcome {
        replies,
        heap,
        free,
        trace,
    })
}
