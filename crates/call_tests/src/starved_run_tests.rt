ghost use Rattle.std.specs.Prelude.{◌<◌, ◌≤◌};

use crate::answers::lines_of;
use crate::asked::{Asked, Course, told_by};
use crate::scripts::{every_kind, wide};
use crate::sweep::{MOST_STEPS, PLENTY, STEP, begin_with_plenty};
use mh_model::reply::Reply;
use mh_state::run::{RunFault, run};
use mh_text::script::Script;
use std::alloc::Global;
use std::test::Fail;
use std::thread::Threads;
use test_support::famine::Famine;
use test_support::gates::Watch;

/// All events, with memory at hand, up to the lines of all replies.
#[derive(Clone, Copy)]
struct AllReplies;

impl Course for AllReplies {
    fn run(&mut self, asked: &mut Asked<'_>) -> Result<String, Fail> {
        let _ = asked.go_to_end()?;
        asked.replies()
    }
}

/// The replies of a run that stops.
fn stopped_replies<R: Threads>(
    rt: &R,
    alloc: Global,
    script: &Script,
    workers: usize,
) -> Option<Vec<Reply>>
    requires { (0 < workers) × (workers ≤ 64) }
{
    let gate = Watch::new(0);
    let outcome = run(rt, alloc, script.config(), script.events(), workers, &gate);
    let RunFault { stop: _, replies } = outcome.err()?;
    Some(replies)
}

/// The same of a run with so many bytes left.
fn stopped_with<R: Threads>(
    rt: &R,
    alloc: Global,
    famine: &mut Famine,
    script: &Script,
    workers: usize,
    bytes: usize,
) -> Result<Option<Vec<Reply>>, Fail>
    requires { (0 < workers) × (workers ≤ 64) }
{
    famine.leave(bytes)?;
    let replies = stopped_replies(rt, alloc, script, workers);
    famine.leave(PLENTY)?;
    Ok(replies)
}

/// Whether these replies are the first of those with memory at hand.
fn are_first(alloc: Global, replies: &[Reply], wanted: &str) -> Result<bool, Fail> {
    Ok(wanted.starts_with(lines_of(alloc, replies)?.as_str()))
}

/// The most replies of a run that stops. Those of each have to be the first of these.
fn most_replies<R: Threads>(
    rt: &R,
    alloc: Global,
    famine: &mut Famine,
    script: &Script,
    workers: usize,
    wanted: &str,
) -> Result<usize, Fail>
    requires { (0 < workers) × (workers ≤ 64) }
{
    let mut most = 0;
    for step in 0..MOST_STEPS {
        let Some(replies) = stopped_with(rt, alloc, famine, script, workers, STEP * step)? else {
            return Ok(most);
        };
        if !are_first(alloc, &replies, wanted)? {
            return Err(Fail::from("other replies"));
        }
        most = most.max(replies.len());
    }
    Err(Fail::from("refused with memory at hand"))
}

/// The same in a famine, and of the replies with memory at hand.
fn most_in_famine<R: Threads>(
    rt: &R,
    alloc: Global,
    script: &Script,
    workers: usize,
) -> Result<usize, Fail>
    requires { (0 < workers) × (workers ≤ 64) }
{
    let mut famine = begin_with_plenty(alloc)?;
    let wanted = told_by(alloc, script, &mut AllReplies)?;
    most_replies(rt, alloc, &mut famine, script, workers, &wanted)
}

#[test]
fn a_run_stops_with_the_replies_of_what_was_done(rt: HostRuntime) -> Result<(), Fail> {
    let most = {
        let script = every_kind(rt.alloc(), b"config 8 400 0 0\n", 0)?;
        most_in_famine(&rt, rt.alloc(), &script, 1)
    };
    assert!(rt; most? >= 16);
    Ok(())
}

#[test]
fn a_run_by_a_crew_stops_alike(rt: HostRuntime) -> Result<(), Fail> {
    let most = {
        let script = wide(rt.alloc())?;
        most_in_famine(&rt, rt.alloc(), &script, 2)
    };
    assert!(rt; most? >= 64);
    Ok(())
}
