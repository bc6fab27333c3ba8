//! Runs.
ghost use Rattle.std.specs.Prelude.{◌<◌, ◌≤◌};

use crate::answers::lines_of;
use mh_model::command::Event;
use mh_model::config::Config;
use mh_model::reply::Reply;
use mh_scan::gate::Open;
use mh_state::run::{RunFault, run};
use mh_text::script::parse;
use std::alloc::Global;
use std::test::Fail;
use std::thread::Threads;

const SCRIPT: &[u8] =
    b"config 4 353 0 0\na new 0 1 1\na put 0 0 0\na get 1 0 0\na write 1 0 7\na read 0 0\na shape 0\na copy 2 1\na clear 1\na post 9 2\nb take 2 9\na same 0 1\na end\na shape 0\n* start\n* quantum\n* left\n* stat\n* dump\n* report 300\n";

const ANSWERS: &str =
    "ok\nok\nok\nok\nnumber 7\nshape 1 1\nok\nok\nok\nok\nno\nok\nrefused 6 ended\nok\nspent 339 phase idle\nleft 0\nfree 3 live 1 old 0 phase idle cycle 1\ndump P0 C6 - 0=0.0\nmutator 13 collector 339 quanta 1 greatest 339 window 300 least 0 floor none\n";

/// The replies of a run, of which no clause speaks: what those of `run` say is long.
fn replies_of<R: Threads>(
    rt: &R,
    alloc: Global,
    config: Config,
    events: &[Event],
    workers: usize,
) -> Result<Vec<Reply>, RunFault>
    requires { (0 < workers) × (workers ≤ 64) }
{
    Ok(run(rt, alloc, config, events, workers, &Open)?.replies)
}

/// Whether a run gives the answers to the script.
fn is_answered<R: Threads>(rt: &R, alloc: Global, workers: usize) -> Result<bool, Fail>
    requires { (0 < workers) × (workers ≤ 64) }
{
    let script = parse(alloc, SCRIPT)?;
    let replies = replies_of(rt, alloc, script.config(), script.events(), workers)?;
    Ok(lines_of(alloc, &replies)?.as_str() == ANSWERS)
}

#[test]
fn a_run_answers_each_event(rt: HostRuntime) -> Result<(), Fail> {
    assert!(rt; is_answered(&rt, rt.alloc(), 1)?);
    assert!(rt; is_answered(&rt, rt.alloc(), 7)?);
    Ok(())
}
