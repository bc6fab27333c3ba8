use crate::callers::Callers;
use mh_model::command::Event;
use mh_model::history::Entry;
use mh_model::reply::Reply;
use mh_scan::gate::Open;
use mh_state::machine::Stop;
use mh_text::script::parse;
use std::alloc::Global;
use std::sync::Wait;
use std::test::Fail;
use std::thread::Threads;
use test_support::famine::Famine;

static OPEN: Open = Open;

/// The first call is that of one seat, and all others are those of another.
const SCRIPT: &[u8] =
    b"config 4 209 0 0\nb new 0 0 1\na new 0 0 1\na post 0 0\na take 1 0\na same 0 1\na clear 0\na shape 1\na end\n";

/// Whether these are the events of a history.
fn are_entered(history: &[Entry], events: &[Event]) -> bool {
    if history.len() != events.len() {
        return false;
    }
    for (entry, event) in history.iter().zip(events) {
        if entry.event != *event {
            return false;
        }
    }
    true
}

/// The answer to the first call, which is made in a famine if it is to be starved, and whether all others are answered
/// after it and alone are in the history.
fn answer_first<R: Threads + Wait>(
    rt: &R,
    alloc: Global,
    is_starved: bool,
) -> Result<(Option<Result<Reply, Stop>>, bool), Fail> {
    let script = parse(alloc, SCRIPT)?;
    let (first, others) = script.events().split_first().ok_or("no event")?;
    let mut callers = Callers::new(rt, alloc, script.config(), 1, &OPEN)?;
    let famine = match is_starved {
        true => Some(Famine::begin(alloc)?),
        false => None,
    };
    let answer = callers.call(*first);
    drop(famine);
    for event in others {
        let _ = callers.call(*event).ok_or("no seat")??;
    }
    let history = callers.close().ok_or("not closed")?;
    Ok((answer, are_entered(history.as_slice(), others)))
}

#[test]
fn a_starved_seat_stops_alone(rt: HostRuntime) -> Result<(), Fail> {
    // This also uses the stack as deep as what follows a famine needs it.
    let (answered, are_alone) = answer_first(&rt, rt.alloc(), false)?;
    assert!(rt; matches!(answered, Some(Ok(Reply::Done))) && !are_alone);
    let (starved, are_others_entered) = answer_first(&rt, rt.alloc(), true)?;
    assert!(rt; matches!(starved, Some(Err(Stop::NoMemory))) && are_others_entered);
    Ok(())
}
