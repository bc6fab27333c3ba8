use crate::called::Called;
use crate::scripts::{KINDS, every_kind};
use crate::sweep::{Attempt, are_all_done, begin_with_plenty, refusals_of_last};
use mh_text::script::Script;
use std::alloc::Global;
use std::sync::Wait;
use std::test::Fail;
use std::thread::Threads;
use test_support::famine::Famine;

/// Makes all calls, each with more and more memory if it is refused. The last has to be refused first.
fn call_all<A: Attempt>(called: &mut A, famine: Option<&mut Famine>) -> Result<(), Fail> {
    let are_right = match famine {
        None => are_all_done(called, KINDS),
        Some(famine) => refusals_of_last(famine, called, KINDS)? > 0,
    };
    if !are_right {
        return Err(Fail::from("refused with memory at hand, or not without"));
    }
    Ok(())
}

/// What is reported after all calls.
fn told_after<A: Attempt + Drop>(
    mut called: A,
    famine: Option<&mut Famine>,
) -> Result<String, Fail> {
    call_all(&mut called, famine)?;
    called.told()
}

/// The logs of the seats after all calls.
fn logs_after<R: Threads + Wait>(
    rt: &R,
    alloc: Global,
    famine: Option<&mut Famine>,
    script: &Script,
) -> Result<String, Fail> {
    told_after(Called::new(rt, alloc, script)?, famine)
}

/// Whether they are the same as with memory at hand. A quantum is run after each third unit, and a cycle is always due.
fn logs_are_same<R: Threads + Wait>(
    rt: &R,
    alloc: Global,
    famine: &mut Famine,
) -> Result<bool, Fail> {
    let script = every_kind(alloc, b"config 8 209 8 3\n", 0)?;
    let found = logs_after(rt, alloc, Some(famine), &script)?;
    Ok(logs_after(rt, alloc, None, &script)? == found)
}

#[test]
fn each_call_is_refused_in_turn(rt: HostRuntime) -> Result<(), Fail> {
    let is_right = {
        let mut famine = begin_with_plenty(rt.alloc())?;
        logs_are_same(&rt, rt.alloc(), &mut famine)
    };
    assert!(rt; is_right?);
    Ok(())
}
