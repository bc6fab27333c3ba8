//! Texts whose output is known, while memory is refused.
use crate::calls::{Call, Reading, Told, Wanted};
use crate::cases::{
    AUDIT, CHECK, CHECK_SESSIONS, GENERATE, LIVE, LIVE_WORLD, MIGRATE, RACE, RANDOM_SCRIPT, RUN,
    RUN_HISTORY,
};
use crate::graph::wide_object;
use crate::sweep::check;
use crate::texts::{
    BAD_HISTORY, BAD_NUMBER, BAD_RECORD, BAD_SEEN, BAD_UNSAID, COLLECTED, COLLECTED_OUTPUT,
    COLLECTED_STEPS, CYCLE, FIRST_BAD, HISTORY, LEGAL, LINES_ANSWERED, LINES_IN_A_WORLD,
    LOOKED_THROUGH, MIGRATE_CYCLES, RECORD, REFUSED, REFUSED_OUTPUT, REFUSED_REASON, RUN_BY_TWO,
    STEPS, crowded, crowded_output,
};
use std::alloc::{AllocError, Global};
use std::process::Abort;
use std::sync::Wait;
use std::test::Fail;
use std::thread::Threads;
use test_support::graph::repeated;

/// A call on a history of which the third entry is bad, which is reported.
fn bad_entry<'a>(words: &'a [&'a [u8]], history: &'a [u8]) -> Call<'a> {
    Call {
        told: Told::Line {
            reason: BAD_NUMBER,
            other: b"metroheap: an entry is bad\n",
        },
        status: 4,
        ..Call::known(words, history, FIRST_BAD)
    }
}

/// The call is made with its words read before memory is refused, and then with them read within.
fn check_both<R: Threads + Wait + Sync + Abort>(
    rt: &R,
    alloc: Global,
    call: Call<'_>,
) -> Result<(), AllocError> {
    check(rt, alloc, call, 1)?;
    let whole = Call {
        reading: Reading::Within,
        ..call
    };
    check(rt, alloc, whole, 1)?;
    Ok(())
}

#[test]
fn scripts_that_are_run(rt: HostRuntime) -> Result<(), Fail> {
    let call = Call::known(RUN, COLLECTED, COLLECTED_OUTPUT);
    check_both(&rt, rt.alloc(), call)?;
    Ok(())
}

#[test]
fn scripts_that_are_refused(rt: HostRuntime) -> Result<(), Fail> {
    let call = Call {
        told: Told::Line {
            reason: REFUSED_REASON,
            other: b"metroheap: the script is outside the grammar\n",
        },
        status: 1,
        ..Call::known(RUN, REFUSED, REFUSED_OUTPUT)
    };
    check_both(&rt, rt.alloc(), call)?;
    Ok(())
}

#[test]
fn histories_that_are_checked(rt: HostRuntime) -> Result<(), Fail> {
    check_both(&rt, rt.alloc(), Call::known(CHECK, HISTORY, LEGAL))?;
    check_both(&rt, rt.alloc(), bad_entry(CHECK, BAD_HISTORY))?;
    Ok(())
}

#[test]
fn records_that_are_audited(rt: HostRuntime) -> Result<(), Fail> {
    check_both(&rt, rt.alloc(), Call::known(AUDIT, RECORD, LEGAL))?;
    check_both(&rt, rt.alloc(), bad_entry(AUDIT, BAD_RECORD))?;
    Ok(())
}

#[test]
fn histories_that_are_migrated(rt: HostRuntime) -> Result<(), Fail> {
    check_both(&rt, rt.alloc(), Call::known(MIGRATE, HISTORY, RECORD))?;
    check_both(&rt, rt.alloc(), bad_entry(MIGRATE, BAD_HISTORY))?;
    Ok(())
}

#[test]
fn histories_of_runs(rt: HostRuntime) -> Result<(), Fail> {
    check_both(&rt, rt.alloc(), Call::known(RUN_HISTORY, CYCLE, RECORD))?;
    Ok(())
}

#[test]
fn steps_of_runs(rt: HostRuntime) -> Result<(), Fail> {
    let call = Call::known(STEPS, COLLECTED, COLLECTED_STEPS);
    check_both(&rt, rt.alloc(), call)?;
    Ok(())
}

#[test]
fn random_scripts(rt: HostRuntime) -> Result<(), Fail> {
    let call = Call::known(GENERATE, COLLECTED, RANDOM_SCRIPT);
    check_both(&rt, rt.alloc(), call)?;
    Ok(())
}

#[test]
fn histories_by_what_sessions_see(rt: HostRuntime) -> Result<(), Fail> {
    let legal = Call {
        told: Told::Line {
            reason: LOOKED_THROUGH,
            other: LOOKED_THROUGH,
        },
        ..Call::known(CHECK_SESSIONS, HISTORY, LEGAL)
    };
    check_both(&rt, rt.alloc(), legal)?;
    let bad = Call {
        told: Told::Line {
            reason: BAD_SEEN,
            other: BAD_UNSAID,
        },
        status: 4,
        ..Call::known(CHECK_SESSIONS, BAD_RECORD, FIRST_BAD)
    };
    check_both(&rt, rt.alloc(), bad)?;
    Ok(())
}

#[test]
fn lines_that_are_answered_one_by_one(rt: HostRuntime) -> Result<(), Fail> {
    let call = Call {
        wanted: Wanted::Answers(12),
        told: Told::Refusals,
        ..Call::known(LIVE, LINES_ANSWERED, b"")
    };
    check_both(&rt, rt.alloc(), call)?;
    Ok(())
}

#[test]
fn lines_in_a_world(rt: HostRuntime) -> Result<(), Fail> {
    let call = Call {
        wanted: Wanted::Answers(9),
        told: Told::Refusals,
        ..Call::known(LIVE_WORLD, LINES_IN_A_WORLD, b"")
    };
    check_both(&rt, rt.alloc(), call)?;
    Ok(())
}

#[test]
fn a_script_by_a_crew(rt: HostRuntime) -> Result<(), Fail> {
    let call = Call {
        reading: Reading::Within,
        ..Call::known(RUN_BY_TWO, COLLECTED, COLLECTED_OUTPUT)
    };
    check(&rt, rt.alloc(), call, 1)?;
    Ok(())
}

#[test]
fn a_crew_without_threads_and_with_them(rt: HostRuntime) -> Result<(), Fail> {
    let marked = wide_object(rt.alloc())?;
    let call = Call::known(
        RUN_BY_TWO,
        marked.script.as_slice(),
        marked.output.as_slice(),
    );
    check(&rt, rt.alloc(), call, 2)?;
    Ok(())
}

/// A prefix of the output is written before memory is refused.
fn check_beginnings<R: Threads + Wait + Sync + Abort>(
    rt: &R,
    alloc: Global,
    call: Call<'_>,
) -> Result<(), AllocError> {
    let seen = check(rt, alloc, call, 1)?;
    assert!(rt; seen.begun > 0);
    Ok(())
}

#[test]
fn a_beginning_of_many_replies(rt: HostRuntime) -> Result<(), Fail> {
    let script = crowded(rt.alloc())?;
    let output = crowded_output(rt.alloc())?;
    let call = Call::known(RUN, script.as_slice(), output.as_bytes());
    check_beginnings(&rt, rt.alloc(), call)?;
    Ok(())
}

const LINES: usize = 4_200;

#[test]
fn a_beginning_of_a_long_history(rt: HostRuntime) -> Result<(), Fail> {
    let alloc = rt.alloc();
    let script = repeated(alloc, b"config 4 1000 4 1\n", b"a clear 0\n", LINES)?;
    let first = b"history 2 rules 2 4 1000 4 1\n";
    let history = repeated(alloc, first, b"s0 clear 0 = ok units 1 296\n", LINES)?;
    let call = Call::known(RACE, script.as_slice(), history.as_slice());
    check_beginnings(&rt, alloc, call)?;
    Ok(())
}

#[test]
fn a_beginning_of_a_long_record(rt: HostRuntime) -> Result<(), Fail> {
    let alloc = rt.alloc();
    let history = repeated(alloc, b"history 1\n", b"s0 clear 0 = ok\n", LINES)?;
    let first = b"history 2 rules 1 4 1000 4 1\n";
    let record = repeated(alloc, first, b"s0 clear 0 = ok units 1 296\n", LINES)?;
    let call = Call::known(MIGRATE_CYCLES, history.as_slice(), record.as_slice());
    check_beginnings(&rt, alloc, call)?;
    Ok(())
}
