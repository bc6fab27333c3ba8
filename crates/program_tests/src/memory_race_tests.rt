//! Races while memory is refused.
use crate::calls::{Call, Outcome, Reading, Wanted};
use crate::cases::RACE;
use crate::sweep::check;
use crate::texts::{ALONE, ALONE_HISTORY, RACE_BY_TWO, SHARED, SHARED_ENTRIES};
use std::test::Fail;
use std::thread;
use test_support::famine::Famine;

#[test]
fn a_session_alone(rt: HostRuntime) -> Result<(), Fail> {
    let call = Call::known(RACE, ALONE, ALONE_HISTORY);
    check(&rt, rt.alloc(), call, 2)?;
    Ok(())
}

#[test]
fn a_session_alone_with_its_words(rt: HostRuntime) -> Result<(), Fail> {
    let call = Call {
        reading: Reading::Within,
        ..Call::known(RACE, ALONE, ALONE_HISTORY)
    };
    check(&rt, rt.alloc(), call, 1)?;
    Ok(())
}

/// Three sessions and the desk, by a crew of two.
fn sessions() -> Call<'static> {
    Call {
        wanted: Wanted::History(SHARED_ENTRIES),
        ..Call::known(RACE_BY_TWO, SHARED, b"")
    }
}

#[test]
fn three_sessions_and_the_desk(rt: HostRuntime) -> Result<(), Fail> {
    check(&rt, rt.alloc(), sessions(), 2)?;
    Ok(())
}

/// Too few bytes for the stack of a thread, and more than enough for a race without one.
const FEW_BYTES: usize = 1 << 22;

#[test]
fn a_race_where_no_thread_can_be_started(rt: HostRuntime) -> Result<(), Fail> {
    let mut famine = Famine::begin(rt.alloc())?;
    famine.leave(FEW_BYTES)?;
    let is_refused = thread::spawn(&rt, || 0u8).is_err();
    let outcome = sessions().attempt(&rt, rt.alloc(), &mut famine, FEW_BYTES)?;
    drop(famine);
    assert_eq!(rt; (is_refused, outcome), (true, Outcome::Right));
    Ok(())
}
