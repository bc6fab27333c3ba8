//! Locks that several threads call.
ghost use Rattle.std.specs.Prelude.{◌<◌, All};
ghost use Rattle.mh_lock.specs.Seats.{IsOf};

use crate::marks::{Add, AddFirst, Mark, Marks, Pace, no_marks};
use mh_lock::lock::Lock;
use mh_lock::seat::LockSeat;
use std::alloc::Global;
use std::sync::Wait;
use std::test::Fail;
use std::thread;
use std::thread::Threads;

/// Whether a first mark of a seat is added, and a second refused.
fn adds_first<R: Wait>(rt: &R, lock: &Lock<Marks, Mark>, seat: &mut LockSeat<Marks, Mark>) -> bool
    requires { IsOf lock.now seat.old }
    ensures { IsOf lock.now seat.new }
{
    let by = seat.number();
    let is_added = lock.call(rt, seat, AddFirst(Mark { by, count: 7 })).is_ok();
    let is_refused = lock
        .call(rt, seat, AddFirst(Mark { by, count: 8 }))
        .is_err();
    is_added && is_refused
}

/// The same of the last of three seats.
fn last_adds_first<R: Wait>(
    rt: &R,
    lock: &Lock<Marks, Mark>,
    seats: &mut [LockSeat<Marks, Mark>],
) -> bool
    requires { All (IsOf lock.now) seats.old }
    ensures { All (IsOf lock.now) seats.new }
{
    seats.len() == 3 && adds_first(rt, lock, &mut seats[2])
}

/// What a lock leaves that does not close while its last seat is missing, and then closes with all.
fn left_in_the_end(lock: Lock<Marks, Mark>, mut seats: Vec<LockSeat<Marks, Mark>>) -> Option<Marks>
    requires { All (IsOf lock) seats.items }
{
    let last = seats.pop()?;
    let Err((lock, mut seats)) = lock.close(seats) else {
        return None;
    };
    seats.push(last).ok()?;
    lock.close(seats).ok()
}

#[test]
fn a_lock_closes_with_all_its_seats(rt: HostRuntime) -> Result<(), Fail> {
    let (lock, mut seats) = Lock::<Marks, Mark>::open(rt.alloc(), no_marks(rt.alloc()), 3)?;
    assert!(rt; last_adds_first(&rt, &lock, &mut seats));
    let marks = left_in_the_end(lock, seats).ok_or("closed with a seat missing, or not with all")?;
    assert!(rt; marks.list.len() == 1);
    Ok(())
}

/// Makes so many calls.
fn call_often<R: Wait>(
    rt: &R,
    lock: &Lock<Marks, Mark>,
    seat: &mut LockSeat<Marks, Mark>,
    calls: u64,
    pace: &Pace,
)
    requires { IsOf lock.now seat.old }
    ensures { IsOf lock.now seat.new }
{
    for count in 0..calls {
        let mark = Mark {
            by: seat.number(),
            count,
        };
        pace.begin(mark);
        let _ = lock.call(rt, seat, Add { mark, pace, lock });
    }
}

/// Each seat in a thread of its own.
fn call_by_threads<R: Threads + Wait + Sync>(
    rt: &R,
    lock: &Lock<Marks, Mark>,
    seats: &mut [LockSeat<Marks, Mark>],
    calls: u64,
    pace: &Pace,
)
    requires { All (IsOf lock.now) seats.old }
    ensures { All (IsOf lock.now) seats.new }
{
    let one = |_index: usize, seat: &mut LockSeat<Marks, Mark>|
        requires { IsOf lock.now seat.now }
    { call_often(rt, lock, seat, calls, pace) };
    thread::for_each_mut(rt, seats, 3, &one);
}

/// The marks that so many threads leave which call at once, each so often.
fn left_by<R: Threads + Wait + Sync>(
    rt: &R,
    alloc: Global,
    threads: u64,
    calls: u64,
    pace: &Pace,
) -> Result<Vec<Mark>, Fail>
    requires { 0 < threads }
{
    let (lock, mut seats) = Lock::<Marks, Mark>::open(alloc, no_marks(alloc), threads)?;
    call_by_threads(rt, &lock, &mut seats, calls, pace);
    match lock.close(seats) {
        Ok(marks) => Ok(marks.list),
        Err(_) => Err(Fail::from("not closed")),
    }
}

/// While one makes its slow call the others sleep, and each wake has to go on to the next.
#[test]
fn threads_that_sleep_are_served(rt: HostRuntime) -> Result<(), Fail> {
    let marks = left_by(&rt, rt.alloc(), 3, 8, &Pace::Turns(100_000))?;
    assert!(rt; marks.len() == 24);
    Ok(())
}

/// Whether two threads made their marks by turns.
fn are_by_turns(marks: &[Mark]) -> bool {
    for (index, mark) in marks.iter().enumerate() {
        if mark.by != index as u64 % 2 || mark.count != index as u64 / 2 {
            return false;
        }
    }
    true
}

/// A sleeper whose wake is lost sleeps for ever, since the other thread waits for it before it calls again. So does the
/// first thread if the other sleeps uncounted. The test is then ended after 60 seconds.
#[test]
fn no_wake_is_lost(rt: HostRuntime) -> Result<(), Fail> {
    let marks = left_by(&rt, rt.alloc(), 2, 2_000, &Pace::in_rounds())?;
    assert!(rt; marks.len() == 4_000);
    assert!(rt; are_by_turns(&marks));
    Ok(())
}
