//! A list of marks behind a lock, and how threads add to it.
ghost use Rattle.std.specs.Prelude.{◌≡◌, []};

use mh_lock::entries::{Entries, Owned, Work};
use mh_lock::lock::Lock;
use std::alloc::{AllocError, Global};
use std::sync::atomic::AtomicU64;
use std::sync::atomic::Ordering::SeqCst;
use std::thread;
use test_support::gates::wait_for;

#[derive(Clone, Copy)]
pub struct Mark {
    pub by: u64,
    pub count: u64,
}

impl Owned for Mark {
    ghost owner = { λ mark. mark.by };
}

/// A list of marks with a name.
#[derive(Drop)]
pub struct Marks {
    name: u64,
    pub list: Vec<Mark>,
}

impl Entries<Mark> for Marks {
    type Origin = u64;

    ghost entries = { λ marks. marks.list.items };

    ghost origin = { λ marks. marks.name };

    fn origin(&self) -> u64 {
        self.name
    }
}

pub fn no_marks(alloc: Global) -> Marks
    ensures { result.list.items ≡ [] }
{
    Marks {
        name: 41,
        list: Vec::new(alloc),
    }
}

/// Where two threads meet before each round, and how many calls got the value.
#[derive(Drop)]
pub struct Rounds {
    arrived: AtomicU64,
    got: AtomicU64,
}

impl Rounds {
    /// Waits until both threads have come to a round, and the second also until the first has the value.
    fn begin(&self, mark: Mark) {
        let before = mark.count.saturating_mul(2);
        self.arrived.fetch_add(1, SeqCst);
        wait_for(&self.arrived, before.saturating_add(2));
        if mark.by != 0 {
            wait_for(&self.got, before.saturating_add(1));
        }
    }

    /// The first thread gives the value back just as the other falls asleep.
    fn hold(&self, mark: Mark, lock: &Lock<Marks, Mark>) {
        self.got.fetch_add(1, SeqCst);
        if mark.by == 0 {
            wait_for_a_sleeper(lock, mark.count % 64);
        }
    }
}

/// Waits until a thread is counted as asleep, which it may be about to be, and then for some looks more.
fn wait_for_a_sleeper(lock: &Lock<Marks, Mark>, looks: u64) {
    for turn in 0..u64::MAX {
        if lock.sleepers() != 0 {
            break;
        }
        if turn % 1_000 == 999 {
            thread::yield_now();
        }
    }
    for _ in 0..looks {
        let _ = lock.sleepers();
    }
}

/// When a thread calls, and how long it has the value.
#[derive(Drop)]
pub enum Pace {
    /// It calls at once, and leaves so many turns to other threads.
    Turns(u64),
    Rounds(Rounds),
}

impl Pace {
    pub fn in_rounds() -> Pace {
        Pace::Rounds(Rounds {
            arrived: AtomicU64::new(0),
            got: AtomicU64::new(0),
        })
    }

    pub fn begin(&self, mark: Mark) {
        match self {
            Pace::Turns(_) => {}
            Pace::Rounds(rounds) => rounds.begin(mark),
        }
    }

    fn hold(&self, mark: Mark, lock: &Lock<Marks, Mark>) {
        match self {
            Pace::Turns(turns) => {
                for _ in 0..*turns {
                    thread::yield_now();
                }
            }
            Pace::Rounds(rounds) => rounds.hold(mark, lock),
        }
    }
}

/// Adds a mark at a pace.
#[derive(Clone, Copy)]
pub struct Add<'a> {
    pub mark: Mark,
    pub pace: &'a Pace,
    pub lock: &'a Lock<Marks, Mark>,
}

impl Work<Marks, Mark> for Add<'_> {
    type Reply = ();

    type Refusal = AllocError;

    ghost entry = { λ add _. add.mark };

    ghost does = { λ _ before _ after. after.name ≡ before.name };

    fn run(self, value: &mut Marks) -> Result<(), AllocError> {
        self.pace.hold(self.mark, self.lock);
        Ok(value.list.push(self.mark)?)
    }
}

#[derive(Clone, Copy)]
pub struct NotAdded;

/// Adds a mark if there is none.
#[derive(Clone, Copy)]
pub struct AddFirst(pub Mark);

impl Work<Marks, Mark> for AddFirst {
    type Reply = ();

    type Refusal = NotAdded;

    ghost entry = { λ add _. add.0 };

    ghost does = { λ _ before _ after. after.name ≡ before.name };

    fn run(self, value: &mut Marks) -> Result<(), NotAdded> {
        if value.list.is_empty() && value.list.push(self.0).is_ok() {
            Ok(())
        } else {
            Err(NotAdded)
        }
    }
}
