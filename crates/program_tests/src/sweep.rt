//! The same call again and again, each time with other memory left.
use crate::calls::{Call, Outcome};
use std::alloc::{AllocError, Global};
use std::process::Abort;
use std::sync::Wait;
use std::thread::Threads;
use test_support::famine::Famine;

/// The blocks of the C library differ by so many bytes.
const STEP: usize = 16;

/// Where much is left, the next attempt has one part of so many more.
const PARTS: usize = 64;

/// So many bytes below what was enough the attempts are made anew, in steps of 16.
const WINDOW: usize = 8_192;

/// The most bytes that are left in steps.
const MOST_BYTES: usize = 1 << 25;

const MEGABYTE: usize = 1 << 20;

/// The stack of a thread takes 16 megabytes, so that with these two threads are started.
const MOST_MEGABYTES: usize = 40;

/// Room for the stacks of several threads.
const PLENTY: usize = 256 * MEGABYTE;

/// What was answered while memory was refused.
#[derive(Clone, Copy)]
pub struct Seen {
    pub refused: u64,
    /// How many of those that were refused had written something.
    pub begun: u64,
    /// How many bytes were left if something else was answered first.
    pub wrong: Option<usize>,
}

impl Seen {
    /// Counts an outcome with so many bytes left.
    fn count(&mut self, left: usize, outcome: Outcome) {
        match outcome {
            Outcome::Right => {}
            Outcome::Refused(written) => {
                self.refused = self.refused.wrapping_add(1);
                self.begun = self.begun.wrapping_add(u64::from(written > 0));
            }
            Outcome::Wrong if self.wrong.is_none() => self.wrong = Some(left),
            Outcome::Wrong => {}
        }
    }
}

/// Attempts of one call.
#[derive(Drop)]
struct Sweep<'a> {
    call: Call<'a>,
    famine: Famine,
    seen: Seen,
}

impl<'a> Sweep<'a> {
    fn new(alloc: Global, call: Call<'a>) -> Result<Sweep<'a>, AllocError> {
        Ok(Sweep {
            call,
            famine: Famine::begin(alloc)?,
            seen: Seen {
                refused: 0,
                begun: 0,
                wrong: None,
            },
        })
    }

    /// Makes one attempt with so many bytes left, and reports whether it was right.
    fn attempt<R: Threads + Wait + Sync>(
        &mut self,
        rt: &R,
        alloc: Global,
        left: usize,
    ) -> Result<bool, AllocError> {
        let outcome = self.call.attempt(rt, alloc, &mut self.famine, left)?;
        self.seen.count(left, outcome);
        Ok(outcome == Outcome::Right)
    }

    /// Attempts with no memory left, and then with more each time, until one is right. Gives how many bytes were left then.
    fn until_right<R: Threads + Wait + Sync>(
        &mut self,
        rt: &R,
        alloc: Global,
    ) -> Result<usize, AllocError> {
        let mut left = 0usize;
        for _ in 0..MOST_BYTES {
            if self.attempt(rt, alloc, left)? || left > MOST_BYTES {
                break;
            }
            left = left.saturating_add(STEP.max(left / PARTS));
        }
        Ok(left)
    }

    /// Attempts in small steps with a little less than what was enough.
    fn below<R: Threads + Wait + Sync>(
        &mut self,
        rt: &R,
        alloc: Global,
        enough: usize,
    ) -> Result<(), AllocError> {
        let mut left = enough.saturating_sub(WINDOW);
        for _ in 0..WINDOW / STEP {
            self.attempt(rt, alloc, left)?;
            left = left.saturating_add(STEP);
        }
        Ok(())
    }

    /// Attempts with a megabyte left, and then with one more each time, so that threads are refused and then started.
    fn by_megabytes<R: Threads + Wait + Sync>(
        &mut self,
        rt: &R,
        alloc: Global,
    ) -> Result<(), AllocError> {
        for count in 1..=MOST_MEGABYTES {
            self.attempt(rt, alloc, count * MEGABYTE)?;
        }
        Ok(())
    }

    /// Refuses the requests for memory that the call makes, in turn.
    fn refuse_each<R: Threads + Wait + Sync>(
        &mut self,
        rt: &R,
        alloc: Global,
    ) -> Result<(), AllocError> {
        let enough = self.until_right(rt, alloc)?;
        self.below(rt, alloc, enough)?;
        self.by_megabytes(rt, alloc)
    }
}

/// What is seen of a call in so many sweeps, and whether it is right with plenty of memory after each.
fn seen_in<R: Threads + Wait + Sync>(
    rt: &R,
    alloc: Global,
    call: Call<'_>,
    times: usize,
) -> Result<(bool, Seen), AllocError> {
    let mut sweep = Sweep::new(alloc, call)?;
    let mut is_right = true;
    for _ in 0..times {
        sweep.refuse_each(rt, alloc)?;
        is_right = sweep.attempt(rt, alloc, PLENTY)? && is_right;
    }
    Ok((is_right, sweep.seen))
}

/// Refuses the requests for memory that a call makes in turn, and then grants all, so many times over. The C library keeps the
/// stack of a thread that has ended for the next one, so from the second time on threads have stacks.
pub fn check<R: Threads + Wait + Sync + Abort>(
    rt: &R,
    alloc: Global,
    call: Call<'_>,
    times: usize,
) -> Result<Seen, AllocError> {
    let (is_right, seen) = seen_in(rt, alloc, call, times)?;
    let found = (is_right, seen.wrong, seen.refused > 0);
    assert_eq!(rt; found, (true, None, true));
    Ok(seen)
}
