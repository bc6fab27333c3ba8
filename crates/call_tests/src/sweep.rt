//! Work that is tried with more and more memory.

use std::alloc::{AllocError, Global};
use std::test::Fail;
use test_support::famine::Famine;

/// How many bytes are left when memory is at hand.
pub const PLENTY: usize = 1 << 22;

/// By how many bytes the memory grows that is left to a try.
pub const STEP: usize = 64;

/// The most steps that are tried.
pub const MOST_STEPS: usize = 2_000;

/// Takes all memory but plenty.
pub fn begin_with_plenty(alloc: Global) -> Result<Famine, AllocError> {
    let mut famine = Famine::begin(alloc)?;
    famine.leave(PLENTY)?;
    Ok(famine)
}

/// Work that can be tried again if memory was refused to it.
pub trait Attempt {
    /// Whether the next piece of work is done.
    fn is_done(&mut self) -> bool;

    /// All that it shows.
    fn told(&self) -> Result<String, Fail>;
}

/// Whether the next piece of work is done with so many bytes left.
fn is_done_with<A: Attempt>(
    famine: &mut Famine,
    attempt: &mut A,
    bytes: usize,
) -> Result<bool, AllocError> {
    famine.leave(bytes)?;
    let is_done = attempt.is_done();
    famine.leave(PLENTY)?;
    Ok(is_done)
}

/// How many tries with more and more memory are refused before one is not. What is refused has to leave all that is shown as
/// it was.
fn refusals_from<A: Attempt>(
    famine: &mut Famine,
    attempt: &mut A,
    before: &str,
) -> Result<usize, Fail> {
    for step in 0..MOST_STEPS {
        if is_done_with(famine, attempt, STEP * step)? {
            return Ok(step);
        }
        if attempt.told()?.as_str() != before {
            return Err(Fail::from("changed by what was refused"));
        }
    }
    Err(Fail::from("refused with memory at hand"))
}

/// Tries the next piece of work with more and more memory until it is done, and gives how often it was not.
pub fn refusals<A: Attempt>(famine: &mut Famine, attempt: &mut A) -> Result<usize, Fail> {
    let before = attempt.told()?;
    refusals_from(famine, attempt, &before)
}

/// Whether so many pieces of work are done, each at its first try.
pub fn are_all_done<A: Attempt>(attempt: &mut A, count: usize) -> bool {
    for _ in 0..count {
        if !attempt.is_done() {
            return false;
        }
    }
    true
}

/// Tries so many pieces of work in turn, and gives how often the last was refused.
pub fn refusals_of_last<A: Attempt>(
    famine: &mut Famine,
    attempt: &mut A,
    count: usize,
) -> Result<usize, Fail> {
    let mut refused = 0;
    for _ in 0..count {
        refused = refusals(famine, attempt)?;
    }
    Ok(refused)
}
