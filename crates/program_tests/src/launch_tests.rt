//! The threads of the program as it is launched, which no hook watches, and what a terminal hears of a sizing.
use crate::graph::front_script;
use crate::program::launch;
use mh_program::launch::launch_told;
use mh_program::progress::Telling;
use std::alloc::Global;
use std::rt::Files;
use std::sync::Wait;
use std::sync::atomic::AtomicU64;
use std::sync::atomic::Ordering::SeqCst;
use std::test::Fail;
use std::thread::Threads;
use std::{fs, io, thread};
use test_support::environment::Words;

/// How many threads this process has.
fn thread_count<R: Files + AllocGlobal + Clone + Drop>(rt: &R) -> io::Result<usize> {
    Ok(fs::read_dir(rt, "/proc/self/task")?.count())
}

/// Whether this process has more threads than so many, at some time before the end is noted.
fn has_more_threads<R: Files + AllocGlobal + Clone + Drop>(
    rt: &R,
    count: usize,
    end: &AtomicU64,
) -> io::Result<bool> {
    for _ in 0..u64::MAX {
        if thread_count(rt)? > count {
            return Ok(true);
        }
        if end.load(SeqCst) == 1 {
            break;
        }
    }
    Ok(false)
}

/// The exit status of a run of a script by a crew of two.
fn status_of<R: Threads + Wait + Sync>(rt: &R, alloc: Global, script: &[u8]) -> u8 {
    let line: [&[u8]; 4] = [b"metroheap", b"run", b"--workers", b"2"];
    launch(
        rt,
        alloc,
        &Words(&line),
        script,
        Vec::new(alloc),
        Vec::new(alloc),
    )
}

/// The same, and whether the run is seen to start a thread.
fn seen_of<R: Threads + Wait + Sync + Files + AllocGlobal + Clone + Drop>(
    rt: &R,
    alloc: Global,
    script: &[u8],
) -> Result<(u8, bool), Fail> {
    let end = AtomicU64::new(0);
    let others = thread_count(rt)?.saturating_add(1);
    let run = || {
        let status = status_of(rt, alloc, script);
        end.store(1, SeqCst);
        status
    };
    let (status, seen) = thread::join(rt, run, || has_more_threads(rt, others, &end));
    Ok((status, seen?))
}

#[test]
fn a_wide_front_starts_a_thread(rt: HostRuntime) -> Result<(), Fail> {
    let script = front_script(rt.alloc())?;
    let seen = seen_of(&rt, rt.alloc(), &script)?;
    assert_eq!(rt; seen, (0, true));
    Ok(())
}

/// What standard error has of the sizing of a script that fits in one page.
fn heard<R: Threads + Wait + Sync>(rt: &R, alloc: Global, is_terminal: bool) -> Vec<u8> {
    let line: [&[u8]; 2] = [b"metroheap", b"size"];
    let script: &[u8] = b"config 4 209 0 0\na new 0 0 1\n";
    let mut heard = Vec::new(alloc);
    let mut telling = Telling::new(&mut heard, is_terminal);
    launch_told(
        rt,
        alloc,
        &Words(&line),
        script,
        Vec::new(alloc),
        Vec::new(alloc),
        &mut telling,
    );
    heard
}

#[test]
fn only_a_terminal_hears_how_far_a_sizing_has_come(rt: HostRuntime) {
    let text: &[u8] = b"metroheap: looking at what is live\n\
        metroheap: searching for the fewest pages\n\
        metroheap: running in pages: 1\n\
        metroheap: running in pages: 2\n\
        metroheap: running in pages: 2\n\
        metroheap: running in pages: 2\n\
        metroheap: running in pages: 3\n";
    assert_eq!(rt; heard(&rt, rt.alloc(), false).len(), 0);
    assert_eq!(rt; heard(&rt, rt.alloc(), true).as_slice(), text);
}
