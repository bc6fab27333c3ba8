//! The program over its environment and its streams. It has no clause, since it takes its streams by value, of which
//! nothing is left to speak of. Tests show what it does.
use crate::errors::Errors;
use crate::program::program;
use mh_command_line::arguments::SystemArguments;
use mh_command_line::words::words;
use mh_scan::gate::Open;
use mh_size_text::progress::{Progress, Silent};
use mh_text::sink::StdSink;
use mh_text::source::StdSource;
use std::alloc::Global;
use std::env::Env;
use std::io::{Read, Write};
use std::sync::Wait;
use std::thread::Threads;

/// The program on the words that its environment has and on its three streams. `progress` hears what `size` looks at.
/// Gives the exit status.
pub fn launch_told<
    R: Threads + Wait + Sync,
    V: Env,
    I: Read + Drop,
    O: Write + Drop,
    E: Write + Drop,
    P: Progress,
>(rt: &R, alloc: Global, env: &V, input: I, output: O, errors: E, progress: &mut P) -> u8 {
    let words = words(&SystemArguments(env), alloc);
    let mut source = StdSource::new(input);
    let mut sink = StdSink::new(output);
    let mut errors = Errors::new(alloc, StdSink::new(errors));
    program(
        rt,
        alloc,
        words,
        &mut source,
        &mut sink,
        &mut errors,
        &Open,
        progress,
    )
}

/// The same while nobody waits.
pub fn launch<R: Threads + Wait + Sync, V: Env, I: Read + Drop, O: Write + Drop, E: Write + Drop>(
    rt: &R,
    alloc: Global,
    env: &V,
    input: I,
    output: O,
    errors: E,
) -> u8 {
    launch_told(rt, alloc, env, input, output, errors, &mut Silent)
}
