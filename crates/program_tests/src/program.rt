//! What tests call of the program, and what it prints while a hook watches its crew or its sessions.
pub use mh_command_line::arguments::SystemArguments;
pub use mh_command_line::order::line_order;
pub use mh_command_line::words::words;
pub use mh_program::errors::Errors;
pub use mh_program::launch::launch;
pub use mh_program::program::{program, serve};
pub use mh_program::prompt::Prompting;
use mh_scan::crew_scan::CrewGate;
pub use mh_size_text::progress::Silent;
use mh_text::sink::StdSink;
use mh_text::source::StdSource;
use std::alloc::Global;
use std::sync::Wait;
use std::test::Fail;
use std::thread::Threads;
use test_support::environment::Words;

/// What a subcommand prints of a script by so many workers, with status 0.
pub fn printed<'a, R: Threads + Wait + Sync, G: CrewGate + Sync>(
    rt: &R,
    alloc: Global,
    subcommand: &'a str,
    workers: &'a str,
    script: &[u8],
    gate: &G,
) -> Result<Vec<u8>, Fail> {
    let line: [&'a [u8]; 4] = [
        b"metroheap",
        subcommand.as_bytes(),
        b"--workers",
        workers.as_bytes(),
    ];
    let words = words(&SystemArguments(&Words(&line)), alloc);
    let mut source = StdSource::new(script);
    let mut sink = StdSink::new(Vec::new(alloc));
    let mut errors = Errors::new(alloc, StdSink::new(Vec::new(alloc)));
    let status = program(
        rt,
        alloc,
        words,
        &mut source,
        &mut sink,
        &mut errors,
        gate,
        &mut Silent,
    );
    if status != 0 {
        return Err(Fail::from("another status"));
    }
    Ok(sink.writer)
}
