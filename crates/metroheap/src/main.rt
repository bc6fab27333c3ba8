//! The program: scripts from standard input, replies to standard output.
//!
//! A program has to have a `main`. It hands the runtime, the words and the three streams to `launch`, which tests
//! call too. Neither has a clause. CI runs this one with status 0 alone; the examples of the documents show other
//! statuses, by both builds of it.
#![tactic(auto)]

use mh_program::launch::launch_told;
use mh_program::progress::Telling;
use mh_program::prompt::Prompting;
use std::io;
use std::io::IsTerminal;
use std::process::ExitCode;

fn main(rt: HostRuntime) -> ExitCode {
    let stderr = rt.stderr();
    let mut progress = Telling::new(io::writer(&stderr), stderr.is_terminal());
    let status = launch_told(
        &rt,
        rt.alloc(),
        &rt,
        Prompting::new(rt.stdin(), io::writer(&stderr)),
        io::writer(&rt),
        io::writer(&stderr),
        &mut progress,
    );
    ExitCode::from(status)
}
