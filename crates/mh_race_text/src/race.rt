//! Races of the sessions of a script.
//!
//! A race that ends well has written a legal history of all calls of its script, in the second version, and nothing
//! else. Each seat's calls stand in the script's order. Or it has written the one line that refuses the script. A
//! race whose history is full has written a legal history of 1,000,000 calls. Whatever else ends it, what was written
//! is a prefix of such a text. A refused script has its reason, and memory is refused, only as for a run.
//!
//! The replies in each such history are those of an outcome that keeps the promise of `mh_promise`.
//!
//! The calls of each seat alone say what a race leaves, so nothing is said of the order between seats. A race that is
//! cut short leaves a prefix of what some race would write whose seats made the first of their calls. The record is
//! written by a replay, since the stored history has no units. The history is legal, so the replay gives the replies
//! that were given.
ghost use Rattle.std.specs.Prelude.{◌<◌, ◌≤◌};
ghost use Rattle.mh_script.specs.Tasks.{IsPerformed};
ghost use Rattle.mh_race_text.specs.Raced.{IsRaceOutput, IsRaceRun};

use mh_judge::record::write_record;
use mh_model::history::Verdict;
use mh_promise::promise::replies_are_promised;
use mh_race::race::race;
use mh_scan::crew_scan::CrewGate;
use mh_script::end::{End, LineRefusal};
use mh_script::fault::ScriptFault;
use mh_script::texts::write_verdict;
use mh_text::device::DeviceFailed;
use mh_text::script::{SCRIPT_BYTES, parse};
use mh_text::sink::Sink;
use mh_text::source::Source;
use mh_text::stream::read_text;
use mh_text::text_error::TextError;
use std::alloc::Global;
use std::sync::Wait;
use std::thread::Threads;

/// Lets the sessions of a script race, and writes the history that they made as far as they came, or the one line that
/// names the first bad line.
// No `Task`: in a method of a trait a race of threads that call a hook has no proof.
fn write_race<R: Threads + Wait + Sync, W: Sink, G: CrewGate + Sync>(
    rt: &R,
    alloc: Global,
    text: &[u8],
    sink: &mut W,
    workers: usize,
    gate: &G,
) -> Result<End, ScriptFault>
    requires { (0 < workers) × (workers ≤ 64) }
    ensures { IsPerformed IsRaceOutput (W.device sink.old) (W.device sink.new) result text.now }
{
    replies_are_promised();
    match parse(alloc, text) {
        Ok(script) => {
            let config = script.config();
            let raced = race(rt, alloc, config, script.events(), workers, gate)?;
            write_record(alloc, config, raced.history.as_slice(), sink)?;
            match raced.stop() {
                None => Ok(End::Done),
                Some(stop) => Err(ScriptFault::from(stop)),
            }
        }
        Err(TextError::Line(line)) => match write_verdict(Verdict::Refused(line), sink) {
            Ok(()) => Ok(End::Refused(LineRefusal::of(text, line))),
            Err(DeviceFailed) => Err(ScriptFault::Write),
        },
        Err(TextError::NoMemory) => Err(ScriptFault::NoMemory),
    }
}

/// Reads a whole script, lets its sessions race, and after all have ended writes the history that they made as version 2; or
/// the one line that names the least line that is outside the grammar. At most `workers` threads scan at a time.
pub fn race_script<R: Threads + Wait + Sync, S: Source, W: Sink, G: CrewGate + Sync>(
    rt: &R,
    alloc: Global,
    source: &mut S,
    sink: &mut W,
    workers: usize,
    gate: &G,
) -> Result<End, ScriptFault>
    requires { (0 < workers) × (workers ≤ 64) }
    ensures { IsRaceRun (S.device source.old) (S.device source.new) (W.device sink.old) (W.device sink.new) result }
{
    let text = read_text(alloc, source, SCRIPT_BYTES)?;
    write_race(rt, alloc, text.as_slice(), sink, workers, gate)
}
