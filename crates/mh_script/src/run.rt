//! Runs of scripts that are written as their replies.
//!
//! The replies that were written are those of an outcome that keeps the promise of `mh_promise` (`KeepsPromise`). It is
//! that of all events, or of the first 1,000,000 if there are more. If memory or a device cuts a run short, what was
//! written is a prefix of such replies.
//!
//! A run that ends well has written exactly the output of its script under its rules, and nothing else. It is done only
//! if the script is within the grammar and has at most 1,000,000 events. It is refused with line L only if L is the
//! first bad line. That line is then outside the grammar for the reason that is given. It is full only after
//! the replies to 1,000,000 events, if more are left. A failed source leaves nothing written. A failed sink and out of
//! memory leave a prefix of the output. The source is read as far as the script goes. A device failed exactly when it
//! is blamed. Memory is refused only for bytes that the source gave, or for a text that begins with an event or is a
//! script. For a script a machine is opened. The source is read first, and memory may be refused for its last bytes, so
//! the clause says no more. The number of workers changes nothing of this.
//!
//! A run keeps no history and no list of replies: it steps the machine and writes each reply. `State` keeps the
//! history, for those who ask for it.
ghost use Rattle.std.specs.Prelude.{◌<◌, ◌≤◌};
ghost use Rattle.mh_model.specs.RunHistories.{output_under};
ghost use Rattle.mh_script.specs.Promised.{AreReplies, IsPromisedRun};

use crate::end::End;
use crate::fault::ScriptFault;
use crate::lines::ByLines;
use crate::replies::Replies;
use crate::transcript::transcribe;
use mh_model::config::Rules;
use mh_promise::promise::replies_are_promised;
use mh_scan::crew_scan::{CrewGate, CrewScan};
use mh_text::sink::Sink;
use mh_text::source::Source;
use std::alloc::Global;
use std::thread::Threads;

/// Reads a whole script, and then writes its output under these rules, a line for each reply. Of a script that is outside the
/// grammar it writes the one line that names the first bad line. At most `workers` threads scan at a time, the calling one
/// among them. Neither their number nor the hook changes the output.
pub fn run_script<R: Threads, S: Source, W: Sink, G: CrewGate>(
    rt: &R,
    alloc: Global,
    source: &mut S,
    sink: &mut W,
    workers: usize,
    rules: Rules,
    gate: &G,
) -> Result<End, ScriptFault>
    requires { (0 < workers) × (workers ≤ 64) }
    ensures { IsPromisedRun AreReplies rules (output_under rules) (S.device source.old) (S.device source.new) (W.device sink.old) (W.device sink.new) result }
{
    replies_are_promised();
    let mut scanner = CrewScan::new(rt, alloc, workers, gate);
    transcribe(
        alloc,
        &mut ByLines(Replies),
        source,
        sink,
        rules,
        &mut scanner,
    )
}
