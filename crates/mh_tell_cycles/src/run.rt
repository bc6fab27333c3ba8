//! Runs of scripts that are written as the lines of their cycles, exactly.
//!
//! A cycle has its line once it has ended. One that still runs at the end of the script comes last, with `none` for what
//! isn't known. Nothing is written of a run without cycles. The numbers are kept while the cycle runs, so no deed is
//! kept. All that is said of `run_script` holds too.
ghost use Rattle.std.specs.Prelude.{[]};
ghost use Rattle.mh_script.specs.Run.{IsRun, transcript};
ghost use Rattle.mh_tell_cycles.specs.{Lines.{Stage, cycles_text, cycles_told, first_stage, stage_of}, Tallies.Watches};

use crate::watch::Watch;
use mh_deeds::account::Account;
use mh_machine::machine::Machine;
use mh_model::command::Event;
use mh_model::config::{Config, Rules};
use mh_model::memory::NoMemory;
use mh_scan::scan::{OneScan, Scanner};
use mh_script::end::End;
use mh_script::fault::ScriptFault;
use mh_script::lines::{ByLines, Lines};
use mh_script::transcript::transcribe;
use mh_text::sink::Sink;
use mh_text::source::Source;
use std::alloc::Global;

/// What is known between two events, with the account of the last.
#[derive(Drop)]
struct Watched {
    watch: Watch,
    account: Account,
}

/// A line for each cycle.
#[derive(Clone, Copy)]
struct Cycles;

impl Lines for Cycles {
    type Kept = Watched;

    ghost State = { Stage };

    ghost state = { λ cycles watched running. stage_of running watched.watch };

    ghost holds = { λ cycles at. Watches at.done at.machine at.watch };

    ghost first = { λ cycles. first_stage };

    ghost head = { λ cycles script config. [] };

    ghost told = { λ cycles. cycles_told };

    ghost text_of = { λ cycles script. cycles_text };

    fn head_bytes(
        self,
        alloc: Global,
        _script: &[u8],
        _config: Config,
        _machine: &Machine,
    ) -> Result<Vec<u8>, NoMemory> {
        Ok(Vec::new(alloc))
    }

    fn begin(self, alloc: Global, _config: Config, machine: &Machine) -> Watched {
        Watched {
            watch: Watch::new(machine),
            account: Account::new(alloc),
        }
    }

    fn add<C: Scanner>(
        self,
        watched: &mut Watched,
        machine: &mut Machine,
        event: Event,
        _scanner: &mut C,
        text: &mut String,
    ) -> Result<(), NoMemory> {
        watched
            .watch
            .tell(machine, event, &mut watched.account, text)
    }

    fn finish(
        self,
        watched: &Watched,
        machine: &Machine,
        text: &mut String,
    ) -> Result<(), NoMemory> {
        watched.watch.push_cycle(machine.done(), machine, text)
    }
}

/// Reads a whole script, and then writes the lines of the cycles of its run under these rules. Of a script that is outside the
/// grammar it writes the one line that names the first bad line.
pub fn cycles_script<S: Source, W: Sink>(
    alloc: Global,
    source: &mut S,
    sink: &mut W,
    rules: Rules,
) -> Result<End, ScriptFault>
    ensures { IsRun (transcript (λ _. cycles_text) rules) (S.device source.old) (S.device source.new) (W.device sink.old) (W.device sink.new) result }
{
    transcribe(
        alloc,
        &mut ByLines(Cycles),
        source,
        sink,
        rules,
        &mut OneScan::new(alloc),
    )
}
