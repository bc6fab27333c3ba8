//! The first event of a run that is answered by a full heap. The run stops there.
ghost use Rattle.std.specs.Prelude.{◌≡◌, ◌+◌, ◌≤◌, length, IfOk};
ghost use Rattle.mh_model.specs.{Limits.most_entries, Machine.machine_replies, Snapshot.is_heap_full};
ghost use Rattle.mh_size_runs.specs.Full.{first_full, first_full_among};

use mh_machine::machine::Machine;
use mh_model::command::Event;
use mh_model::config::Config;
use mh_model::memory::NoMemory;
use mh_model::reply::{Refusal, Reply};
use mh_scan::scan::Scanner;
use std::alloc::Global;

/// Whether a reply is the refusal of a full heap.
pub(crate) fn is_heap_full(reply: &Reply) -> bool
    ensures { result ≡ is_heap_full reply.now }
{
    matches!(reply, Reply::Refused(Refusal::HeapFull))
}

/// Does events until a reply is a full heap, and answers the number of the event that was answered so, counted from 1.
fn first_full_of<S: Scanner>(
    machine: &mut Machine,
    events: &[Event],
    scanner: &mut S,
) -> Result<Option<u64>, NoMemory>
    requires { machine.old.done + length events.now ≤ most_entries }
    ensures { IfOk result (λ first. first ≡ first_full_among (machine_replies machine.old.machine events.now)) }
{
    let mut number = 0;
    for event in events {
        number += 1;
        let reply = machine.step_in_room(*event, scanner)?;
        if is_heap_full(&reply) {
            return Ok(Some(number));
        }
    }
    Ok(None)
}

/// The number of the first of these events that is answered by a full heap, counted from 1, found by running them.
pub fn first_full<S: Scanner>(
    alloc: Global,
    config: Config,
    events: &[Event],
    scanner: &mut S,
) -> Result<Option<u64>, NoMemory>
    requires { length events.now ≤ most_entries }
    ensures { IfOk result (λ first. first ≡ first_full config events.now) }
{
    let mut machine = Machine::open(alloc, config)?;
    first_full_of(&mut machine, events, scanner)
}
