//! Runs that are written by lines, one event after another, through a buffer that is written whenever 64 KiB wait in
//! it. None is kept, so a run takes no more memory than one line. The one loop that writes runs so is here: a way to
//! write a run by lines knows no device. If memory is refused in the middle of a script, the prefix of the text that
//! was written stays.
ghost use Rattle.std.specs.{Prelude.{◌≡◌, ◌<◌, ◌≤◌, ◌++◌, suc, List, length, IfOk, OnOk}, String.string_bytes};
ghost use Rattle.mh_machine.specs.Running.{Running, first_running};
ghost use Rattle.mh_model.specs.{declared.command.Event.Event, declared.config.Config.Config, Bytes.Text};
ghost use Rattle.mh_model.specs.Limits.{most_entries};
ghost use Rattle.mh_script.specs.{Lines.{Told, text_by_lines}, Texts.IsWriting};
ghost use Rattle.mh_text.specs.Devices.{IsWrite};

use crate::fault::WriteError;
use crate::texts::{flush, flush_full};
use crate::transcript::Transcript;
use mh_machine::machine::Machine;
use mh_model::command::Event;
use mh_model::config::Config;
use mh_model::memory::NoMemory;
use mh_scan::scan::Scanner;
use mh_text::device::DeviceFailed;
use mh_text::script::SCRIPT_BYTES;
use mh_text::sink::Sink;
use mh_text::stream::write_text;
use std::alloc::Global;

/// A way to write a run by lines.
pub trait Lines: Copy {
    /// What it keeps between two events.
    type Kept: Drop;

    // what is known between two events
    ghost State: { Type 0 };

    ghost state: { Self → Self.Kept → Running → State };

    // what holds between two events
    ghost holds: { Self → State → Type 0 };

    // what is known before the first event
    ghost first: { Self → Config → State };

    // what stands before the lines of the first event
    ghost head: { Self → Text → Config → Text };

    // what an event makes of what is known, its lines, and what stands after the last
    ghost told: { Self → Told State Event };

    // the text of a run of these events, which a script with this text has
    ghost text_of: { Self → Text → Config → List Event → Text };

    /// What stands before the lines of the first event.
    fn head_bytes(
        self,
        alloc: Global,
        script: &[u8],
        config: Config,
        machine: &Machine,
    ) -> Result<Vec<u8>, NoMemory>
        requires short { length script.now ≤ SCRIPT_BYTES }
        requires first { machine.now ≡ first_running config }
        ensures head { IfOk result (λ text. text.items ≡ head self script.now config) }
        ensures by_lines { (events : List Event) → text_by_lines (told self) (head self script.now config) (first self config) events ≡ text_of self script.now config events };

    /// What is kept before the first event.
    fn begin(self, alloc: Global, config: Config, machine: &Machine) -> Self::Kept
        requires { machine.now ≡ first_running config }
        ensures state { state self result machine.now ≡ first self config }
        ensures holds { holds self (first self config) };

    /// Does an event, and adds its lines.
    fn add<C: Scanner>(
        self,
        kept: &mut Self::Kept,
        machine: &mut Machine,
        event: Event,
        scanner: &mut C,
        text: &mut String,
    ) -> Result<(), NoMemory>
        requires room { machine.old.done < most_entries }
        requires holds { holds self (state self kept.old machine.old) }
        ensures state { OnOk result (state self kept.new machine.new ≡ (told self).next (state self kept.old machine.old) event) }
        ensures holds { OnOk result (holds self (state self kept.new machine.new)) }
        ensures count { OnOk result (machine.new.done ≡ suc machine.old.done) }
        ensures text { OnOk result (string_bytes text.new ≡ string_bytes text.old ++ (told self).line (state self kept.old machine.old) event) };

    /// Adds what stands after the last event.
    fn finish(self, kept: &Self::Kept, machine: &Machine, text: &mut String) -> Result<(), NoMemory>
        requires { holds self (state self kept.now machine.now) }
        ensures { OnOk result (string_bytes text.new ≡ string_bytes text.old ++ (told self).last (state self kept.now machine.now)) };
}

/// Writes what stands before the lines of the first event.
// It is apart from the loop over events, whose values then stay in registers.
#[inline(never)]
fn write_head<W: Sink>(sink: &mut W, head: Vec<u8>) -> Result<(), DeviceFailed>
    ensures { IsWrite (W.device sink.old) (W.device sink.new) head.items result }
{
    write_text(sink, head.as_slice())
}

/// Does events from the first machine on, and writes the text of that run.
fn write_lines<L: Lines, C: Scanner, W: Sink>(
    alloc: Global,
    form: L,
    script: &[u8],
    config: Config,
    events: &[Event],
    scanner: &mut C,
    sink: &mut W,
) -> Result<(), WriteError>
    requires short { length script.now ≤ SCRIPT_BYTES }
    requires few { length events.now ≤ most_entries }
    ensures { IsWriting (W.device sink.old) (W.device sink.new) (L.text_of form script.now config events.now) result }
{
    let mut machine = Machine::open(alloc, config)?;
    let head = form.head_bytes(alloc, script, config, &machine)?;
    let mut kept = form.begin(alloc, config, &machine);
    write_head(sink, head)?;
    let mut text = String::new(alloc);
    for event in events {
        form.add(&mut kept, &mut machine, *event, scanner, &mut text)?;
        flush_full(sink, &mut text)?;
    }
    form.finish(&kept, &machine, &mut text)?;
    flush(sink, &mut text)?;
    Ok(())
}

/// The transcript that is written by lines.
#[derive(Drop)]
pub struct ByLines<L>(pub L);

impl<L: Lines> Transcript for ByLines<L> {
    ghost text_of = { λ form. L.text_of form.0 };

    ghost becomes = { λ old config events new. Unit {0} };

    fn write<C: Scanner, W: Sink>(
        &mut self,
        alloc: Global,
        script: &[u8],
        config: Config,
        events: &[Event],
        scanner: &mut C,
        sink: &mut W,
    ) -> Result<(), WriteError> {
        write_lines(alloc, self.0, script, config, events, scanner, sink)
    }
}
