//! The way to write a run that has a line for each reply.
ghost use Rattle.std.specs.{Prelude.{◌≡◌, ◌<◌, ◌++◌, [], ◌∷◌, suc, OnOk}, String.string_bytes};
ghost use Rattle.mh_model.specs.{Limits.most_entries, Machine.{event_step, first_machine}, Replies.replies_text};
ghost use Rattle.mh_script.specs.Run.{replies_run, replies_told};
ghost use Rattle.mh_model.specs.declared.command.Event.TheVariants as events;
ghost use Rattle.mh_model.specs.Machine as model;

use crate::lines::Lines;
use mh_machine::machine::Machine;
use mh_model::command::{Control, Event};
use mh_model::config::Config;
use mh_model::memory::NoMemory;
use mh_scan::scan::Scanner;
use mh_text::reply_line::push_reply_line;
use std::alloc::Global;

/// Does an event, and adds the line of its reply to the text.
#[inline(always)]
fn answer_event<S: Scanner>(
    machine: &mut Machine,
    event: Event,
    scanner: &mut S,
    text: &mut String,
) -> Result<(), NoMemory>
    requires { machine.old.done < most_entries }
    ensures machine { OnOk result (machine.new.machine ≡ (event_step machine.old.machine event).state) }
    ensures count { OnOk result (machine.new.done ≡ suc machine.old.done) }
    ensures text { OnOk result (string_bytes text.new ≡ string_bytes text.old ++ replies_text ((event_step machine.old.machine event).reply ∷ [])) }
{
    let reply = machine.step_in_room(event, scanner)?;
    push_reply_line(text, &reply)
}

/// Does a control as `answer_event` does it, but apart from the loop over events.
#[inline(never)]
fn answer_control<S: Scanner>(
    machine: &mut Machine,
    control: Control,
    scanner: &mut S,
    text: &mut String,
) -> Result<(), NoMemory>
    requires { machine.old.done < most_entries }
    ensures machine { OnOk result (machine.new.machine ≡ (event_step machine.old.machine (events.Control control)).state) }
    ensures count { OnOk result (machine.new.done ≡ suc machine.old.done) }
    ensures text { OnOk result (string_bytes text.new ≡ string_bytes text.old ++ replies_text ((event_step machine.old.machine (events.Control control)).reply ∷ [])) }
{
    answer_event(machine, Event::Control(control), scanner, text)
}

/// A line for each reply.
#[derive(Clone, Copy)]
pub struct Replies;

impl Lines for Replies {
    type Kept = ();

    ghost State = { model.Machine };

    ghost state = { λ form kept running. running.machine };

    ghost holds = { λ form state. Unit {0} };

    ghost first = { λ form config. first_machine config };

    ghost head = { λ form script config. [] };

    ghost told = { λ form. replies_told };

    ghost text_of = { λ form script config events. replies_run config events };

    fn head_bytes(
        self,
        alloc: Global,
        _script: &[u8],
        _config: Config,
        _machine: &Machine,
    ) -> Result<Vec<u8>, NoMemory> {
        Ok(Vec::new(alloc))
    }

    fn begin(self, _alloc: Global, _config: Config, _machine: &Machine) {}

    // A dump or a report lies in memory. What a command answers shares no place with one, so it stays in registers.
    #[inline(always)]
    fn add<C: Scanner>(
        self,
        _kept: &mut (),
        machine: &mut Machine,
        event: Event,
        scanner: &mut C,
        text: &mut String,
    ) -> Result<(), NoMemory> {
        match event {
            Event::Session(who, command) => {
                answer_event(machine, Event::Session(who, command), scanner, text)
            }
            Event::Control(control) => answer_control(machine, control, scanner, text),
        }
    }

    fn finish(self, _kept: &(), _machine: &Machine, _text: &mut String) -> Result<(), NoMemory> {
        Ok(())
    }
}
