//! An event of a line, and what it is answered.
//!
//! Memory that is refused for the event is answered `refused 9 no memory`, and then nothing is changed: the text of a
//! dump is made before the dump is done. An event past the last that a machine or a world does is answered
//! `refused 8 history full`, however many come, and a control in a world `refused 11 no collector`. Contracts of this
//! file alone say that it is refused only to an event that may ask for it (`MayAskForMemory` of `mh_machine`).
ghost use Rattle.std.specs.{Prelude.{◌≡◌, [], ◌++◌, IfOk, OnOk}, String.string_bytes};
ghost use Rattle.mh_model.specs.{Bytes.line_text, Machine.dump_pages, Replies.{bad_line_text, reply_text}};
ghost use Rattle.mh_live.specs.Auxiliary.{IsAnsweredOrNotDone, IsAnsweredOrNotGrown, uncollected_line};
ghost use Rattle.mh_live.specs.Answers.{full_line, starved_line};
ghost use Rattle.mh_machine.specs.declared.machine.Stop.{Stop};
ghost use Rattle.mh_model.specs.declared.command.Control.TheVariants as control;
ghost use Rattle.mh_model.specs.declared.command.Event.TheVariants as event;
ghost use Rattle.mh_model.specs.declared.reply.Reply.TheVariants as reply;

use crate::growing::GrowingWorld;
use mh_machine::machine::{Machine, Stop};
use mh_model::command::{Command, Control, Event};
use mh_model::memory::NoMemory;
use mh_model::reply::Reply;
use mh_scan::scan::Scanner;
use mh_text::reply_line::push_reply_line;
use std::alloc::Global;
use std::fmt::Write;

/// Answers an event after the last of all.
fn full(text: &mut String) -> Result<(), NoMemory>
    ensures { OnOk result (string_bytes text.new ≡ full_line) }
{
    text.clear();
    text.push_str("refused 8 history full\n")?;
    Ok(())
}

/// Answers a line for which memory was refused.
pub(crate) fn starved(text: &mut String) -> Result<(), NoMemory>
    ensures { OnOk result (string_bytes text.new ≡ starved_line) }
{
    text.clear();
    text.push_str("refused 9 no memory\n")?;
    Ok(())
}

/// Answers a line whose event wasn't done.
fn not_done(stop: Stop, text: &mut String) -> Result<(), NoMemory>
    ensures full { stop ≡ Stop.HistoryFull → OnOk result (string_bytes text.new ≡ full_line) }
    ensures memory { stop ≡ Stop.NoMemory → OnOk result (string_bytes text.new ≡ starved_line) }
{
    match stop {
        Stop::HistoryFull => full(text),
        Stop::NoMemory => starved(text),
    }
}

/// Answers a line that is outside the grammar.
pub(crate) fn refused(number: u64, text: &mut String) -> Result<(), NoMemory>
    requires { string_bytes text.old ≡ [] }
    ensures { OnOk result (string_bytes text.new ≡ line_text (bad_line_text number)) }
{
    writeln!(text, "refused 10 line {number}")?;
    Ok(())
}

/// Answers a control in a world.
pub(crate) fn uncollected(text: &mut String) -> Result<(), NoMemory>
    requires { string_bytes text.old ≡ [] }
    ensures { OnOk result (string_bytes text.new ≡ uncollected_line) }
{
    text.push_str("refused 11 no collector\n")?;
    Ok(())
}

/// The line of a dump, which needs memory of its own.
fn write_dump(alloc: Global, machine: &Machine, text: &mut String) -> Result<(), NoMemory>
    ensures { OnOk result (string_bytes text.new
        ≡ string_bytes text.old ++ line_text (reply_text (reply.Dump (dump_pages 0 machine.now.machine.heap.collector.table)))) }
{
    let reply = Reply::Dump(machine.heap().dump(alloc)?);
    push_reply_line(text, &reply)
}

/// Does a dump, whose text is made before it is done: so all is as it was if memory is refused for either.
fn answer_dump<S: Scanner>(
    alloc: Global,
    machine: &mut Machine,
    scanner: &mut S,
    text: &mut String,
) -> Result<bool, NoMemory>
    requires { string_bytes text.old ≡ [] }
    ensures { IfOk result (IsAnsweredOrNotDone machine.old (event.Control control.Dump) (string_bytes text.new) machine.new) }
{
    if write_dump(alloc, machine, text).is_err() {
        starved(text)?;
        return Ok(false);
    }
    match machine.step(Event::Control(Control::Dump), scanner) {
        Ok(_) => Ok(true),
        Err(stop) => {
            not_done(stop, text)?;
            Ok(false)
        }
    }
}

/// Does another event.
fn answer_other<S: Scanner>(
    machine: &mut Machine,
    event: Event,
    scanner: &mut S,
    text: &mut String,
) -> Result<bool, NoMemory>
    requires { string_bytes text.old ≡ [] }
    ensures { IfOk result (IsAnsweredOrNotDone machine.old event (string_bytes text.new) machine.new) }
{
    match machine.step(event, scanner) {
        Ok(reply) => {
            push_reply_line(text, &reply)?;
            Ok(true)
        }
        Err(stop) => {
            not_done(stop, text)?;
            Ok(false)
        }
    }
}

/// Does an event, unless the last of all was done or memory is refused, and gives the text its answer. Whether it was
/// done.
pub(crate) fn answer<S: Scanner>(
    alloc: Global,
    machine: &mut Machine,
    event: Event,
    scanner: &mut S,
    text: &mut String,
) -> Result<bool, NoMemory>
    requires { string_bytes text.old ≡ [] }
    ensures { IfOk result (IsAnsweredOrNotDone machine.old event (string_bytes text.new) machine.new) }
{
    match event {
        Event::Control(Control::Dump) => answer_dump(alloc, machine, scanner, text),
        _ => answer_other(machine, event, scanner, text),
    }
}

/// Does a command in a world, as `answer` does an event.
pub(crate) fn answer_in_world(
    world: &mut GrowingWorld,
    who: u8,
    command: &Command,
    text: &mut String,
) -> Result<bool, NoMemory>
    requires { string_bytes text.old ≡ [] }
    ensures { IfOk result (IsAnsweredOrNotGrown world.old who command.now (string_bytes text.new) world.new) }
{
    match world.command(who, command) {
        Ok(reply) => {
            push_reply_line(text, &reply)?;
            Ok(true)
        }
        Err(stop) => {
            not_done(stop, text)?;
            Ok(false)
        }
    }
}
