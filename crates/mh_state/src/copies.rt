//! Copies of replies, for which memory is asked before an event is done.
//!
//! An answer that is given twice is the same both times.
//!
//! Only a dump takes memory. History, log and caller share its items, and the dump that the machine makes as it answers
//! is dropped. Each of the three has a handle to the items (`Arc`). The handles are made before the event too, since a
//! count of handles can be full. Every other reply is copied without memory.
ghost use Rattle.std.specs.Prelude.{◌≡◌, IfOk, OnErr};
ghost use Rattle.mh_model.specs.Machine.{event_step};
ghost use Rattle.mh_state.specs.Auxiliary.{IsNoDump, IsDumpOf};
ghost use Rattle.mh_model.specs.declared.command.Control.TheVariants as controls;
ghost use Rattle.mh_model.specs.declared.command.Event.TheVariants as events;

use mh_machine::machine::Machine;
use mh_model::command::{Control, Event};
use mh_model::dump::Dump;
use mh_model::memory::NoMemory;
use mh_model::reply::Reply;
use std::alloc::Global;
use std::marker::Model;

/// A reply, and an equal one, which shows itself as the reply.
#[derive(Drop)]
pub struct Twice {
    given: Reply,
    kept: Reply,
}

impl Model for Twice {
    ghost use Rattle.std.specs.Prelude.{◌≡◌};
    ghost use Rattle.mh_model.specs.declared.reply.Reply.{Reply};

    ghost Value = { Reply };

    ghost view = { λ twice. twice.given };

    ghost invariant = { λ twice. twice.kept ≡ twice.given };
}

impl Twice {
    /// The reply, and the equal one.
    pub fn both(self) -> (Reply, Reply)
        ensures { result ≡ (self, self) }
    {
        let Twice { given, kept } = self;
        (given, kept)
    }
}

/// A dump three times over, which shows itself as the dump. The three share their items.
#[derive(Drop)]
pub(crate) struct Dumps {
    given: Dump,
    kept: Dump,
    entered: Dump,
}

impl Model for Dumps {
    ghost use Rattle.std.specs.Prelude.{◌≡◌, List};
    ghost use Rattle.mh_model.specs.declared.dump.DumpItem.{DumpItem};

    ghost Value = { List DumpItem };

    ghost view = { λ dumps. dumps.given };

    ghost invariant = { λ dumps. (dumps.kept ≡ dumps.given) × (dumps.entered ≡ dumps.given) };
}

impl Dumps {
    fn new(given: Dump) -> Result<Dumps, NoMemory>
        ensures { IfOk result (λ dumps. dumps ≡ given) }
    {
        Ok(Dumps {
            kept: given.clone()?,
            entered: given.clone()?,
            given,
        })
    }
}

/// The dump that an event will be answered, if it asks for one.
#[tactic(auto, unfolding(mh_model::specs::Machine::event_step, mh_model::specs::Machine::control_step))]
pub(crate) fn dumps_for(
    alloc: Global,
    machine: &Machine,
    event: Event,
) -> Result<Option<Dumps>, NoMemory>
    ensures dumps { IfOk result (λ dumps. IsDumpOf (event_step machine.now.machine event).reply dumps) }
    ensures memory { OnErr result (event ≡ events.Control controls.Dump) }
{
    match event {
        Event::Session(_, _) => Ok(None),
        Event::Control(control) => match control {
            Control::Dump => Ok(Some(Dumps::new(machine.heap().dump(alloc)?)?)),
            _ => Ok(None),
        },
    }
}

/// An equal reply, which takes no memory.
fn plain_copy(reply: &Reply) -> Reply
    requires { IsNoDump reply.now }
    ensures { result ≡ reply.now }
{
    match reply {
        Reply::Done => Reply::Done,
        Reply::Number(number) => Reply::Number(*number),
        Reply::Yes => Reply::Yes,
        Reply::No => Reply::No,
        Reply::Shape(shape) => Reply::Shape(*shape),
        Reply::Refused(refusal) => Reply::Refused(*refusal),
        Reply::Spent { units, phase } => Reply::Spent {
            units: *units,
            phase: *phase,
        },
        Reply::Stat(stat) => Reply::Stat(*stat),
        Reply::Dump(_) => unreachable!(),
        Reply::Report(report) => Reply::Report(*report),
        Reply::Left(quanta) => Reply::Left(*quanta),
    }
}

/// A reply for the history and twice over for the caller, of a dump by the dumps that are given. It takes no memory.
pub(crate) fn copies_of(reply: Reply, dumps: Option<Dumps>) -> (Reply, Twice)
    requires { IsDumpOf reply dumps }
    ensures { result ≡ (reply, reply) }
{
    match dumps {
        Some(dumps) => {
            let Dumps {
                given,
                kept,
                entered,
            } = dumps;
            let twice = Twice {
                given: Reply::Dump(given),
                kept: Reply::Dump(kept),
            };
            (Reply::Dump(entered), twice)
        }
        None => {
            let entered = plain_copy(&reply);
            let kept = plain_copy(&reply);
            let twice = Twice { given: reply, kept };
            (entered, twice)
        }
    }
}
