//! The heap that never collects, which runs along with a script. A command that it would refuse never goes out: another
//! that is never refused does in its place. So that there is one, the first session stays.
ghost use Rattle.std.specs.Prelude.{◌≡◌, ◌<◌, ◌≤◌, ◌+◌, true, IfOk};
ghost use Rattle.mh_heap.specs.PlainHeap.{world_of};
ghost use Rattle.mh_model.specs.{declared.birth.TheConstants.LIFE, Forms.{command_phrase, is_sayable}};
ghost use Rattle.mh_model.specs.World.{births, first_world};
ghost use Rattle.mh_generate.specs.Auxiliary.{IsSaid, ends_first, is_first_here};
ghost use Rattle.mh_generate.specs.Taken.{is_refused, is_taken, world_then};
ghost use Rattle.mh_model.specs.declared.command.Event.TheVariants as event;

use mh_heap::perform::perform;
use mh_heap::plain::PlainHeap;
use mh_model::command::Command;
use mh_model::config::Config;
use mh_model::memory::NoMemory;
use mh_model::reply::Reply;
use std::alloc::Global;

/// A command that is never refused to a session that has not ended, and changes nothing.
const NOTHING: Command = Command::Same { left: 0, right: 0 };

/// A heap in which the first session has not ended.
#[derive(Drop)]
pub(crate) struct HeapAlong {
    pub(crate) heap: PlainHeap,
    pub(crate) ghost stays: { is_first_here (world_of heap) ≡ true },
}

/// Whether a command ends the first session.
fn ends_first(who: u8, command: &Command) -> bool
    ensures { result ≡ ends_first who command.now }
{
    who == 0 && matches!(command, Command::End)
}

fn is_refused(reply: &Reply) -> bool
    ensures { result ≡ is_refused reply.now }
{
    matches!(reply, Reply::Refused(_))
}

impl HeapAlong {
    pub(crate) fn open(alloc: Global, config: Config) -> HeapAlong
        ensures { world_of result.heap ≡ first_world config }
    {
        HeapAlong {
            heap: PlainHeap::open(alloc, config),
        }
    }

    /// Does a command of a session, and answers what was done by whom: the command, or nothing by the first session.
    pub(crate) fn admit(&mut self, who: u8, command: Command) -> Result<(u8, Command), NoMemory>
        requires { births (world_of self.old.heap) < LIFE }
        ensures said { IfOk result (IsSaid who command) }
        ensures sayable { IfOk result (λ said. is_sayable (command_phrase said.1) ≡ true) }
        ensures taken { IfOk result (λ said. is_taken (world_of self.old.heap) (event.Session said.0 said.1) ≡ true) }
        ensures step { IfOk result (λ said. world_of self.new.heap ≡ world_then (world_of self.old.heap) (event.Session said.0 said.1)) }
        ensures few { births (world_of self.new.heap) ≤ births (world_of self.old.heap) + 1 }
    {
        if ends_first(who, &command) {
            return Ok((0, NOTHING));
        }
        let reply = perform(&mut self.heap, who, &command)?;
        if is_refused(&reply) {
            Ok((0, NOTHING))
        } else {
            Ok((who, command))
        }
    }
}
