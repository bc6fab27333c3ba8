//! A world: the heap that never collects, never moves and is never full, with how many commands it has done. It does the
//! commands of sessions. Memory is refused only to a new object, and then it is as it was.
ghost use Rattle.std.specs.Prelude.{◌≡◌, ◌≤◌, ◌↔◌, None, IfOk, IsTrue, OnErr, IsErrOf};
ghost use Rattle.mh_model.specs.{declared.reply.Reply.TheVariants.Done, Limits.most_events};
ghost use Rattle.mh_model.specs.World.{IsNew, never_full, refusal, sight_of, world_step};
ghost use Rattle.mh_machine.specs.declared.machine.Stop.{Stop};
ghost use Rattle.mh_live.specs.Worlds.{first_grown};

use mh_heap::perform::perform;
use mh_heap::plain::PlainHeap;
use mh_machine::machine::Stop;
use mh_model::command::Command;
use mh_model::config::Config;
use mh_model::limits::MOST_EVENTS;
use mh_model::memory::NoMemory;
use mh_model::reply::Reply;
use std::alloc::Global;
use std::marker::Model;

/// A world, and how many commands it has done.
#[derive(Drop)]
pub struct GrowingWorld {
    heap: PlainHeap,
    done: u64,
}

impl Model for GrowingWorld {
    ghost use Rattle.std.specs.Prelude.{◌≤◌};
    ghost use Rattle.mh_heap.specs.PlainHeap.{world_of};
    ghost use Rattle.mh_model.specs.{Limits.most_events, World.births};
    ghost use Rattle.mh_live.specs.Worlds.{Grown};

    ghost Value = { Grown };

    ghost view = { λ w. record { world = world_of w.heap; done = w.done } };

    ghost invariant = { λ w. (births (world_of w.heap) ≤ w.done) × (w.done ≤ most_events) };
}

impl GrowingWorld {
    ghost use Rattle.mh_live.specs.Worlds.{Growing};

    /// The world without an object, which takes no memory.
    #[tactic(auto, unfolding(mh_model::specs::Limits::most_events))]
    pub fn open(alloc: Global, config: Config) -> GrowingWorld
        ensures { result ≡ first_grown config }
    {
        GrowingWorld {
            heap: PlainHeap::open(alloc, config),
            done: 0,
        }
    }

    /// Does a command of the session `who`.
    #[tactic(auto, unfolding(mh_model::specs::Limits::most_events))]
    pub fn command(&mut self, who: u8, command: &Command) -> Result<Reply, Stop>
        ensures done { IfOk result (λ reply. Growing self.old who command.now reply self.new) }
        ensures kept { OnErr result (self.new ≡ self.old) }
        ensures full { IsErrOf result Stop.HistoryFull → most_events ≤ self.old.done }
        ensures memory { IsErrOf result Stop.NoMemory → IsNew command.now }
        ensures asked { IsErrOf result Stop.NoMemory → refusal (sight_of never_full self.old.world) who command.now ≡ None }
    {
        if self.done >= MOST_EVENTS {
            return Err(Stop::HistoryFull);
        }
        match perform(&mut self.heap, who, command) {
            Ok(reply) => {
                self.done += 1;
                Ok(reply)
            }
            Err(NoMemory) => Err(Stop::NoMemory),
        }
    }

    /// Whether it would make the new object that a command asks for.
    pub fn makes(&self, who: u8, command: &Command) -> bool
        ensures { IsTrue result ↔ IsNew command.now × ((world_step self.now.world who command.now).reply ≡ Done) }
    {
        match *command {
            Command::New {
                slot,
                references,
                numbers,
            } => self
                .heap
                .refusal_of_new(who, slot, references, numbers)
                .is_none(),
            _ => false,
        }
    }
}
