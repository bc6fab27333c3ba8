//! What is behind a handle: a machine, or a world in its place, which has no controls.
ghost use Rattle.std.specs.Prelude.{◌≡◌, IfOk, IfErr, OnErr};
ghost use Rattle.mh_embed.specs.Driving.{IsUndone, Takes};
ghost use Rattle.mh_embed.specs.declared.driver.Driver.TheVariants as driven;

use crate::collecting::CollectingMachine;
use crate::status::Status;
use mh_live::growing::GrowingWorld;
use mh_machine::machine::Stop;
use mh_model::command::Event;
use mh_model::reply::Reply;

/// A machine or a world.
#[derive(Drop)]
pub enum Driver {
    Collects(CollectingMachine),
    Grows(GrowingWorld),
}

fn machine_event(machine: &mut CollectingMachine, event: Event) -> Result<Reply, Status>
    ensures done { IfOk result (λ reply. Takes (driven.Collects machine.old) event reply (driven.Collects machine.new)) }
    ensures undone { IfErr result (IsUndone (driven.Collects machine.old) event) }
    ensures kept { OnErr result (machine.new ≡ machine.old) }
{
    match machine.event(event) {
        Ok(reply) => Ok(reply),
        Err(Stop::HistoryFull) => Err(Status::Full),
        Err(Stop::NoMemory) => Err(Status::NoMemory),
    }
}

fn world_event(world: &mut GrowingWorld, event: Event) -> Result<Reply, Status>
    ensures done { IfOk result (λ reply. Takes (driven.Grows world.old) event reply (driven.Grows world.new)) }
    ensures undone { IfErr result (IsUndone (driven.Grows world.old) event) }
    ensures kept { OnErr result (world.new ≡ world.old) }
{
    let Event::Session(who, command) = event else {
        return Err(Status::IsWorld);
    };
    match world.command(who, &command) {
        Ok(reply) => Ok(reply),
        Err(Stop::HistoryFull) => Err(Status::Full),
        Err(Stop::NoMemory) => Err(Status::NoMemory),
    }
}

impl Driver {
    /// Does an event.
    pub fn event(&mut self, event: Event) -> Result<Reply, Status>
        ensures done { IfOk result (λ reply. Takes self.old event reply self.new) }
        ensures undone { IfErr result (IsUndone self.old event) }
        ensures kept { OnErr result (self.new ≡ self.old) }
    {
        match self {
            Driver::Collects(machine) => machine_event(machine, event),
            Driver::Grows(world) => world_event(world, event),
        }
    }
}
