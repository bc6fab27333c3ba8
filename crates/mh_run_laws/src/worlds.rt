//! Laws of a heap that is seen as a world, beside the ever-growing world.
ghost use Rattle.mh_run_laws.specs.Worlds.{WorldIsNeverFull, MomentHasTheMachine, MomentHasTheWorld};

/// The ever-growing world never answers that the heap is full.
pub fn world_is_never_full()
    ensures { WorldIsNeverFull }
{}

/// The machine of a moment is the machine after the same events.
pub fn moment_has_the_machine()
    ensures { MomentHasTheMachine }
{}

/// The world of a moment is the world beside that machine.
pub fn moment_has_the_world()
    ensures { MomentHasTheWorld }
{}
