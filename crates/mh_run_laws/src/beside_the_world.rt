//! Laws of runs, beside the ever-growing world of their commands.
ghost use Rattle.mh_run_laws.specs.BesideTheWorld.{MomentsAreFaithful, RepliesAreTheWorlds, FinishedCyclesAreExact};

/// At every moment of a run the heap keeps the snapshot of its cycle and shows what agrees with the world.
pub fn moments_are_faithful()
    ensures { MomentsAreFaithful }
{}

/// Every reply of a run but a full heap is that of the ever-growing world.
pub fn replies_are_the_worlds()
    ensures { RepliesAreTheWorlds }
{}

/// A quantum of a run that ends its cycle leaves exactly what the cycle's snapshot reached and what was born since.
pub fn finished_cycles_are_exact()
    ensures { FinishedCyclesAreExact }
{}
