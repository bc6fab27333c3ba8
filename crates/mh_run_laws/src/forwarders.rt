//! A law of forwarders: a cycle of a run leaves only those that its own defragmentation made.
ghost use Rattle.mh_run_laws.specs.Forwarders.{FinishedCyclesMadeTheirForwarders};

/// A quantum of a run that ends its cycle leaves only forwarders that were made since the cycle's defragmentation began.
pub fn finished_cycles_made_their_forwarders()
    ensures { FinishedCyclesMadeTheirForwarders }
{}
