//! A law of forwarders: a quantum leaves only those that its own defragmentation made.
ghost use Rattle.mh_laws.specs.Forwarders.{QuantaMakeTheirForwarders};

/// When a defragmentation begins no block is a forwarder, and a quantum leaves a cycle in defragmentation or ended only if
/// it was entered there or begins to defragment.
pub fn quanta_make_their_forwarders()
    ensures { QuantaMakeTheirForwarders }
{}
