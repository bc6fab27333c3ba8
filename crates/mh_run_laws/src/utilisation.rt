//! Laws of the units that quanta spend and of the mutator's share of the trace.
ghost use Rattle.mh_run_laws.specs.Utilisation.{MutatorHasItsShare, QuantaStayWithinTheirBound};

/// No quantum spends more than is configured, and one that leaves its cycle running leaves at most 208 units.
pub fn quanta_stay_within_their_bound()
    ensures { QuantaStayWithinTheirBound }
{}

/// If the scheduler runs quanta, the mutator has its share of each stretch of the trace.
pub fn mutator_has_its_share()
    ensures { MutatorHasItsShare }
{}
