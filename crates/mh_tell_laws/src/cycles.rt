//! The cycles of a run, and two laws: the numbers of a cycle add up, and the deeds of a quantum have as many units as it spends.
//! Each is what a function with nothing to do ensures.
ghost use Rattle.mh_tell_laws.specs.CycleLaws.{CyclesAddUp, QuantaTellTheirUnits};

/// The numbers of each cycle add up.
pub fn cycles_add_up()
    ensures { CyclesAddUp }
{}

/// The deeds of a quantum have as many units as it spends.
pub fn quanta_tell_their_units()
    ensures { QuantaTellTheirUnits }
{}
