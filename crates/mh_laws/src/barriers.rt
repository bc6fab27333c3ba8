//! Laws of the barriers and of what is written after them.
ghost use Rattle.mh_laws.specs.Barriers.{BarriersKeepTheSnapshot, RootsWrittenKeepTheSnapshot, ObjectsMadeKeepTheSnapshot};

/// A barrier keeps what a running cycle has promised.
pub fn barriers_keep_the_snapshot()
    ensures { BarriersKeepTheSnapshot }
{}

/// A root that is overwritten after its barrier keeps what a running cycle has promised.
pub fn roots_written_keep_the_snapshot()
    ensures { RootsWrittenKeepTheSnapshot }
{}

/// The parts of a new object, which is born with the next birth, keep what a running cycle has promised.
pub fn objects_made_keep_the_snapshot()
    ensures { ObjectsMadeKeepTheSnapshot }
{}
