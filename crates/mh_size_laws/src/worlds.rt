//! What the replies of a run are that is never full.
ghost use Rattle.mh_size_laws.specs.Worlds.{NeverFullIsTheWorld};

/// A run that is never full is answered as a heap that never collects and never fills.
pub fn never_full_is_the_world()
    ensures { NeverFullIsTheWorld }
{}
