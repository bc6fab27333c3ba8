//! Laws of marking by batches.
ghost use Rattle.mh_laws.specs.Batches.{AnyCutIntoBatchesIsTheSame};

/// Marking by batches, whatever the cut, gives the machine of one block at a time.
pub fn any_cut_into_batches_is_the_same()
    ensures { AnyCutIntoBatchesIsTheSame }
{}
