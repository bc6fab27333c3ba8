//! Laws of the lock.
ghost use Rattle.mh_seat_laws.specs.Laws.{EventsHaveOneOwner, LockIsKept, LogsMergeToTheHistory};

/// A table that keeps the rule of the lock shows a lock that keeps the model's rule.
pub fn lock_is_kept<T, E, O>()
    ensures { LockIsKept T E O }
{}

/// Each event is owned by one of the nine seats.
pub fn events_have_one_owner()
    ensures { EventsHaveOneOwner }
{}

/// Logs of what each of the nine seats owns of a history merge to that history.
pub fn logs_merge_to_the_history()
    ensures { LogsMergeToTheHistory }
{}
