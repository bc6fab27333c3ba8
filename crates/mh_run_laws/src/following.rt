//! Laws of commands on the pages, beside the same commands on what the heap shows.
ghost use Rattle.mh_run_laws.specs.Following.{SameFollows, GetFollows, CommandsFollow};

/// Two slots are compared on the pages as they are in what the heap shows.
pub fn same_follows()
    ensures { SameFollows }
{}

/// A reference is read into a slot on the pages as it is in what the heap shows.
pub fn get_follows()
    ensures { GetFollows }
{}

/// Each of the twelve commands does on the pages what it does on what the heap shows.
pub fn commands_follow()
    ensures { CommandsFollow }
{}
