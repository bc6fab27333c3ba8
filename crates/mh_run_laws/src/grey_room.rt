//! Laws of the room of the grey list.
ghost use Rattle.mh_run_laws.specs.GreyRoom.{NoPlaceTurnsGreyAgain};

/// In a cycle a place enters the grey list at most once.
pub fn no_place_turns_grey_again()
    ensures { NoPlaceTurnsGreyAgain }
{}
