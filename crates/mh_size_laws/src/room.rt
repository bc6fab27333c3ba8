//! The laws of room: what is enough for a run.
ghost use Rattle.mh_size_laws.specs.Rates.{RoomAtRateSuffices};
ghost use Rattle.mh_size_laws.specs.Room.{CyclesTakeTheBound, RoomFromAMomentSuffices, RoomInARowSuffices};
ghost use Rattle.mh_size_laws.specs.Rooms.{EachRunHasItsRoom};

use crate::worlds::never_full_is_the_world;

/// A run with room for what intervals in a row open, since its first cycle started, is never answered by a full heap.
pub fn room_in_a_row_suffices()
    ensures { RoomInARowSuffices }
{}

/// A run with such room from some moment on is never answered by a full heap from that moment on.
pub fn room_from_a_moment_suffices()
    ensures { RoomFromAMomentSuffices }
{}

/// No cycle takes more quanta than its bound.
pub fn cycles_take_the_bound()
    ensures { CyclesTakeTheBound }
{}

/// A heap with room at a rate is never full while its sessions keep to the rate.
pub fn room_at_rate_suffices()
    ensures { RoomAtRateSuffices }
{}

/// A run is never full that has room, whether what it opens is counted or bounded by a rate.
pub fn each_run_has_its_room()
    ensures { EachRunHasItsRoom }
{
    cycles_take_the_bound();
    room_in_a_row_suffices();
    room_at_rate_suffices();
    never_full_is_the_world();
}
