//! Laws of the commands of sessions.
ghost use Rattle.mh_laws.specs.Commands.{CommandKeepsTheCourse, RefusalLeavesTheHeap, FullHeapHasNoPlace, NoPlaceIsAFullHeap, CommandsAreAnswered};

/// A command changes no phase, cursor, cycle number, asking or quanta, and keeps the pages and their slots.
pub fn command_keeps_the_course()
    ensures { CommandKeepsTheCourse }
{}

/// A refused command leaves the heap as it was.
pub fn refusal_leaves_the_heap()
    ensures { RefusalLeavesTheHeap }
{}

/// A new object is refused by a full heap only if its parts aren't made.
pub fn full_heap_has_no_place()
    ensures { FullHeapHasNoPlace }
{}

/// A new object that no other test refuses is refused by a full heap if its parts aren't made.
pub fn no_place_is_a_full_heap()
    ensures { NoPlaceIsAFullHeap }
{}

/// A command that a test refuses changes nothing, and one that none refuses has its effect.
pub fn commands_are_answered()
    ensures { CommandsAreAnswered }
{}
