//! A law of the memory that is refused to events once a machine has room for them.
ghost use Rattle.mh_machine.specs.Reserved.{ReservedEventsAskForNoMemory};

/// Where there is room for some events, none of the first so many is refused memory, unless it is a dump.
pub fn reserved_events_ask_for_no_memory()
    ensures { ReservedEventsAskForNoMemory }
{}
