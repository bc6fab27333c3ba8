//! Laws of machines and worlds behind handles: calls keep the promise, a line is answered as in a run line by line, each
//! event has numbers, and memory is refused to no event for which there is room.
ghost use Rattle.mh_embed.specs.Laws.{CallsKeepThePromise, EndsAreCalls, EventsHaveNumbers, LinesAreTurns, ReservedEventsAreNotRefusedMemory};

use mh_machine::reserved::reserved_events_ask_for_no_memory;
use mh_promise::replays::events_keep_the_replay;
use mh_run_laws::forgetting::{events_keep_what_is_recalled, forgotten_traces_keep_their_promise};

/// Calls on the machine of a configuration keep the promise, also if its trace is forgotten between them. It is that of the
/// events that they did, as numbers or by lines, and of the replies to these.
pub fn calls_keep_the_promise()
    ensures { CallsKeepThePromise }
{
    events_keep_the_replay();
    events_keep_what_is_recalled();
    forgotten_traces_keep_their_promise();
}

/// Each call that may change what is driven is one of those that keep the promise.
#[tactic(auto, using(crate::proofs::PromiseLemmas::are_calls))]
pub fn ends_are_calls()
    ensures { EndsAreCalls }
{}

/// A line whose event is done is answered as in a run line by line.
#[tactic(auto, using(crate::proofs::TurnLemmas::are_turns))]
pub fn lines_are_turns()
    ensures { LinesAreTurns }
{}

/// Each event can be asked as numbers.
#[tactic(auto, using(crate::proofs::NumberLemmas::have_numbers))]
pub fn events_have_numbers()
    ensures { EventsHaveNumbers }
{}

/// Once there is room for some events, memory is refused to none of the next so many, but for dumps; and so to none of so
/// many after each time that the trace is forgotten.
pub fn reserved_events_are_not_refused_memory()
    ensures { ReservedEventsAreNotRefusedMemory }
{
    reserved_events_ask_for_no_memory();
}
