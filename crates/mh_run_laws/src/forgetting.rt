//! Laws of a trace whose beginning was forgotten. All that grows with the events of a machine is its trace. So a machine
//! that forgets it now and then needs no more memory, and these laws say what that changes: reports, which then count from
//! there, and nothing else. Each is what a function with nothing to do ensures.
ghost use Rattle.mh_run_laws.specs.ForgettingLaws.{EventsKeepWhatIsRecalled, ForgottenTracesKeepTheirPromise};

/// A machine that has forgotten the beginning of its trace answers each event, but a report, as one that hasn't, and goes on
/// as that does.
pub fn events_keep_what_is_recalled()
    ensures { EventsKeepWhatIsRecalled }
{}

/// A report of a run whose trace was forgotten keeps what the configuration promises, as each report of the whole run does.
pub fn forgotten_traces_keep_their_promise()
    ensures { ForgottenTracesKeepTheirPromise }
{}
