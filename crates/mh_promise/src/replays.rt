//! The law by which a machine that goes through its events one by one keeps the promise.
ghost use Rattle.mh_promise.specs.Replays.{EventsKeepTheReplay};

use crate::promise::runs_keep_their_promise;
use mh_run_laws::replays::{machine_after_more, machine_replies_more};

/// The step of an event takes the replay of a history to that of the history with the event, and a replay keeps the promise.
pub fn events_keep_the_replay()
    ensures { EventsKeepTheReplay }
{
    machine_after_more();
    machine_replies_more();
    runs_keep_their_promise();
}
