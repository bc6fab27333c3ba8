//! Laws of what a run promises.
ghost use Rattle.mh_promise.specs.Promise.{RepliesArePromised, RunsKeepTheirPromise, StoppedRunsKeepTheirPromise};

use mh_laws::bounds::{cycle_ends_within_its_bound, quanta_left_end_the_cycle};
use mh_laws::commands::{full_heap_has_no_place, no_place_is_a_full_heap, refusal_leaves_the_heap};
use mh_laws::costs::quantum_keeps_its_limit;
use mh_laws::snapshots::moments_keep_a_snapshot;
use mh_run_laws::beside_the_world::{
    finished_cycles_are_exact, moments_are_faithful, replies_are_the_worlds,
};
use mh_run_laws::forwarders::finished_cycles_made_their_forwarders;
use mh_run_laws::utilisation::{mutator_has_its_share, quanta_stay_within_their_bound};
use mh_run_laws::worlds::{moment_has_the_machine, moment_has_the_world};

/// An outcome that is the machine's keeps the promise.
pub fn runs_keep_their_promise()
    ensures { RunsKeepTheirPromise }
{
    replies_are_the_worlds();
    moments_are_faithful();
    finished_cycles_are_exact();
    finished_cycles_made_their_forwarders();
    cycle_ends_within_its_bound();
    quanta_left_end_the_cycle();
    full_heap_has_no_place();
    no_place_is_a_full_heap();
    refusal_leaves_the_heap();
    moments_keep_a_snapshot();
    mutator_has_its_share();
    quantum_keeps_its_limit();
    quanta_stay_within_their_bound();
    moment_has_the_machine();
    moment_has_the_world();
}

/// Replies that are the machine's are those of an outcome that keeps the promise.
pub fn replies_are_promised()
    ensures { RepliesArePromised }
{
    runs_keep_their_promise();
}

/// A run that stopped early keeps the promise of the events that it did.
pub fn stopped_runs_keep_their_promise()
    ensures { StoppedRunsKeepTheirPromise }
{
    runs_keep_their_promise();
}
