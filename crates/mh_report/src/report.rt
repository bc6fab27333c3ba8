//! Reports on a trace, for one window each. The numbers of a report are the model's.
ghost use Rattle.std.specs.Prelude.{◌≡◌};
ghost use Rattle.mh_model.specs.Machine.{report_on, floor_of};

use crate::floor::floor;
use crate::trace::Trace;
use mh_model::config::Config;
use mh_model::report::Report;

/// The report of a window. Of the first 512 windows it is remembered how far the trace was gone over, so that only what
/// it has grown by since then is, as `Trace::resume_least_mutator` says.
pub fn report(trace: &mut Trace, config: &Config, window: u64) -> Report
    ensures report { result ≡ report_on config.now trace.old.trace window }
    ensures kept { trace.new ≡ trace.old }
{
    Report {
        mutator: trace.mutator_count(),
        collector: trace.collector_count(),
        quanta: trace.quanta(),
        greatest: trace.greatest(),
        window,
        least: trace.resume_least_mutator(window),
        floor: floor_of(config, window),
    }
}

/// The floor of a window, none if no quantum is scheduled.
#[tactic(auto, using(crate::proofs::FloorLemmas::in_limits))]
fn floor_of(config: &Config, window: u64) -> Option<u64>
    ensures { result ≡ floor_of config.now window }
{
    let every = u64::from(config.every);
    let quantum = u64::from(config.quantum);
    if every == 0 {
        None
    } else {
        Some(floor(every, quantum, window))
    }
}
