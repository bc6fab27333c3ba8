//! What the options of each subcommand ask for, of which no rule is broken.
ghost use Rattle.std.specs.Prelude.{◌≡◌, ◌<◌, ◌≤◌, None, codes, IfOk, IfErr, IfSome};
ghost use Rattle.clap.specs.Words.{IsUnsignedIn, found_of, one_of, rows_of};
ghost use Rattle.mh_command_line.specs.Orders.{AreLiveOptions, AreRangeOptions, AreRunOptions, AreStepsOptions, HasFewWorkers, HasFirstRules, IsOrder, Takes, broken_rule};
ghost use Rattle.mh_command_line.specs.Auxiliary.{HasOptionFault};

use crate::curve_options::curve_asked;
use crate::generate_options::generate_asked;
use crate::options::{
    OptionFault, config_given, is_flagged, number, rules_asked, rules_given, workers_asked,
};
use crate::size_options::size_asked;
use clap::ArgMatches;
use mh_model::config::Rules;
use mh_orders::order::{
    LiveHeap, LiveOptions, LogOptions, Order, RunForm, RunOptions, SessionsOptions, StepsOptions,
};
use mh_orders::range::RangeOptions;
use mh_orders::steps::{Steps, StepsForm};

/// How a script is to be run.
#[tactic(auto, using(crate::proofs::AskedLemmas::number_passes))]
fn run_asked(matches: &ArgMatches<'_>) -> RunOptions
    requires { Takes (codes "run") (rows_of (found_of matches.now)) }
    ensures options { AreRunOptions (rows_of (found_of matches.now)) result }
    ensures few { (0 < result.workers) × (result.workers ≤ 64) }
{
    RunOptions {
        workers: workers_asked(matches),
        rules: rules_asked(matches, Rules::Second),
        form: if is_flagged(matches, "history") {
            RunForm::History
        } else {
            RunForm::Replies
        },
    }
}

/// How lines are to be answered.
#[tactic(auto, using(crate::proofs::AskedLemmas::number_passes))]
fn live_asked(matches: &ArgMatches<'_>) -> LiveOptions
    requires { Takes (codes "live") (rows_of (found_of matches.now)) }
    ensures options { AreLiveOptions (rows_of (found_of matches.now)) result }
    ensures few { (0 < result.workers) × (result.workers ≤ 64) }
{
    LiveOptions {
        workers: workers_asked(matches),
        heap: if is_flagged(matches, "world") {
            LiveHeap::World
        } else {
            LiveHeap::Machine
        },
    }
}

/// Which events of a run are to be written.
fn range_asked(matches: &ArgMatches<'_>) -> RangeOptions
    requires rules { IfSome (one_of (codes "rules") (rows_of (found_of matches.now))) (IsUnsignedIn 1 2) }
    requires from { IfSome (one_of (codes "from") (rows_of (found_of matches.now))) (IsUnsignedIn 0 4294967295) }
    requires to { IfSome (one_of (codes "to") (rows_of (found_of matches.now))) (IsUnsignedIn 0 4294967295) }
    ensures { AreRangeOptions (rows_of (found_of matches.now)) result }
{
    let rules = rules_asked(matches, Rules::Second);
    RangeOptions {
        rules,
        from: number(matches, "from", 0, u32::MAX).unwrap_or(1),
        to: number(matches, "to", 0, u32::MAX).unwrap_or(u32::MAX),
    }
}

/// As what the steps of a script are to be written. With `--chrome`, `--json` says nothing.
#[tactic(auto, using(crate::proofs::AskedLemmas::number_passes))]
fn steps_asked(matches: &ArgMatches<'_>) -> Order
    requires { Takes (codes "steps") (rows_of (found_of matches.now)) }
    ensures { IsOrder (codes "steps") (rows_of (found_of matches.now)) result }
{
    let range = range_asked(matches);
    if is_flagged(matches, "chrome") {
        return Order::Chrome(range);
    }
    let form = if is_flagged(matches, "json") {
        StepsForm::Json
    } else {
        StepsForm::Text
    };
    let RangeOptions { rules, from, to } = range;
    Order::Steps(StepsOptions {
        steps: Steps { form, from, to },
        rules,
    })
}

/// What `check` is to do: judge a history under a configuration, or by what its sessions see, or a log with its order. A
/// history by what its sessions see has the rules that it names, if none are asked for. A log names none, and has the
/// second.
#[tactic(auto, using(crate::proofs::AskedLemmas::number_passes, crate::proofs::AskedLemmas::no_config_of_log, crate::proofs::AskedLemmas::no_config_of_sessions, crate::proofs::AskedLemmas::no_sessions_of_log, crate::proofs::AskedLemmas::no_full_alone))]
fn check_asked<'a>(matches: &ArgMatches<'a>) -> Result<Order, OptionFault<'a>>
    requires takes { Takes (codes "check") (rows_of (found_of matches.now)) }
    requires meets { broken_rule (codes "check") (rows_of (found_of matches.now)) ≡ None }
    ensures order { IfOk result (IsOrder (codes "check") (rows_of (found_of matches.now))) }
    ensures few { IfOk result HasFewWorkers }
    ensures rules { IfOk result HasFirstRules }
    ensures fault { IfErr result (HasOptionFault (codes "check") (rows_of (found_of matches.now))) }
{
    let may_be_full = !is_flagged(matches, "no-full");
    if is_flagged(matches, "log") {
        let rules = rules_asked(matches, Rules::Second);
        return Ok(Order::CheckLog(LogOptions { rules, may_be_full }));
    }
    if is_flagged(matches, "sessions") {
        let rules = rules_given(matches);
        return Ok(Order::CheckSessions(SessionsOptions { rules, may_be_full }));
    }
    let rules = rules_asked(matches, Rules::First);
    Ok(Order::Check(config_given(matches, rules)?))
}

/// The order of a subcommand's options, of which no rule is broken.
#[tactic(auto, using(crate::proofs::AskedLemmas::number_passes, crate::proofs::AskedLemmas::no_other))]
pub(crate) fn order_named<'a>(
    name: &str,
    matches: &ArgMatches<'a>,
) -> Result<Order, OptionFault<'a>>
    requires takes { Takes name.now (rows_of (found_of matches.now)) }
    requires meets { broken_rule name.now (rows_of (found_of matches.now)) ≡ None }
    ensures order { IfOk result (IsOrder name.now (rows_of (found_of matches.now))) }
    ensures few { IfOk result HasFewWorkers }
    ensures rules { IfOk result HasFirstRules }
    ensures fault { IfErr result (HasOptionFault name.now (rows_of (found_of matches.now))) }
{
    match name {
        "run" => Ok(Order::Run(run_asked(matches))),
        "steps" => Ok(steps_asked(matches)),
        "cycles" => Ok(Order::Cycles(rules_asked(matches, Rules::Second))),
        "show" => Ok(Order::Show(range_asked(matches))),
        "live" => Ok(Order::Live(live_asked(matches))),
        "race" => Ok(Order::Race(workers_asked(matches))),
        "check" => check_asked(matches),
        "audit" => Ok(Order::Audit),
        "migrate" => Ok(Order::Migrate(config_given(matches, Rules::First)?)),
        "generate" => Ok(Order::Generate(generate_asked(matches)?)),
        "curve" => Ok(curve_asked(matches)),
        "size" => Ok(size_asked(matches)),
        _ => unreachable!(),
    }
}
