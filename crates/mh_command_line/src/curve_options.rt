//! What the options of `curve` ask for: of which text the curve is drawn, as what, and what is promised of all its windows.
//!
//! With `--history` and `--pauses`, `--rules` says nothing.
ghost use Rattle.std.specs.Prelude.{◌≡◌, None, codes, false, is_some};
ghost use Rattle.clap.specs.Words.{found_of, one_of, rows_of};
ghost use Rattle.mh_command_line.specs.Curves.{AreCurveOptions, AsksKept, AsksRound};
ghost use Rattle.mh_command_line.specs.{Orders.{IsOrder, Takes, broken_rule}, Values.lacks_share};

use crate::options::{is_flagged, large_number, rules_asked};
use crate::share::AskedShare;
use crate::table::MOST_OF_A_ROUND;
use clap::ArgMatches;
use mh_model::config::Rules;
use mh_orders::curve::{CurveForm, CurveOptions};
use mh_orders::order::Order;
use mh_orders::promises::{Promises, Round, Share};

/// The rounds that are promised, if any are.
#[tactic(auto, using(crate::proofs::AskedLemmas::number_passes))]
fn round_asked(matches: &ArgMatches<'_>) -> Option<Round>
    requires takes { Takes (codes "curve") (rows_of (found_of matches.now)) }
    requires both { is_some (one_of (codes "every") (rows_of (found_of matches.now))) ≡ is_some (one_of (codes "quantum") (rows_of (found_of matches.now))) }
    ensures { AsksRound (rows_of (found_of matches.now)) result }
{
    let every = large_number(matches, "every", 1, MOST_OF_A_ROUND);
    let quantum = large_number(matches, "quantum", 1, MOST_OF_A_ROUND);
    match (every, quantum) {
        (Some(every), Some(quantum)) => Some(Round { every, quantum }),
        _ => None,
    }
}

/// The share that is promised, if one is.
fn share_asked(matches: &ArgMatches<'_>) -> Option<Share>
    requires { lacks_share (codes "keeps") (rows_of (found_of matches.now)) ≡ false }
    ensures { AsksKept (rows_of (found_of matches.now)) result }
{
    match matches.get_one::<AskedShare>("keeps") {
        Some(asked) => Some(asked.share),
        None => None,
    }
}

/// How a curve is to be drawn, and what is promised of its trace.
#[tactic(auto, using(crate::proofs::AskedLemmas::number_passes, crate::proofs::AskedLemmas::both_of_round, crate::proofs::AskedLemmas::share_kept))]
fn options_asked(matches: &ArgMatches<'_>) -> CurveOptions
    requires takes { Takes (codes "curve") (rows_of (found_of matches.now)) }
    requires meets { broken_rule (codes "curve") (rows_of (found_of matches.now)) ≡ None }
    ensures { AreCurveOptions (rows_of (found_of matches.now)) result }
{
    CurveOptions {
        form: if is_flagged(matches, "svg") {
            CurveForm::Picture
        } else {
            CurveForm::Table
        },
        promises: Promises {
            round: round_asked(matches),
            longest: large_number(matches, "longest", 0, u64::MAX),
            share: share_asked(matches),
        },
    }
}

/// Which curve is to be drawn.
#[tactic(auto, using(crate::proofs::AskedLemmas::number_passes, crate::proofs::AskedLemmas::no_pauses))]
pub(crate) fn curve_asked(matches: &ArgMatches<'_>) -> Order
    requires takes { Takes (codes "curve") (rows_of (found_of matches.now)) }
    requires meets { broken_rule (codes "curve") (rows_of (found_of matches.now)) ≡ None }
    ensures { IsOrder (codes "curve") (rows_of (found_of matches.now)) result }
{
    let options = options_asked(matches);
    if is_flagged(matches, "history") {
        return Order::CurveHistory(options);
    }
    if is_flagged(matches, "pauses") {
        return Order::CurvePauses(options);
    }
    Order::Curve(rules_asked(matches, Rules::Second), options)
}
