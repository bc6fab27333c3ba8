//! Which size is asked for, by the options of `size`.
//!
//! A target asks for a share, and without one any option of a heap for that heap. If neither is given, a script is
//! sized. Pages in use stand for the options of a heap, since each wants them.
ghost use Rattle.std.specs.Prelude.{◌≡◌, IsTrue, IsSome, None, codes, false};
ghost use Rattle.clap.specs.Words.{found_of, one_of, rows_of};
ghost use Rattle.mh_command_line.specs.Orders.{IsOrder, Takes, broken_rule};
ghost use Rattle.mh_command_line.specs.Sizes.{AreRoomOptions, AreScriptOptions, AreTargetOptions, AsksCycles, AsksRates, IsGivenBesideTarget};
ghost use Rattle.mh_orders.specs.Given.{is_given_within, is_length_within};

use crate::options::{has_text, large_needed, large_number, needed, number, rules_asked};
use crate::rates::AskedRates;
use crate::table::{MOST_PARTS, MOST_QUANTA};
use clap::ArgMatches;
use mh_model::config::Rules;
use mh_model::limits::{LEAST_QUANTUM, MOST_EVERY, MOST_PAGES, MOST_QUANTUM};
use mh_orders::order::{Order, SizeOptions};
use mh_orders::rates::Rates;
use mh_orders::room_options::{CycleLength, RoomOptions};
use mh_orders::target_options::{Given, Target, TargetOptions};

/// How fast blocks are to be made.
fn rates_asked(matches: &ArgMatches<'_>) -> Rates
    requires meets { broken_rule (codes "size") (rows_of (found_of matches.now)) ≡ None }
    requires used { IsSome (one_of (codes "used") (rows_of (found_of matches.now))) }
    ensures { AsksRates (rows_of (found_of matches.now)) result }
{
    match matches.get_one::<AskedRates>("rate") {
        Some(asked) => asked.rates,
        None => unreachable!(),
    }
}

/// How long cycles take.
#[tactic(auto, using(crate::proofs::AskedLemmas::number_passes, crate::proofs::AskedLemmas::given_passes, crate::proofs::AskedLemmas::quantum_of_heap, crate::proofs::AskedLemmas::no_quantum_of_heap))]
fn cycles_asked(matches: &ArgMatches<'_>) -> CycleLength
    requires takes { Takes (codes "size") (rows_of (found_of matches.now)) }
    requires meets { broken_rule (codes "size") (rows_of (found_of matches.now)) ≡ None }
    requires used { IsSome (one_of (codes "used") (rows_of (found_of matches.now))) }
    ensures cycles { AsksCycles (rows_of (found_of matches.now)) result }
    ensures within { IsTrue (is_length_within result) }
{
    if let Some(quanta) = number(matches, "quanta", 1, MOST_QUANTA) {
        return CycleLength::Quanta(quanta);
    }
    CycleLength::Quantum(needed(matches, "quantum", LEAST_QUANTUM, MOST_QUANTUM))
}

/// Which programs a heap is to have room for.
#[tactic(auto, using(crate::proofs::AskedLemmas::number_passes, crate::proofs::AskedLemmas::given_passes, crate::proofs::AskedLemmas::every_of_heap, crate::proofs::AskedLemmas::window_of_heap, crate::proofs::AskedLemmas::rules_of_heap))]
fn room_asked(matches: &ArgMatches<'_>) -> RoomOptions
    requires takes { Takes (codes "size") (rows_of (found_of matches.now)) }
    requires meets { broken_rule (codes "size") (rows_of (found_of matches.now)) ≡ None }
    requires target { one_of (codes "target") (rows_of (found_of matches.now)) ≡ None }
    requires used { IsSome (one_of (codes "used") (rows_of (found_of matches.now))) }
    ensures { AreRoomOptions (rows_of (found_of matches.now)) result }
{
    RoomOptions {
        used: needed(matches, "used", 0, MOST_PAGES),
        every: needed(matches, "every", 1, MOST_EVERY),
        rates: rates_asked(matches),
        most_parts: number(matches, "parts", 1, MOST_PARTS).unwrap_or(1),
        length: cycles_asked(matches),
    }
}

/// What is given of a configuration that is to keep a target.
#[tactic(auto, using(crate::proofs::AskedLemmas::number_passes, crate::proofs::AskedLemmas::one_of_target))]
fn given_asked(matches: &ArgMatches<'_>) -> Given
    requires takes { Takes (codes "size") (rows_of (found_of matches.now)) }
    requires meets { broken_rule (codes "size") (rows_of (found_of matches.now)) ≡ None }
    requires target { IsSome (one_of (codes "target") (rows_of (found_of matches.now))) }
    ensures given { IsGivenBesideTarget (rows_of (found_of matches.now)) result }
    ensures within { IsTrue (is_given_within result) }
{
    if let Some(every) = number(matches, "every", 1, MOST_EVERY) {
        return Given::Every(every);
    }
    match number(matches, "quantum", LEAST_QUANTUM, MOST_QUANTUM) {
        Some(quantum) => Given::Quantum(quantum),
        None => Given::Nothing,
    }
}

/// Which share is to be kept.
#[tactic(auto, using(crate::proofs::AskedLemmas::number_passes, crate::proofs::AskedLemmas::given_passes, crate::proofs::AskedLemmas::window_of_target, crate::proofs::AskedLemmas::counts_of_target, crate::proofs::AskedLemmas::rules_of_target))]
fn target_asked(matches: &ArgMatches<'_>) -> TargetOptions
    requires takes { Takes (codes "size") (rows_of (found_of matches.now)) }
    requires meets { broken_rule (codes "size") (rows_of (found_of matches.now)) ≡ None }
    requires target { IsSome (one_of (codes "target") (rows_of (found_of matches.now))) }
    ensures { AreTargetOptions (rows_of (found_of matches.now)) result }
{
    TargetOptions {
        target: Target {
            percent: needed(matches, "target", 1, 100),
            window: large_needed(matches, "window", 1, u64::MAX),
        },
        given: given_asked(matches),
    }
}

/// How a script is to be sized.
#[tactic(auto, using(crate::proofs::AskedLemmas::number_passes, crate::proofs::AskedLemmas::no_heap))]
fn script_asked(matches: &ArgMatches<'_>) -> SizeOptions
    requires takes { Takes (codes "size") (rows_of (found_of matches.now)) }
    requires meets { broken_rule (codes "size") (rows_of (found_of matches.now)) ≡ None }
    requires target { one_of (codes "target") (rows_of (found_of matches.now)) ≡ None }
    requires used { one_of (codes "used") (rows_of (found_of matches.now)) ≡ None }
    ensures { AreScriptOptions (rows_of (found_of matches.now)) result }
{
    SizeOptions {
        rules: rules_asked(matches, Rules::Second),
        window: large_number(matches, "window", 1, u64::MAX),
    }
}

/// Which size is asked for.
#[tactic(auto, using(crate::proofs::AskedLemmas::not_some))]
pub(crate) fn size_asked(matches: &ArgMatches<'_>) -> Order
    requires takes { Takes (codes "size") (rows_of (found_of matches.now)) }
    requires meets { broken_rule (codes "size") (rows_of (found_of matches.now)) ≡ None }
    ensures { IsOrder (codes "size") (rows_of (found_of matches.now)) result }
{
    if has_text(matches, "target") {
        return Order::SizeTarget(target_asked(matches));
    }
    if has_text(matches, "used") {
        return Order::SizeRoom(room_asked(matches));
    }
    Order::SizeScript(script_asked(matches))
}
