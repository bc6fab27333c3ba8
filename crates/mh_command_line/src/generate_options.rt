//! What the options of `generate` ask for.
//!
//! The trigger of a random script is half of its pages, if it isn't given. One above the pages makes no configuration.
//! Its quantum has 250 units by default: with 288 or more no event comes while roots are scanned.
ghost use Rattle.std.specs.Prelude.{◌≡◌, None, Some, codes, false, IfOk, IfErr, IsTrue};
ghost use Rattle.clap.specs.Words.{found_of, rows_of};
ghost use Rattle.mh_model.specs.declared.config.Rules.TheVariants.{Second};
ghost use Rattle.mh_orders.specs.Given.{is_controls_within};
ghost use Rattle.mh_command_line.specs.Orders.{AreGenerateOptions, AsksProfile, Takes, broken_rule, controls_of, generated_config};
ghost use Rattle.mh_command_line.specs.{Auxiliary.HasOptionFault, Values.lacks_profile};

use crate::options::{OptionFault, large_needed, needed, number, rules_asked};
use clap::ArgMatches;
use mh_model::config::{Config, Rules};
use mh_model::limits::{LEAST_QUANTUM, MOST_EVERY, MOST_PAGES, MOST_QUANTUM};
use mh_orders::generate_options::{Controls, Options};
use mh_orders::order::ConfigOption;
use mh_orders::profile::Profile;

/// The most events of a script, and the most after which it asks for a quantum.
const MOST_EVENTS: u32 = 1_000_000;

/// The configuration of a random script. Only its trigger can be outside the limits.
#[tactic(auto, using(crate::proofs::AskedLemmas::number_passes))]
fn generated_config<'a>(matches: &ArgMatches<'a>) -> Result<Config, OptionFault<'a>>
    requires { Takes (codes "generate") (rows_of (found_of matches.now)) }
    ensures config { IfOk result (λ config. generated_config (rows_of (found_of matches.now)) ≡ Some config) }
    ensures second { IfOk result (λ config. config.rules ≡ Second) }
    ensures fault { IfErr result (HasOptionFault (codes "generate") (rows_of (found_of matches.now))) }
{
    let pages = number(matches, "pages", 1, MOST_PAGES).unwrap_or(64);
    let quantum = number(matches, "quantum", LEAST_QUANTUM, MOST_QUANTUM).unwrap_or(250);
    let trigger = number(matches, "trigger", 0, MOST_PAGES).unwrap_or(pages / 2);
    let every = number(matches, "every", 0, MOST_EVERY).unwrap_or(25);
    match Config::new(pages, quantum, trigger, every) {
        Some(config) => Ok(config),
        None => Err(OptionFault::Outside(ConfigOption::Trigger)),
    }
}

/// Which controls the script is to have.
#[tactic(auto, using(crate::proofs::AskedLemmas::number_passes))]
fn controls_asked(matches: &ArgMatches<'_>) -> Controls
    requires { Takes (codes "generate") (rows_of (found_of matches.now)) }
    ensures value { result ≡ controls_of (rows_of (found_of matches.now)) }
    ensures within { IsTrue (is_controls_within result) }
{
    match number(matches, "controls", 0, MOST_EVENTS) {
        None => Controls::ByChance,
        Some(0) => Controls::Never,
        Some(events) => Controls::Each(events),
    }
}

fn profile_asked(matches: &ArgMatches<'_>) -> Profile
    requires { lacks_profile (codes "profile") (rows_of (found_of matches.now)) ≡ false }
    ensures { AsksProfile (rows_of (found_of matches.now)) result }
{
    match matches.get_one::<Profile>("profile") {
        Some(profile) => profile,
        None => Profile::Mixed,
    }
}

/// Which random script is to be written.
#[tactic(auto, using(crate::proofs::AskedLemmas::number_passes, crate::proofs::AskedLemmas::needed_passes, crate::proofs::AskedLemmas::profile_kept))]
pub(crate) fn generate_asked<'a>(matches: &ArgMatches<'a>) -> Result<Options, OptionFault<'a>>
    requires takes { Takes (codes "generate") (rows_of (found_of matches.now)) }
    requires meets { broken_rule (codes "generate") (rows_of (found_of matches.now)) ≡ None }
    ensures options { IfOk result (AreGenerateOptions (rows_of (found_of matches.now))) }
    ensures fault { IfErr result (HasOptionFault (codes "generate") (rows_of (found_of matches.now))) }
{
    let config = generated_config(matches)?;
    Ok(Options {
        config,
        rules: rules_asked(matches, Rules::Second),
        seed: large_needed(matches, "seed", 0, u64::MAX),
        events: needed(matches, "events", 1, MOST_EVENTS),
        sessions: number(matches, "sessions", 1, 8).unwrap_or(4) as u8,
        profile: profile_asked(matches),
        controls: controls_asked(matches),
    })
}
