//! What the options in the matches of `clap` say, each kind by one function, and the first rule of the table that they
//! break.
//!
//! The program reads whether an option of a configuration is a number, since `clap`'s numbers end at 64 bits. A text
//! that is none is refused in `clap`'s form and in the program's words. A number outside the limits, of any length,
//! makes a bad configuration. Blamed is the first of pages, quantum and every that is outside, or else the trigger,
//! whose limit is the number of pages.
//!
//! Without `--rules` a script is under the second rules. A history of version 1 is then under the first, as before there
//! was such an option. `live` and `race` are under the second.
ghost use Rattle.std.specs.Prelude.{◌≡◌, ◌<◌, ◌≤◌, ◌↔◌, codes, is_some, IfOk, IfErr, IfSome, IsSomeAnd, IsTrue, find};
ghost use Rattle.std.specs.{Char.is_digit, List.list_all, Str.Parse.without_leading_plus};
ghost use Rattle.clap.specs.Words.{IsUnsignedIn, found_of, one_of, rows_of};
ghost use Rattle.mh_command_line.specs.Auxiliary.{rule_of_row, HoldsNumber, IsBlamed, IsNumberFault};
ghost use Rattle.mh_command_line.specs.Values.{HasNumber, IsConfigOption, IsNumber, ReadsNumber, breaks, is_flagged, is_given, lacks_profile, lacks_rates, lacks_share, optional_number, rules_chosen, rules_given, rules_numbered, workers_of};
ghost use Rattle.mh_command_line.specs.Orders.{MakesConfig};

use crate::rates::AskedRates;
use crate::share::AskedShare;
use crate::table::{Kind, Rule, RuleRow};
use clap::ArgMatches;
use mh_model::config::{Config, Rules};
use mh_model::limits::{LEAST_QUANTUM, MOST_EVERY, MOST_PAGES, MOST_QUANTUM, MOST_WORKERS};
use mh_orders::order::ConfigOption;
use mh_orders::profile::Profile;
use std::str::FromStr;

/// Why options give no order.
#[derive(Clone, Copy)]
pub(crate) enum OptionFault<'a> {
    /// This rule of the table is broken. The text is that of its first option.
    Breaks(RuleRow, &'a str),
    /// The option with this name has a text that is no number.
    NoNumber(&'static str, &'a str),
    /// The option with this name is not given.
    Missing(&'static str),
    /// The number of this option is outside its limits.
    Outside(ConfigOption),
}

// Options of each kind ----------------------------------------------------------------------------

/// Whether a flag is given.
pub(crate) fn is_flagged(matches: &ArgMatches<'_>, name: &str) -> bool
    ensures { result ≡ is_flagged name.now (rows_of (found_of matches.now)) }
{
    matches.get_one::<bool>(name).unwrap_or(false)
}

/// Whether an option with a value is given.
pub(crate) fn has_text(matches: &ArgMatches<'_>, name: &str) -> bool
    ensures { result ≡ is_some (one_of name.now (rows_of (found_of matches.now))) }
{
    matches.get_str(name).is_some()
}

/// The number of an option, within what its row says.
pub(crate) fn large_number(
    matches: &ArgMatches<'_>,
    name: &str,
    least: u64,
    most: u64,
) -> Option<u64>
    requires { IfSome (one_of name.now (rows_of (found_of matches.now))) (IsUnsignedIn least most) }
    ensures value { result ≡ optional_number name.now (rows_of (found_of matches.now)) }
    ensures within { IfSome result (λ n. (least ≤ n) × (n ≤ most)) }
{
    matches.get_one::<u64>(name)
}

/// Such a number of 32 bits at most.
pub(crate) fn number(matches: &ArgMatches<'_>, name: &str, least: u32, most: u32) -> Option<u32>
    requires { IfSome (one_of name.now (rows_of (found_of matches.now))) (IsUnsignedIn least most) }
    ensures value { result ≡ optional_number name.now (rows_of (found_of matches.now)) }
    ensures within { IfSome result (λ n. (least ≤ n) × (n ≤ most)) }
{
    matches.get_one::<u32>(name)
}

/// The number of an option that is given.
pub(crate) fn large_needed(matches: &ArgMatches<'_>, name: &str, least: u64, most: u64) -> u64
    requires { IsSomeAnd (one_of name.now (rows_of (found_of matches.now))) (IsUnsignedIn least most) }
    ensures { HasNumber (rows_of (found_of matches.now)) name.now result }
{
    large_number(matches, name, least, most).unwrap_or(least)
}

/// Such a number of 32 bits at most.
pub(crate) fn needed(matches: &ArgMatches<'_>, name: &str, least: u32, most: u32) -> u32
    requires { IsSomeAnd (one_of name.now (rows_of (found_of matches.now))) (IsUnsignedIn least most) }
    ensures value { HasNumber (rows_of (found_of matches.now)) name.now result }
    ensures within { (least ≤ result) × (result ≤ most) }
{
    number(matches, name, least, most).unwrap_or(least)
}

/// How many threads are to scan at a time at most.
pub(crate) fn workers_asked(matches: &ArgMatches<'_>) -> usize
    requires { IfSome (one_of (codes "workers") (rows_of (found_of matches.now))) (IsUnsignedIn 1 64) }
    ensures value { result ≡ workers_of (rows_of (found_of matches.now)) }
    ensures few { (0 < result) × (result ≤ 64) }
{
    large_number(matches, "workers", 1, MOST_WORKERS).unwrap_or(1) as usize
}

fn rules_numbered(number: u32) -> Rules
    ensures { result ≡ rules_numbered number }
{
    if number == 1 {
        Rules::First
    } else {
        Rules::Second
    }
}

/// The rules that are asked for, if any are.
pub(crate) fn rules_given(matches: &ArgMatches<'_>) -> Option<Rules>
    requires { IfSome (one_of (codes "rules") (rows_of (found_of matches.now))) (IsUnsignedIn 1 2) }
    ensures { result ≡ rules_given (rows_of (found_of matches.now)) }
{
    match number(matches, "rules", 1, 2) {
        Some(number) => Some(rules_numbered(number)),
        None => None,
    }
}

/// The rules that are asked for, and these others if none are.
pub(crate) fn rules_asked(matches: &ArgMatches<'_>, other: Rules) -> Rules
    requires { IfSome (one_of (codes "rules") (rows_of (found_of matches.now))) (IsUnsignedIn 1 2) }
    ensures { result ≡ rules_chosen other (rows_of (found_of matches.now)) }
{
    rules_given(matches).unwrap_or(other)
}

// Rules of the table ------------------------------------------------------------------------------

/// Whether an option of this kind is given.
fn is_given(matches: &ArgMatches<'_>, kind: Kind, name: &str) -> bool
    ensures { result ≡ is_given kind name.now (rows_of (found_of matches.now)) }
{
    match kind {
        Kind::Flag => is_flagged(matches, name),
        Kind::Text => has_text(matches, name),
        Kind::Number(_, _) => has_text(matches, name),
        Kind::Needed(_, _) => has_text(matches, name),
    }
}

/// Whether an option has a text that is no share.
fn lacks_share(matches: &ArgMatches<'_>, name: &str) -> bool
    ensures { result ≡ lacks_share name.now (rows_of (found_of matches.now)) }
{
    matches.try_get_one::<AskedShare>(name).is_err()
}

/// Whether an option has a text without rates.
fn lacks_rates(matches: &ArgMatches<'_>, name: &str) -> bool
    ensures { result ≡ lacks_rates name.now (rows_of (found_of matches.now)) }
{
    matches.try_get_one::<AskedRates>(name).is_err()
}

/// Whether an option has a text that names no profile.
fn lacks_profile(matches: &ArgMatches<'_>, name: &str) -> bool
    ensures { result ≡ lacks_profile name.now (rows_of (found_of matches.now)) }
{
    matches.try_get_one::<Profile>(name).is_err()
}

fn is_broken(matches: &ArgMatches<'_>, row: &RuleRow) -> bool
    ensures { result ≡ breaks (rows_of (found_of matches.now)) (rule_of_row row.now) }
{
    let (rule, kind, name, other_kind, other, third) = *row;
    let first = is_given(matches, kind, name);
    let second = is_given(matches, other_kind, other);
    match rule {
        Rule::Wants => first && !second,
        Rule::WantsWith => first && !second && is_given(matches, other_kind, third),
        Rule::WantsUnless => first && !second && !is_given(matches, other_kind, third),
        Rule::Beside => first && second,
        Rule::BesideWith => first && second && is_given(matches, other_kind, third),
        Rule::Share => lacks_share(matches, name),
        Rule::Rates => lacks_rates(matches, name),
        Rule::Profile => lacks_profile(matches, name),
    }
}

/// The first rule that is broken.
#[tactic(auto, using(crate::proofs::ReadingLemmas::find_next, crate::proofs::ReadingLemmas::find_stop))]
pub(crate) fn broken_rule(matches: &ArgMatches<'_>, rules: &[RuleRow]) -> Option<RuleRow>
    ensures { result ≡ find (λ row. breaks (rows_of (found_of matches.now)) (rule_of_row row)) rules.now }
{
    for row in rules {
        if is_broken(matches, row) {
            return Some(*row);
        }
    }
    None
}

// Configurations ----------------------------------------------------------------------------------

/// A text that is no number.
#[derive(Clone, Copy)]
pub(crate) struct NotNumber;

/// The number of an option. One past 32 bits, which is outside each limit, is held as the largest of them.
#[derive(Clone, Copy)]
pub(crate) struct OptionNumber {
    pub(crate) value: u32,
}

impl FromStr for OptionNumber {
    type Err = NotNumber;

    ghost from_str_gives = { ReadsNumber };

    fn from_str(text: &str) -> Result<OptionNumber, NotNumber> {
        match text.parse::<u32>() {
            Ok(value) => Ok(OptionNumber { value }),
            Err(_) if is_number(text.as_bytes()) => Ok(OptionNumber { value: u32::MAX }),
            Err(_) => Err(NotNumber),
        }
    }
}

fn are_digits(text: &[u8]) -> bool
    ensures { result ≡ list_all (λ digit. is_digit digit 10) text.now }
{
    text.iter().all(|byte| char::from(*byte).is_digit(10))
}

fn without_plus(text: &[u8]) -> &[u8]
    ensures { result.now ≡ without_leading_plus text.now }
{
    if !text.is_empty() && text[0] == b'+' {
        &text[1..]
    } else {
        text
    }
}

fn is_number(text: &[u8]) -> bool
    ensures { IsTrue result ↔ IsNumber text.now }
{
    let digits = without_plus(text);
    !digits.is_empty() && are_digits(digits)
}

fn number_given<'a>(matches: &ArgMatches<'a>, name: &'static str) -> Result<u32, OptionFault<'a>>
    requires { IsConfigOption name.now }
    ensures number { IfOk result (HoldsNumber (rows_of (found_of matches.now)) name.now) }
    ensures fault { IfErr result (IsNumberFault (rows_of (found_of matches.now))) }
{
    if let Some(number) = matches.get_one::<OptionNumber>(name) {
        return Ok(number.value);
    }
    match matches.get_str(name) {
        Some(text) => Err(OptionFault::NoNumber(name, text)),
        None => Err(OptionFault::Missing(name)),
    }
}

/// An option that is outside its limits, of numbers that are no configuration.
fn outside(pages: u32, quantum: u32, every: u32) -> ConfigOption
    ensures { IsBlamed pages quantum every result }
{
    if !(1..=MOST_PAGES).contains(&pages) {
        ConfigOption::Pages
    } else if !(LEAST_QUANTUM..=MOST_QUANTUM).contains(&quantum) {
        ConfigOption::Quantum
    } else if every > MOST_EVERY {
        ConfigOption::Every
    } else {
        ConfigOption::Trigger
    }
}

/// The configuration of a subcommand's options.
pub(crate) fn config_given<'a>(
    matches: &ArgMatches<'a>,
    rules: Rules,
) -> Result<Config, OptionFault<'a>>
    ensures config { IfOk result (MakesConfig rules (rows_of (found_of matches.now))) }
    ensures fault { IfErr result (IsNumberFault (rows_of (found_of matches.now))) }
{
    let pages = number_given(matches, "pages")?;
    let quantum = number_given(matches, "quantum")?;
    let trigger = number_given(matches, "trigger")?;
    let every = number_given(matches, "every")?;
    match Config::under(rules, pages, quantum, trigger, every) {
        Some(config) => Ok(config),
        None => Err(OptionFault::Outside(outside(pages, quantum, every))),
    }
}
