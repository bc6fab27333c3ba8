//! The order that words give, or why they give none.
//!
//! They give one only if `clap` finds no fault in them. It is the order of the subcommand that `clap` finds, with
//! these numbers. Its configuration, if it has one, is within the limits. Nothing that it needs is missing, and
//! nothing is given that it excludes. A random script is one by these options, and by the stated ones where an option
//! is left out. It is the order to write the version only if `clap` finds that the words ask for it. Words are never
//! refused because they ask for the version.
//!
//! All other words are refused with one of the faults that `clap` finds first, or for their options. Then a number, a
//! profile or rates can't be read, an option is missing, or one may not stand beside another. Or the configuration
//! is bad, with an option that is outside its limits. Numbers of a configuration may have any length. With
//! `--sessions` and `--log` none of them is missing.
//!
//! Any command line may be answered with `NoMemory`. Each is read by a command that is built in memory, and `clap`'s
//! contract doesn't say when it asks for that.
ghost use Rattle.std.specs.{Prelude.{◌≡◌, IfOk, IfErr, IsSomeAnd, Err, find, map, option_map}, String.string_bytes};
ghost use Rattle.std.specs.Str.{bytes_eq};
ghost use Rattle.clap.specs.Words.{found_of, kind_of, rows_of, subcommand_rows_of};
ghost use Rattle.clap.specs.declared.error.kind.ErrorKind.TheVariants.{ArgumentConflict, MissingRequiredArgument, ValueValidation};
ghost use Rattle.mh_command_line.specs.Orders.{Gives, GivesOrder, HasFewWorkers, HasFirstRules, IsFault, Takes, broken_rule, rule_kind};
ghost use Rattle.mh_command_line.specs.Auxiliary.{HasOptionFault, IsSaidOfRefusal, NamesOne, RefusesOptions, rule_of_row, subcommand_of_row};
ghost use Rattle.mh_command_line.specs.Table.{table};

use crate::asked::order_named;
use crate::command::{command, first_subcommands, last_subcommands, subcommand};
use crate::fault::LineFault;
use crate::options::{OptionFault, broken_rule};
use crate::quoted::{are_plain, quoted, quoted_words};
use crate::table::{Rule, RuleRow, Subcommand};
use clap::error::ErrorKind;
use clap::{ArgMatches, Command};
use mh_orders::order::Order;
use std::alloc::{AllocError, Global};
use std::convert::AsStr;

fn is_row_of(row: &Subcommand, name: &str) -> bool
    ensures { result ≡ bytes_eq row.now.0.now name.now }
{
    row.0 == name
}

#[tactic(auto, using(crate::proofs::ReadingLemmas::find_stop))]
fn row_in(rows: &'static [Subcommand], name: &str) -> Option<&'static Subcommand>
    ensures { option_map (λ row. row.now) result ≡ find (λ row. bytes_eq row.0.now name.now) rows.now }
{
    for row in rows {
        if is_row_of(row, name) {
            return Some(row);
        }
    }
    None
}

fn row_among(rows: &'static [Subcommand], name: &str) -> Option<&'static Subcommand>
    ensures { option_map (λ row. subcommand_of_row row.now) result ≡ find (λ row. bytes_eq row.0 name.now) (map subcommand_of_row rows.now) }
{
    row_in(rows, name)
}

/// The row of a subcommand.
#[tactic(auto, using(crate::proofs::AskedLemmas::row_first, crate::proofs::AskedLemmas::row_last))]
fn row_of(name: &str) -> Option<&'static Subcommand>
    ensures { option_map (λ row. subcommand_of_row row.now) result ≡ find (λ row. bytes_eq row.0 name.now) table }
{
    match row_among(first_subcommands(), name) {
        Some(row) => Some(row),
        None => row_among(last_subcommands(), name),
    }
}

/// The first rule of a subcommand that its options break.
#[tactic(auto, using(crate::proofs::AskedLemmas::rule_found, crate::proofs::AskedLemmas::no_rule))]
fn rule_broken(name: &str, matches: &ArgMatches<'_>) -> Option<RuleRow>
    ensures { option_map rule_of_row result ≡ broken_rule name.now (rows_of (found_of matches.now)) }
{
    match row_of(name) {
        Some(row) => broken_rule(matches, row.5),
        None => None,
    }
}

/// The order of what `clap` found for a subcommand.
fn order_with<'a>(name: &str, matches: &ArgMatches<'a>) -> Result<Order, OptionFault<'a>>
    requires { Takes name.now (rows_of (found_of matches.now)) }
    ensures order { IfOk result (Gives name.now (rows_of (found_of matches.now))) }
    ensures few { IfOk result HasFewWorkers }
    ensures rules { IfOk result HasFirstRules }
    ensures fault { IfErr result (HasOptionFault name.now (rows_of (found_of matches.now))) }
{
    match rule_broken(name, matches) {
        Some(row) => Err(OptionFault::Breaks(row, matches.get_str(row.2).unwrap_or(""))),
        None => order_named(name, matches),
    }
}

/// The order of what `clap` found.
fn order_of<'a>(matches: &ArgMatches<'a>) -> Result<Order, OptionFault<'a>>
    requires { NamesOne (subcommand_rows_of matches.now) }
    ensures order { IfOk result (λ order. IsSomeAnd (subcommand_rows_of matches.now) (λ subcommand. Gives subcommand.0 subcommand.1 order)) }
    ensures few { IfOk result HasFewWorkers }
    ensures rules { IfOk result HasFirstRules }
    ensures fault { IfErr result (λ fault. IsSomeAnd (subcommand_rows_of matches.now) (λ subcommand. HasOptionFault subcommand.0 subcommand.1 fault)) }
{
    match matches.subcommand() {
        Some((name, matches)) => order_with(name, matches),
        None => unreachable!(),
    }
}

/// The command of a subcommand by itself, or the whole.
fn command_of<'a>(alloc: Global, name: Option<&str>) -> Result<Command<'a>, AllocError> {
    if let Some(name) = name {
        if let Some(row) = row_of(name) {
            return subcommand(alloc, row);
        }
    }
    command(alloc)
}

/// `clap`'s refusal of options, with this kind of fault. It shows the usage of the subcommand, if one is named, and else
/// that of the program.
fn refused(
    alloc: Global,
    subcommand: Option<&str>,
    kind: ErrorKind,
    message: &str,
) -> Result<clap::Error, AllocError>
    ensures { IfOk result (λ error. kind_of error ≡ kind) }
{
    let mut command = command_of(alloc, subcommand)?;
    command.error(kind, message)
}

/// `clap`'s refusal of a text that can't be read.
fn unread(
    alloc: Global,
    subcommand: Option<&str>,
    name: &str,
    text: &str,
    form: &str,
) -> Result<clap::Error, AllocError>
    ensures { IfOk result (λ error. kind_of error ≡ ValueValidation) }
{
    let text = quoted(alloc, text)?;
    let message = format!(in alloc; "invalid value '{text}' for '--{name}': not {form}")?;
    refused(
        alloc,
        subcommand,
        ErrorKind::ValueValidation,
        message.as_str(),
    )
}

/// `clap`'s refusal of options without this one.
fn missing(alloc: Global, subcommand: Option<&str>, name: &str) -> Result<clap::Error, AllocError>
    ensures { IfOk result (λ error. kind_of error ≡ MissingRequiredArgument) }
{
    let message = format!(in alloc; "the argument '--{name}' was not provided")?;
    refused(
        alloc,
        subcommand,
        ErrorKind::MissingRequiredArgument,
        message.as_str(),
    )
}

/// `clap`'s refusal of an option beside another.
fn beside(
    alloc: Global,
    subcommand: Option<&str>,
    name: &str,
    other: &str,
) -> Result<clap::Error, AllocError>
    ensures { IfOk result (λ error. kind_of error ≡ ArgumentConflict) }
{
    let message = format!(in alloc; "the argument '--{name}' cannot be used with '--{other}'")?;
    refused(
        alloc,
        subcommand,
        ErrorKind::ArgumentConflict,
        message.as_str(),
    )
}

/// `clap`'s refusal of options that break a rule.
fn broken(
    alloc: Global,
    subcommand: Option<&str>,
    row: RuleRow,
    text: &str,
) -> Result<clap::Error, AllocError>
    ensures { IfOk result (λ error. kind_of error ≡ rule_kind row.entry.0) }
{
    let (rule, _, name, _, other, _) = row;
    match rule {
        Rule::Wants | Rule::WantsWith | Rule::WantsUnless => missing(alloc, subcommand, other),
        Rule::Beside | Rule::BesideWith => beside(alloc, subcommand, name, other),
        Rule::Share | Rule::Rates | Rule::Profile => unread(alloc, subcommand, name, text, other),
    }
}

fn refused_options(alloc: Global, subcommand: Option<&str>, fault: OptionFault<'_>) -> LineFault
    ensures { RefusesOptions fault.entry result }
{
    let refusal = match fault {
        OptionFault::Breaks(row, text) => broken(alloc, subcommand, row, text),
        OptionFault::NoNumber(name, text) => unread(alloc, subcommand, name, text, "a number"),
        OptionFault::Missing(name) => missing(alloc, subcommand, name),
        OptionFault::Outside(option) => return LineFault::Configuration(option),
    };
    match refusal {
        Ok(error) => LineFault::Words(error),
        Err(_) => LineFault::NoMemory,
    }
}

/// How `clap` refuses words, if it does.
fn refusal<T: AsStr>(alloc: Global, words: &[T]) -> Result<Option<clap::Error>, AllocError> {
    let command = command(alloc)?;
    Ok(command.try_get_matches_from(words).err())
}

/// The refusal of words with all that it quotes as it can be printed, which is that of the words as they are quoted. If that
/// is another, a refusal that quotes nothing.
fn quoted_refusal<T: AsStr>(
    alloc: Global,
    words: &[T],
    error: clap::Error,
) -> Result<clap::Error, AllocError>
    ensures { IfOk result (λ told. kind_of told ≡ kind_of error) }
{
    if are_plain(words) {
        return Ok(error);
    }
    let words = quoted_words(alloc, words)?;
    if let Some(told) = refusal(alloc, words.as_slice())? {
        if told.kind() == error.kind() {
            return Ok(told);
        }
    }
    refused(alloc, None, error.kind(), "a word is not as it should be")
}

fn refused_words<T: AsStr>(alloc: Global, words: &[T], error: clap::Error) -> LineFault
    ensures { IsSaidOfRefusal (kind_of error) result }
{
    if error.kind() == ErrorKind::OutOfMemory {
        return LineFault::NoMemory;
    }
    match quoted_refusal(alloc, words, error) {
        Ok(error) => LineFault::Words(error),
        Err(_) => LineFault::NoMemory,
    }
}

/// Reads the words of the command line, of which the first is the program's own name.
pub fn order<T: AsStr>(alloc: Global, words: &[T]) -> Result<Order, LineFault>
    ensures order { IfOk result (GivesOrder (map T.text words.now)) }
    ensures fault { IfErr result (IsFault (map T.text words.now)) }
{
    let Ok(command) = command(alloc) else {
        return Err(LineFault::NoMemory);
    };
    match command.try_get_matches_from(words) {
        Ok(matches) => match order_of(&matches) {
            Ok(order) => Ok(order),
            Err(fault) => Err(refused_options(alloc, matches.subcommand_name(), fault)),
        },
        Err(error) if error.kind() == ErrorKind::DisplayVersion => Ok(Order::Version),
        Err(error) => Err(refused_words(alloc, words, error)),
    }
}

fn order_of_texts(alloc: Global, words: Vec<String>) -> Result<Order, LineFault>
    ensures order { IfOk result (GivesOrder (map string_bytes words.items)) }
    ensures fault { IfErr result (IsFault (map string_bytes words.items)) }
{
    order(alloc, words.as_slice())
}

/// The order of the words that the system gave, of which the first is the program's own name.
pub fn line_order(alloc: Global, words: Result<Vec<String>, LineFault>) -> Result<Order, LineFault>
    ensures order { IfOk words (λ words. IfOk result (GivesOrder (map string_bytes words.items))) }
    ensures fault { IfOk words (λ words. IfErr result (IsFault (map string_bytes words.items))) }
    ensures unread { IfErr words (λ fault. result ≡ Err fault) }
    ensures few { IfOk result HasFewWorkers }
    ensures rules { IfOk result HasFirstRules }
{
    match words {
        Ok(words) => order_of_texts(alloc, words),
        Err(fault) => Err(fault),
    }
}
