//! The command line as `clap` has it: the subcommands and options of the table.
//!
//! What `clap` proves covers no rule between two options. So none is given to it, and the program looks at them itself.
//! `clap`'s own subcommand `help` is turned off, so the subcommand that it finds is one of the program's.
ghost use Rattle.std.specs.Prelude.{◌≡◌, IfOk, false, fold, map};
ghost use Rattle.clap.specs.{Words.{app_of, rule_of}, declared.builder.command.Command.TheViews.out-Command};
ghost use Rattle.mh_command_line.specs.Table.{app_with, clap_rule, finished_app, first_subcommands, last_subcommands, metroheap, with_its_app};
ghost use Rattle.mh_command_line.specs.Auxiliary.{choice_of, subcommand_of_row};

use crate::table::{FIRST_SUBCOMMANDS, Kind, LAST_SUBCOMMANDS, OptionRow, Subcommand};
use clap::builder::ValueParser;
use clap::{Arg, ArgAction, Command};
use std::alloc::{AllocError, Global};

const ABOUT: &str =
    "An executable reference of the Metronome garbage collector: runs scripts of mutator commands and collector quanta, judges histories of collectors, and draws curves of logs of pauses";

const MANUAL: &str =
    "Examples:\n  metroheap check --help\n  metroheap generate --seed 1 --events 100 | metroheap run\n\nScripts, histories and logs are read from standard input. Help is written to standard error: `metroheap size --help 2>&1 | less` pages through it. The grammars, the cost of each command and all exit statuses are in `man metroheap` and the man pages that it names, which are made from docs/MANUAL.md.";

pub(crate) fn first_subcommands() -> &'static [Subcommand]
    ensures { map subcommand_of_row result.now ≡ first_subcommands }
{
    FIRST_SUBCOMMANDS
}

pub(crate) fn last_subcommands() -> &'static [Subcommand]
    ensures { map subcommand_of_row result.now ≡ last_subcommands }
{
    LAST_SUBCOMMANDS
}

fn option<'a>(alloc: Global, row: &OptionRow) -> Arg<'a>
    ensures rule { rule_of result ≡ clap_rule row.now.0.now row.now.2 }
    ensures local { result.global ≡ false }
{
    let (name, value, kind, help) = *row;
    let option = Arg::new(alloc, name).long(name).help(help);
    match kind {
        Kind::Flag => option.action(ArgAction::SetTrue),
        Kind::Text => option.value_name(value).value_parser(ValueParser::string()),
        Kind::Number(least, most) => option
            .value_name(value)
            .value_parser(ValueParser::unsigned(least, most)),
        Kind::Needed(least, most) => option
            .value_name(value)
            .value_parser(ValueParser::unsigned(least, most))
            .required(true),
    }
}

/// The command of a subcommand.
pub(crate) fn subcommand<'a>(alloc: Global, row: &Subcommand) -> Result<Command<'a>, AllocError>
    ensures app { IfOk result (λ command. app_of command ≡ app_with row.now.0.now (map choice_of row.now.4.now)) }
    ensures local { IfOk result (λ command. (out-Command command).has_globals ≡ false) }
{
    let (name, about, usage, statuses, options, _) = *row;
    let mut command = Command::new(alloc, name)
        .about(about)
        .override_usage(usage)
        .after_help(statuses);
    for row in options {
        command = command.arg(option(alloc, row))?;
    }
    Ok(command)
}

/// A command with these subcommands.
fn with_subcommands<'a>(
    alloc: Global,
    app: Command<'a>,
    rows: &[Subcommand],
) -> Result<Command<'a>, AllocError>
    ensures { IfOk result (λ command. app_of command ≡ fold with_its_app (app_of app.entry) (map subcommand_of_row rows.now)) }
{
    let mut command = app;
    for row in rows {
        command = command.subcommand(subcommand(alloc, row)?)?;
    }
    Ok(command)
}

/// The command with what help says of the program, and with its version. It has to name a subcommand.
fn finished<'a>(command: Command<'a>) -> Command<'a>
    ensures { app_of result ≡ finished_app (app_of command.entry) }
{
    command
        .about(ABOUT)
        .after_help(MANUAL)
        .version("2.0.0")
        .subcommand_required(true)
        .disable_help_subcommand(true)
}

/// The program's command line.
pub(crate) fn command<'a>(alloc: Global) -> Result<Command<'a>, AllocError>
    ensures { IfOk result (λ command. app_of command ≡ metroheap) }
{
    let first = with_subcommands(alloc, Command::new(alloc, "metroheap"), first_subcommands())?;
    let all = with_subcommands(alloc, first, last_subcommands())?;
    Ok(finished(all))
}
