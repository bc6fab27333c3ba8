//! Runs of scripts that are written as their steps, exactly.
//!
//! These are the names of its sessions, where they aren't `s0` to `s7`. Then comes each event with its number and its
//! reply, and below it the deeds of its account. Those of a quantum have their units and what is left. As JSON the
//! configuration comes first. All that is said of `run_script` holds too. An event whose deeds are asked for is done as
//! `Machine::step_told` does it, and its account is the model's.
//!
//! A quantum never fails because it tells. If memory was refused for a deed, the account isn't whole. That is an
//! error, and `steps` ends with `no memory`.
ghost use Rattle.std.specs.{Prelude.{◌≡◌, ◌<◌, ◌^◌, ◌++◌, true, IfOk, OnOk}, String.string_bytes};
ghost use Rattle.mh_deeds.specs.Accounts.{account_in};
ghost use Rattle.mh_model.specs.{Deeds.account_of, Limits.most_entries};
ghost use Rattle.mh_orders.specs.Steps.{is_asked};
ghost use Rattle.mh_script.specs.{Promised.IsPromisedRun, Run.transcript};
ghost use Rattle.mh_machine.specs.Running.{Does};
ghost use Rattle.mh_tell_steps.specs.Lines.{entry_line};
ghost use Rattle.mh_tell_steps.specs.Steps.{Stage, TellsReplies, deeds_text, first_stage, head_text, stage_of, steps_told, told_text};

use crate::entry::{push_config_line, push_entry_line};
use crate::figures::{EventSpan, HeapCounts, heap_counts, trace_units};
use crate::lines::push_account;
use crate::names::push_names;
use mh_deeds::account::Account;
use mh_machine::machine::Machine;
use mh_model::command::Event;
use mh_model::config::{Config, Rules};
use mh_model::history::Entry;
use mh_model::memory::NoMemory;
use mh_model::reply::Reply;
use mh_orders::steps::Steps;
use mh_promise::promise::replies_are_promised;
use mh_scan::scan::{OneScan, Scanner};
use mh_script::end::End;
use mh_script::fault::ScriptFault;
use mh_script::lines::{ByLines, Lines};
use mh_script::transcript::transcribe;
use mh_text::names::names_in;
use mh_text::sink::Sink;
use mh_text::source::Source;
use std::alloc::Global;

/// Does an event, and tells what it does. Memory that is refused for a deed is an error, though the event was done.
pub fn answer_told(
    machine: &mut Machine,
    event: Event,
    account: &mut Account,
) -> Result<Reply, NoMemory>
    requires { machine.old.done < most_entries }
    ensures does { IfOk result (λ reply. Does machine.old event reply machine.new) }
    ensures told { OnOk result (account_in account.new ≡ account_of machine.old.machine event) }
{
    let reply = machine.step_told_in_room(event, account)?;
    if account.is_whole() {
        Ok(reply)
    } else {
        Err(NoMemory)
    }
}

/// Does an event, and tells what it does if that is asked for.
fn advance<C: Scanner>(
    machine: &mut Machine,
    event: Event,
    is_asked: bool,
    scanner: &mut C,
    account: &mut Account,
) -> Result<Reply, NoMemory>
    requires { machine.old.done < most_entries }
    ensures does { IfOk result (λ reply. Does machine.old event reply machine.new) }
    ensures told { OnOk result (is_asked ≡ true → account_in account.new ≡ account_of machine.old.machine event) }
{
    if is_asked {
        answer_told(machine, event, account)
    } else {
        machine.step_in_room(event, scanner)
    }
}

/// Adds the lines of an event.
fn push_event_lines(
    text: &mut String,
    steps: Steps,
    moment: EventSpan,
    counts: HeapCounts,
    quantum: u32,
    entry: &Entry,
    account: &Account,
) -> Result<(), NoMemory>
    requires { moment.at < 2 ^ 66 }
    ensures { OnOk result (string_bytes text.new ≡ string_bytes text.old
        ++ (entry_line steps.form moment entry.now ++ deeds_text steps moment counts quantum (account_in account.now))) }
{
    push_entry_line(text, steps.form, moment, entry)?;
    if steps.tells(moment.number) {
        push_account(text, steps.form, moment, counts, quantum, account)?;
    }
    Ok(())
}

/// A run that is written as these steps.
#[derive(Clone, Copy)]
struct Stepped {
    steps: Steps,
}

impl Lines for Stepped {
    type Kept = Account;

    ghost State = { Stage };

    ghost state = { λ stepped account running. stage_of running };

    ghost holds = { λ stepped at. Unit {0} };

    ghost first = { λ stepped. first_stage };

    ghost head = { λ stepped. head_text stepped.steps };

    ghost told = { λ stepped. steps_told stepped.steps };

    ghost text_of = { λ stepped. told_text stepped.steps };

    fn head_bytes(
        self,
        alloc: Global,
        script: &[u8],
        config: Config,
        _machine: &Machine,
    ) -> Result<Vec<u8>, NoMemory> {
        let mut line = String::new(alloc);
        push_config_line(&mut line, self.steps.form, config)?;
        let mut head = line.into_bytes();
        let names = names_in(alloc, script)?;
        push_names(&mut head, self.steps.form, names.as_slice())?;
        Ok(head)
    }

    fn begin(self, alloc: Global, _config: Config, _machine: &Machine) -> Account {
        Account::new(alloc)
    }

    #[tactic(auto, unfolding(mh_model::specs::Limits::most_entries))]
    fn add<C: Scanner>(
        self,
        account: &mut Account,
        machine: &mut Machine,
        event: Event,
        scanner: &mut C,
        text: &mut String,
    ) -> Result<(), NoMemory> {
        let number = machine.done() + 1;
        let quantum = machine.config().quantum;
        let at = trace_units(machine);
        let before = machine.trace().mutator_count();
        let reply = advance(machine, event, self.steps.tells(number), scanner, account)?;
        let mutator = machine.trace().mutator_count().saturating_sub(before);
        push_event_lines(
            text,
            self.steps,
            EventSpan {
                number,
                at,
                mutator,
            },
            heap_counts(machine),
            quantum,
            &Entry { event, reply },
            account,
        )
    }

    fn finish(
        self,
        _account: &Account,
        _machine: &Machine,
        _text: &mut String,
    ) -> Result<(), NoMemory> {
        Ok(())
    }
}

/// Reads a whole script, and then writes the steps of its run under these rules: the names of its sessions where these aren't
/// `s0` to `s7`, then each event with its reply, and below it what it did. Of a script that is outside the grammar it writes the one line that names the first bad line.
pub fn tell_script<S: Source, W: Sink>(
    alloc: Global,
    source: &mut S,
    sink: &mut W,
    steps: Steps,
    rules: Rules,
) -> Result<End, ScriptFault>
    ensures { IsPromisedRun (TellsReplies steps) rules (transcript (told_text steps) rules) (S.device source.old) (S.device source.new) (W.device sink.old) (W.device sink.new) result }
{
    replies_are_promised();
    transcribe(
        alloc,
        &mut ByLines(Stepped { steps }),
        source,
        sink,
        rules,
        &mut OneScan::new(alloc),
    )
}
