//! Accounts as lines.
//!
//! Deeds of a command have no units, since what it costs the mutator doesn't depend on its barriers or on where its
//! parts went. Those of a quantum have theirs, and what is left of it. In words a deed has no number of an event,
//! since it stands under its entry; as JSON each object has one. JSON alone has where in the trace things stand.
ghost use Rattle.std.specs.{Prelude.{◌≡◌, ◌<◌, ◌^◌, ◌++◌, ◌-◌, flat_map, OnOk}, String.string_bytes};
ghost use Rattle.mh_deeds.specs.Accounts.{account_in};
ghost use Rattle.mh_tell_steps.specs.Lines.{account_text, deed_head, deed_line, event_key, line_end, paid_line, paid_lines, quantum_head, quantum_line};

use crate::deed_fields::{
    deed_units, deed_verb, push_at, push_cost, push_counts, push_deed_fields, push_end,
};
use crate::fields::{push_decimal, push_key, push_quoted};
use crate::figures::{EventSpan, HeapCounts};
use mh_deeds::account::Account;
use mh_model::deed::{Deed, QuantumEnd};
use mh_model::memory::NoMemory;
use mh_orders::steps::StepsForm;

/// Adds how each object begins: with the number of its event.
pub(crate) fn push_event_key(text: &mut String, number: u64) -> Result<(), NoMemory>
    ensures { OnOk result (string_bytes text.new ≡ string_bytes text.old ++ event_key number) }
{
    text.push_str("{\"event\":")?;
    push_decimal(text, u128::from(number))
}

pub(crate) fn push_line_end(text: &mut String, form: StepsForm) -> Result<(), NoMemory>
    ensures { OnOk result (string_bytes text.new ≡ string_bytes text.old ++ line_end form) }
{
    text.push_str(match form {
        StepsForm::Text => "\n",
        StepsForm::Json => "}\n",
    })?;
    Ok(())
}

fn push_deed_head(
    text: &mut String,
    form: StepsForm,
    indent: &str,
    number: u64,
    verb: &str,
) -> Result<(), NoMemory>
    ensures { OnOk result (string_bytes text.new ≡ string_bytes text.old ++ deed_head form indent.now number verb.now) }
{
    match form {
        StepsForm::Text => {
            text.push_str(indent)?;
            text.push_str(verb)?;
            Ok(())
        }
        StepsForm::Json => {
            push_event_key(text, number)?;
            push_key(text, form, "deed")?;
            push_quoted(text, verb)
        }
    }
}

fn push_deed_line(
    text: &mut String,
    form: StepsForm,
    number: u64,
    deed: &Deed,
) -> Result<(), NoMemory>
    ensures { OnOk result (string_bytes text.new ≡ string_bytes text.old ++ deed_line form number deed.now) }
{
    push_deed_head(text, form, "  ", number, deed_verb(deed))?;
    push_deed_fields(text, form, deed)?;
    push_line_end(text, form)
}

fn push_paid_line(
    text: &mut String,
    form: StepsForm,
    number: u64,
    at: u128,
    left: u128,
    deed: &Deed,
) -> Result<(), NoMemory>
    ensures { OnOk result (string_bytes text.new ≡ string_bytes text.old ++ paid_line form number at left deed.now) }
{
    push_deed_head(text, form, "    ", number, deed_verb(deed))?;
    push_deed_fields(text, form, deed)?;
    push_cost(text, form, deed, left)?;
    push_at(text, form, at)?;
    push_line_end(text, form)
}

fn push_quantum_head(text: &mut String, form: StepsForm, number: u64) -> Result<(), NoMemory>
    ensures { OnOk result (string_bytes text.new ≡ string_bytes text.old ++ quantum_head form number) }
{
    match form {
        StepsForm::Text => {
            text.push_str("  quantum")?;
            Ok(())
        }
        StepsForm::Json => {
            push_event_key(text, number)?;
            text.push_str(",\"quantum\":\"ran\"")?;
            Ok(())
        }
    }
}

fn push_quantum_line(
    text: &mut String,
    form: StepsForm,
    moment: EventSpan,
    counts: HeapCounts,
    ended: QuantumEnd,
) -> Result<(), NoMemory>
    requires { moment.at < 2 ^ 66 }
    ensures { OnOk result (string_bytes text.new ≡ string_bytes text.old ++ quantum_line form moment counts ended) }
{
    push_quantum_head(text, form, moment.number)?;
    push_end(text, form, ended)?;
    push_at(text, form, moment.at + u128::from(moment.mutator))?;
    push_counts(text, form, counts)?;
    push_line_end(text, form)
}

fn push_deed_lines(
    text: &mut String,
    form: StepsForm,
    number: u64,
    deeds: &[Deed],
) -> Result<(), NoMemory>
    ensures { OnOk result (string_bytes text.new ≡ string_bytes text.old ++ flat_map (deed_line form number) deeds.now) }
{
    for deed in deeds {
        push_deed_line(text, form, number, deed)?;
    }
    Ok(())
}

fn push_paid_lines(
    text: &mut String,
    form: StepsForm,
    number: u64,
    began: u128,
    quantum: u32,
    deeds: &[Deed],
) -> Result<(), NoMemory>
    requires { began < 2 ^ 67 }
    ensures { OnOk result (string_bytes text.new ≡ string_bytes text.old ++ paid_lines form number began quantum quantum deeds.now) }
{
    let quantum = u128::from(quantum);
    let mut left = quantum;
    for deed in deeds {
        let at = began + quantum.saturating_sub(left);
        left = left.saturating_sub(deed_units(deed));
        push_paid_line(text, form, number, at, left, deed)?;
    }
    Ok(())
}

/// Adds the lines of an account of the event of this moment, which left these counts. After an error the text may end
/// with a part of them.
pub(crate) fn push_account(
    text: &mut String,
    form: StepsForm,
    moment: EventSpan,
    counts: HeapCounts,
    quantum: u32,
    account: &Account,
) -> Result<(), NoMemory>
    requires { moment.at < 2 ^ 66 }
    ensures { OnOk result (string_bytes text.new ≡ string_bytes text.old ++ account_text form moment counts quantum (account_in account.now)) }
{
    push_deed_lines(text, form, moment.number, account.command.deeds())?;
    if let Some(ended) = account.quantum {
        push_quantum_line(text, form, moment, counts, ended)?;
        let began = moment.at + u128::from(moment.mutator);
        push_paid_lines(
            text,
            form,
            moment.number,
            began,
            quantum,
            account.ran.deeds(),
        )?;
    }
    Ok(())
}
