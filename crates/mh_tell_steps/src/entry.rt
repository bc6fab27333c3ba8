//! An event with its reply, as it is added to a text. It begins with the number of its event, which `--from`, `--to`
//! and the page of `show` ask for. As JSON it has its place in the trace, and the first line is the configuration, so
//! that a tool counts units and free pages without a deed.
ghost use Rattle.std.specs.{Prelude.{◌≡◌, ◌++◌, OnOk}, String.string_bytes};
ghost use Rattle.mh_model.specs.HistoryTexts.{rules_number};
ghost use Rattle.mh_tell_steps.specs.Lines.{config_line, entry_line};

use crate::fields::{push_decimal, push_number};
use crate::figures::EventSpan;
use crate::lines::{push_event_key, push_line_end};
use mh_history::measured_line::{push_event, push_reply};
use mh_model::config::{Config, Rules};
use mh_model::history::Entry;
use mh_model::memory::NoMemory;
use mh_orders::steps::StepsForm;
use std::fmt::Write;

/// Adds the line of an entry, the event of this moment. After an error the text may end with a part of it.
#[tactic(auto, using(crate::proofs::LineLemmas::entry_written))]
pub(crate) fn push_entry_line(
    text: &mut String,
    form: StepsForm,
    moment: EventSpan,
    entry: &Entry,
) -> Result<(), NoMemory>
    ensures { OnOk result (string_bytes text.new ≡ string_bytes text.old ++ entry_line form moment entry.now) }
{
    match form {
        StepsForm::Text => {
            push_decimal(text, u128::from(moment.number))?;
            text.push_str(" ")?;
            push_event(text, entry.event)?;
            text.push_str(" = ")?;
            push_reply(text, &entry.reply)?;
            text.push_str("\n")?;
            Ok(())
        }
        StepsForm::Json => push_entry_object(text, moment, entry),
    }
}

fn push_entry_object(text: &mut String, moment: EventSpan, entry: &Entry) -> Result<(), NoMemory>
    ensures { OnOk result (string_bytes text.new ≡ string_bytes text.old ++ entry_line StepsForm.Json moment entry.now) }
{
    push_event_key(text, moment.number)?;
    text.push_str(",\"text\":\"")?;
    push_event(text, entry.event)?;
    text.push_str("\",\"reply\":\"")?;
    push_reply(text, &entry.reply)?;
    text.push_str("\"")?;
    push_number(text, StepsForm::Json, "at", moment.at)?;
    push_number(text, StepsForm::Json, "mutator", u128::from(moment.mutator))?;
    push_line_end(text, StepsForm::Json)?;
    Ok(())
}

fn rules_number(rules: Rules) -> u128
    ensures { result ≡ rules_number rules }
{
    match rules {
        Rules::First => 1,
        Rules::Second => 2,
    }
}

/// Adds for tools the configuration with its rules. After an error the text may end with a part of it.
pub(crate) fn push_config_line(
    text: &mut String,
    form: StepsForm,
    config: Config,
) -> Result<(), NoMemory>
    ensures { OnOk result (string_bytes text.new ≡ string_bytes text.old ++ config_line form config) }
{
    match form {
        StepsForm::Text => Ok(()),
        StepsForm::Json => push_config_object(text, config),
    }
}

fn push_config_object(text: &mut String, config: Config) -> Result<(), NoMemory>
    ensures { OnOk result (string_bytes text.new ≡ string_bytes text.old ++ config_line StepsForm.Json config) }
{
    let rules = rules_number(config.rules);
    writeln!(
        text,
        "{{\"config\":[{},{},{},{}],\"rules\":{rules}}}",
        config.pages, config.quantum, config.trigger, config.every,
    )?;
    Ok(())
}
