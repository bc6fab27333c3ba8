//! An event as trace events: the slice of its command or the instant of its control, if it is shown, then its quantum, and
//! then the counters that it changed.
ghost use Rattle.std.specs.Prelude.{◌≡◌, ◌<◌, ◌^◌, ◌++◌, ◌∷◌, [], if◌then◌else◌, codes, decimal, OnOk, IfOk};
ghost use Rattle.std.specs.String.{string_bytes};
ghost use Rattle.mh_deeds.specs.Accounts.{account_in};
ghost use Rattle.mh_model.specs.{Bytes.joined, Forms.{command_phrase, phrase_words}, Replies.reply_text};
ghost use Rattle.mh_tell_steps.specs.Lines.{quoted};
ghost use Rattle.mh_tell_chrome.specs.{Deeds.session_thread, Auxiliary.total};
ghost use Rattle.mh_tell_chrome.specs.Runs.{begun_by, command_events, command_fields, control_events, ran_course, ran_events, session_name, shade_count, told_events, thread_events, is_seen, seen_after};
ghost use Rattle.mh_tell_chrome.specs.TraceEvents.{Begin, arguments_text, next_text, next_texts};

use crate::counters::count_all;
use crate::course::{Course, Slices};
use crate::quantum::push_quantum;
use crate::trace_event::{push_end, push_placed, push_thread};
use mh_deeds::account::Account;
use mh_history::measured_line::{push_command, push_event, push_reply};
use mh_model::command::{Command, Event};
use mh_model::deed::Deed;
use mh_model::history::Entry;
use mh_model::memory::NoMemory;
use mh_model::reply::Reply;
use mh_orders::steps::StepsForm;
use mh_tell_steps::fields::{push_decimal, push_number};
use mh_tell_steps::figures::{EventSpan, HeapCounts};

/// The thread of controls, and that of the first session.
pub(crate) const CONTROLS: u64 = 3;

const FIRST_SESSION: u64 = 10;

/// Adds the number and the reply of an event as arguments, which aren't ended.
fn push_reply_arguments(text: &mut String, number: u64, reply: &Reply) -> Result<(), NoMemory>
    ensures { OnOk result (string_bytes text.new ≡ string_bytes text.old ++ (codes ",\"args\":{\"event\":" ++ (decimal number ++ (codes ",\"reply\":" ++ quoted (reply_text reply.now))))) }
{
    text.push_str(",\"args\":{\"event\":")?;
    push_decimal(text, u128::from(number))?;
    text.push_str(",\"reply\":\"")?;
    push_reply(text, reply)?;
    text.push_str("\"")?;
    Ok(())
}

/// Adds the arguments of a command that shaded so many blocks.
fn push_arguments(
    text: &mut String,
    number: u64,
    reply: &Reply,
    shaded: u64,
) -> Result<(), NoMemory>
    ensures { OnOk result (string_bytes text.new ≡ string_bytes text.old ++ arguments_text (command_fields number reply.now shaded)) }
{
    push_reply_arguments(text, number, reply)?;
    if shaded == 0 {
        text.push_str("}")?;
        return Ok(());
    }
    push_number(text, StepsForm::Json, "shaded", u128::from(shaded))?;
    text.push_str("}")?;
    Ok(())
}

/// How many blocks deeds of a command shade.
fn shade_count(deeds: &[Deed]) -> u64
    ensures { result ≡ shade_count deeds.now }
{
    let mut count = 0;
    for deed in deeds {
        if let Deed::Shade { .. } = deed {
            count += 1;
        }
    }
    count
}

/// Adds the slice of a command.
fn push_slice(
    text: &mut String,
    moment: EventSpan,
    who: u8,
    command: Command,
    reply: &Reply,
    shaded: u64,
) -> Result<(), NoMemory>
    ensures { OnOk result (string_bytes text.new ≡ string_bytes text.old ++ next_text (Begin moment.at (session_thread who) (joined (phrase_words (command_phrase command))) (command_fields moment.number reply.now shaded))) }
{
    push_placed(
        text,
        "{\"ph\":\"B\"",
        moment.at,
        FIRST_SESSION + u64::from(who),
    )?;
    text.push_str(",\"cat\":\"metroheap\",\"name\":\"")?;
    push_command(text, command)?;
    text.push_str("\"")?;
    push_arguments(text, moment.number, reply, shaded)?;
    text.push_str("}")?;
    Ok(())
}

/// Adds a command for as long as its units last.
fn push_session(
    text: &mut String,
    moment: EventSpan,
    who: u8,
    command: Command,
    reply: &Reply,
    deeds: &[Deed],
) -> Result<(), NoMemory>
    requires { moment.at < 2 ^ 66 }
    ensures { OnOk result (string_bytes text.new ≡ string_bytes text.old ++ next_texts (command_events moment who command reply.now deeds.now)) }
{
    let end = moment.at + u128::from(moment.mutator);
    push_slice(text, moment, who, command, reply, shade_count(deeds))?;
    push_end(text, end, FIRST_SESSION + u64::from(who))?;
    Ok(())
}

/// Adds a control as an instant.
fn push_control(text: &mut String, moment: EventSpan, entry: &Entry) -> Result<(), NoMemory>
    ensures { OnOk result (string_bytes text.new ≡ string_bytes text.old ++ next_texts (control_events moment entry.now.event entry.now.reply)) }
{
    push_placed(text, "{\"ph\":\"i\",\"s\":\"t\"", moment.at, CONTROLS)?;
    text.push_str(",\"cat\":\"metroheap\",\"name\":\"")?;
    push_event(text, entry.event)?;
    text.push_str("\"")?;
    push_arguments(text, moment.number, &entry.reply, 0)?;
    text.push_str("}")?;
    Ok(())
}

/// The name of a session's thread. All sessions after the first eight share one.
fn session_name(who: u8) -> &'static str
    ensures { result.now ≡ session_name who }
{
    match who {
        0 => "session 0",
        1 => "session 1",
        2 => "session 2",
        3 => "session 3",
        4 => "session 4",
        5 => "session 5",
        6 => "session 6",
        7 => "session 7",
        _ => "later sessions",
    }
}

/// Adds the thread of a session, unless it has one already.
fn push_seen(text: &mut String, seen: &mut Vec<u8>, who: u8) -> Result<(), NoMemory>
    ensures text { OnOk result (string_bytes text.new ≡ string_bytes text.old ++ next_texts (if is_seen seen.old.items who then [] else thread_events (session_thread who) (session_name who))) }
    ensures seen { OnOk result (seen.new.items ≡ (if is_seen seen.old.items who then seen.old.items else seen.old.items ++ who ∷ [])) }
{
    if seen.contains(&who) {
        return Ok(());
    }
    seen.push(who)?;
    push_thread(text, FIRST_SESSION + u64::from(who), session_name(who))
}

/// Adds an event, if it is shown.
#[tactic(auto, using(crate::proofs::TextLemmas::next_texts_append))]
pub(crate) fn push_told(
    text: &mut String,
    told: bool,
    seen: &mut Vec<u8>,
    moment: EventSpan,
    entry: &Entry,
    deeds: &[Deed],
) -> Result<(), NoMemory>
    requires { moment.at < 2 ^ 66 }
    ensures text { OnOk result (string_bytes text.new ≡ string_bytes text.old ++ next_texts (if told then told_events seen.old.items moment entry.now.event entry.now.reply deeds.now else [])) }
    ensures seen { OnOk result (seen.new.items ≡ (if told then seen_after seen.old.items entry.now.event else seen.old.items)) }
{
    if !told {
        return Ok(());
    }
    match entry.event {
        Event::Session(who, command) => {
            push_seen(text, seen, who)?;
            push_session(text, moment, who, command, &entry.reply, deeds)?;
            Ok(())
        }
        Event::Control(_) => push_control(text, moment, entry),
    }
}

/// Adds the quantum of an event, if it ran one, and gives the course after it. What is shown is what was in the heap before
/// the event.
pub(crate) fn push_ran(
    text: &mut String,
    told: bool,
    moment: EventSpan,
    slices: Slices,
    shown: HeapCounts,
    account: &Account,
) -> Result<Course, NoMemory>
    requires time { moment.at < 2 ^ 66 }
    requires room { total shown < 2 ^ 66 }
    ensures text { OnOk result (string_bytes text.new ≡ string_bytes text.old ++ next_texts (ran_events told moment.number (begun_by moment slices shown (account_in account.now)) (account_in account.now).quantum)) }
    ensures course { IfOk result (λ after. after ≡ ran_course told (begun_by moment slices shown (account_in account.now)) (account_in account.now).quantum) }
{
    let course = Course {
        time: moment.at + u128::from(moment.mutator),
        left: account.quantum.map_or(0, |ended| u128::from(ended.units.0)),
        slices,
        in_step: false,
        counts: count_all(shown, account.command.deeds()),
        shown,
    };
    match account.quantum {
        None => Ok(course),
        Some(ended) => push_quantum(
            text,
            told,
            moment.number,
            course,
            ended,
            account.ran.deeds(),
        ),
    }
}
