//! The events of a page in turn, as many as fit.
//!
//! Once those before had 200,000 deeds, an event lacks deeds that draw nothing. A browser holds some hundred thousand
//! moments with ease. Each map stays as it is, since no deed is left out that changes it. The cursor needs no number
//! of its own: the last deed of a quantum that moves it stays.
//!
//! A page ends before the first event whose line no longer fits. So it has a bound, and none of its events lacks a
//! part. Its curve is that of its own events: the least window of those before it could not be shown.
ghost use Rattle.std.specs.Prelude.{◌≡◌, ◌+◌, ◌-◌, ◌<◌, ◌≤◌, ◌++◌, suc, length, nat_lt, codes, IfOk, OnOk};
ghost use Rattle.std.specs.String.{string_bytes};
ghost use Rattle.mh_window_curve.specs.Histories.{letters_of_entries};
ghost use Rattle.mh_deeds.specs.Accounts.{account_in};
ghost use Rattle.mh_model.specs.{declared.birth.TheConstants.LIFE, Deeds.account_of};
ghost use Rattle.mh_model.specs.{HistoryTexts.{machine_record, measured_step}, Limits.most_entries, Machine.event_step};
ghost use Rattle.mh_tell_show.specs.Auxiliary.{HasRun};
ghost use Rattle.mh_tell_show.specs.Page.{deed_count, fitting, shown_events_text, most_deeds, shown_of, shown_text};

use crate::event::push_shown;
use mh_deeds::account::Account;
use mh_machine::machine::Machine;
use mh_model::command::Event;
use mh_model::history::{Entry, Measured};
use mh_model::limits::ROOT_SLOTS;
use mh_model::memory::NoMemory;
use mh_model::place::Place;
use mh_report::trace::Trace;
use mh_run_laws::bounds::runs_stay_within_their_events;
use mh_tell_steps::run::answer_told;
use mh_window_curve::tally::extend;
use std::alloc::Global;

/// Past so many deeds only those are written that are kept of a long run.
const MOST_DEEDS: u64 = 200_000;

/// Does an event, tells what it does, and gives its entry with its units.
fn measure_told(
    machine: &mut Machine,
    event: Event,
    account: &mut Account,
) -> Result<Measured, NoMemory>
    requires { machine.old.done < most_entries }
    ensures entry { IfOk result (λ measured. measured ≡ measured_step machine.old.machine event (event_step machine.old.machine event)) }
    ensures machine { OnOk result (machine.new.machine ≡ (event_step machine.old.machine event).state) }
    ensures count { OnOk result (machine.new.done ≡ suc machine.old.done) }
    ensures told { OnOk result (account_in account.new ≡ account_of machine.old.machine event) }
{
    let mutator = machine.trace().mutator_count();
    let collector = machine.trace().collector_count();
    let reply = answer_told(machine, event, account)?;
    let trace = machine.trace();
    Ok(Measured {
        entry: Entry { event, reply },
        mutator: trace.mutator_count().saturating_sub(mutator),
        collector: trace.collector_count().saturating_sub(collector),
    })
}

/// How many deeds are left of these after those of an event.
fn left_after(left: u64, account: &Account) -> u64
    ensures { result ≡ left - deed_count (account_in account.now) }
{
    let left = left.saturating_sub(account.command.deeds().len() as u64);
    match account.quantum {
        None => left,
        Some(_) => left.saturating_sub(account.ran.deeds().len() as u64),
    }
}

fn copied(slots: &[Option<Place>; ROOT_SLOTS]) -> [Option<Place>; ROOT_SLOTS]
    ensures { result ≡ slots.now }
{
    let mut copy = [None; ROOT_SLOTS];
    copy.copy_from_slice(slots);
    copy
}

/// An event as it is written, with the units that it adds to the trace, and how many deeds are left after it before only
/// those are written that are kept of a long run.
#[derive(Drop)]
struct Line {
    text: String,
    mutator: u64,
    collector: u64,
    left: u64,
}

/// Does an event, and gives its line.
fn show_event(
    alloc: Global,
    machine: &mut Machine,
    event: Event,
    left: u64,
    account: &mut Account,
) -> Result<Line, NoMemory>
    requires { machine.old.done < most_entries }
    ensures machine { OnOk result (machine.new.machine ≡ (event_step machine.old.machine event).state) }
    ensures count { OnOk result (machine.new.done ≡ suc machine.old.done) }
    ensures text { IfOk result (λ line. string_bytes line.text ≡ shown_text (nat_lt 0 left) (shown_of machine.old.machine event) ++ codes ",\n") }
    ensures units { IfOk result (λ line. let measured = measured_step machine.old.machine event (event_step machine.old.machine event) in (line.mutator ≡ measured.mutator) × (line.collector ≡ measured.collector)) }
    ensures left { IfOk result (λ line. line.left ≡ left - deed_count (account_of machine.old.machine event)) }
{
    let before = copied(machine.heap().kept.roots());
    let measured = measure_told(machine, event, account)?;
    let after = machine.heap().kept.roots();
    let mut text = String::new(alloc);
    push_shown(&mut text, left > 0, &measured, account, &before, after)?;
    text.push_str(",\n")?;
    Ok(Line {
        text,
        mutator: measured.mutator,
        collector: measured.collector,
        left: left_after(left, account),
    })
}

/// Does these events in turn, and adds the lines of those that fit together into so many bytes. It gives the trace of their
/// units. An event that doesn't fit was done too.
pub(crate) fn push_events(
    alloc: Global,
    machine: &mut Machine,
    events: &[Event],
    room: usize,
    text: &mut String,
) -> Result<Trace, NoMemory>
    requires done { machine.old.done + length events.now ≤ most_entries }
    requires run { HasRun machine.old.machine (length events.now) }
    ensures text { OnOk result (string_bytes text.new ≡ string_bytes text.old ++ shown_events_text 0 machine.old.machine (fitting room 0 machine.old.machine events.now)) }
    ensures trace { IfOk result (λ trace. trace.trace.letters ≡ letters_of_entries (machine_record machine.old.machine (fitting room 0 machine.old.machine events.now))) }
    ensures short { IfOk result (λ trace. length trace.trace.letters < LIFE) }
{
    runs_stay_within_their_events();
    let mut account = Account::new(alloc);
    let mut trace = Trace::open(alloc);
    let mut left = MOST_DEEDS;
    let mut room = room;
    for event in events {
        let line = show_event(alloc, machine, *event, left, &mut account)?;
        if line.text.len() > room {
            return Ok(trace);
        }
        text.push_str(line.text.as_str())?;
        extend(&mut trace, line.mutator, line.collector)?;
        room -= line.text.len();
        left = line.left;
    }
    Ok(trace)
}
