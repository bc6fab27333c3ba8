//! What is seen of a run in one heap: its cycles, what they leave, what intervals in a row open, whether that is room, and
//! its report. Each number is that of the model's run.
ghost use Rattle.std.specs.Prelude.{◌≡◌, ◌≤◌, ℕ, List, length, IfOk, OnOk};
ghost use Rattle.mh_model.specs.{declared.command.Event.Event, Limits.most_entries};
ghost use Rattle.mh_model.specs.Machine.{first_machine, machine_after, report_on};
ghost use Rattle.mh_machine.specs.Running.{first_running};
ghost use Rattle.mh_size_runs.specs.{Auxiliary.HasFacts, Full.HasNoFullReply};
ghost use Rattle.mh_size_runs.specs.Seen.{MeetsTheLaw, is_roomy, is_within, room_by, seen_in};

use crate::in_a_row::most_in_a_row;
use crate::sample::Sample;
use crate::watched::{Facts, Watched, asked_by};
use mh_machine::machine::Machine;
use mh_model::command::Event;
use mh_model::config::Config;
use mh_model::memory::NoMemory;
use mh_model::report::Report;
use mh_scan::scan::Scanner;
use std::alloc::Global;

/// Whether a heap has room for what intervals in a row open.
#[derive(Clone, Copy, Debug, PartialEq, Eq)]
pub enum HasRoom {
    Yes,
    No,
    /// No cycle has run, so that there is nothing to say.
    NoCycle,
}

/// What is seen of a run.
#[derive(Clone, Copy, Debug, PartialEq, Eq)]
pub struct Seen {
    /// How many cycles ended.
    pub cycles: u64,
    /// The most quanta of a cycle; one that still runs counts one more than it has had. 0 if none began.
    pub quanta: u64,
    /// The most pages that so many intervals in a row open since the first cycle started.
    pub opens: u128,
    /// The fewest free pages as a cycle ended, if one did.
    pub left: Option<u64>,
    pub room: HasRoom,
    pub report: Report,
}

/// Does the events of a run, and answers what is seen of its cycles and intervals.
fn watch<S: Scanner>(
    alloc: Global,
    machine: &mut Machine,
    config: &Config,
    events: &[Event],
    scanner: &mut S,
) -> Result<Facts, NoMemory>
    requires first { machine.old ≡ first_running config.now }
    requires few { length events.now ≤ most_entries }
    ensures facts { IfOk result (HasFacts config.now events.now) }
    ensures after { OnOk result (machine.new.machine ≡ machine_after (first_machine config.now) events.now) }
{
    let mut before = Sample::read(machine);
    let mut watched = Watched::new(alloc);
    for event in events {
        let asked = asked_by(config, event);
        machine.step_in_room(*event, scanner)?;
        let after = Sample::read(machine);
        watched.note_cycle(before, after);
        watched.note_interval(&asked, before, after)?;
        before = after;
    }
    watched.into_facts()
}

/// Whether a number is no more than another, if there is another.
fn is_within(number: u128, other: Option<u64>) -> bool
    ensures { result ≡ is_within number other }
{
    match other {
        None => true,
        Some(other) => number <= u128::from(other),
    }
}

/// Whether there is room for what intervals in a row open, and for one of them fewer after the first start.
fn room_of(config: &Config, facts: &Facts, opens: u128, fewer: u128) -> HasRoom
    ensures { result ≡ room_by facts.now.quanta (is_roomy config.now.trigger opens fewer facts.now.left facts.now.start) }
{
    if facts.quanta == 0 {
        return HasRoom::NoCycle;
    }
    let is_roomy = opens <= u128::from(config.trigger) + 1
        && is_within(opens, facts.left)
        && is_within(fewer, facts.start);
    if is_roomy { HasRoom::Yes } else { HasRoom::No }
}

/// What is seen of a run of which these are the facts and the report.
fn seen_by(config: &Config, facts: &Facts, report: Report) -> Seen
    ensures { (events : List Event) (window : ℕ) → HasFacts config.now events facts.now → report ≡ report_on config.now (machine_after (first_machine config.now) events).trace window → result ≡ seen_in config.now events window }
{
    let quanta = facts.quanta as usize;
    let opens = most_in_a_row(quanta, &facts.opened);
    let fewer = most_in_a_row(quanta.saturating_sub(1), &facts.opened);
    Seen {
        cycles: facts.cycles,
        quanta: facts.quanta,
        opens,
        left: facts.left,
        room: room_of(config, facts, opens, fewer),
        report,
    }
}

/// What is seen of a run of events in a heap of this configuration, with its report for windows of this length, found by
/// running them.
pub fn seen_of<S: Scanner>(
    alloc: Global,
    config: Config,
    events: &[Event],
    window: u64,
    scanner: &mut S,
) -> Result<Seen, NoMemory>
    requires { length events.now ≤ most_entries }
    ensures seen { IfOk result (λ seen. seen ≡ seen_in config events.now window) }
    ensures law { IfOk result (λ seen. seen.room ≡ HasRoom.Yes → HasNoFullReply config events.now → MeetsTheLaw config events.now seen.quanta) }
{
    let mut machine = Machine::open(alloc, config)?;
    let facts = watch(alloc, &mut machine, &config, events, scanner)?;
    let report = machine.report(window);
    Ok(seen_by(&config, &facts, report))
}
