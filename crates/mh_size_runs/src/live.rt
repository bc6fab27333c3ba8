//! What is live in a run, by its quarters, so that a leak shows. The run has the most pages and a cycle at each quantum,
//! with as many units as a quantum has at most. What is there after such a cycle is what was live as it started. A long
//! run has a thousand such quanta and no more, since each looks at all that is live.
ghost use Rattle.std.specs.Prelude.{◌≡◌, ◌↔◌, ◌<◌, ◌+◌, ◌/◌, ◌≤◌, ◌&&◌, if◌then◌else◌, length, max, ◌∷◌, [], IfOk, IsTrue, OnOk, None, Some};
ghost use Rattle.mh_model.specs.{Limits.most_entries, Machine.machine_after};
ghost use Rattle.mh_size_runs.specs.Auxiliary.{ended_between};
ghost use Rattle.mh_size_runs.specs.Live.{AreQuartersFrom, AreWhole, IsLive, live_blocks, most_left, quarter_of, quarter_start, widest};

use crate::sample::Stage;
use mh_machine::machine::Machine;
use mh_model::command::Event;
use mh_model::config::Config;
use mh_model::limits::{MOST_PAGES, MOST_QUANTUM};
use mh_model::memory::NoMemory;
use mh_scan::scan::Scanner;
use std::alloc::Global;

/// What is live in a run.
#[derive(Clone, Copy, Debug, PartialEq, Eq)]
pub struct Live {
    /// The most live blocks of each quarter of the events. None if a cycle took more than one quantum.
    pub quarters: Option<[u64; 4]>,
    /// The units of the mutator.
    pub units: u64,
    /// How many objects were made.
    pub objects: u64,
}

/// What is live in some events of a run.
#[derive(Clone, Copy)]
pub(crate) struct Quarter {
    /// The most blocks that a cycle left.
    pub(crate) most: u64,
    /// Whether no cycle ran on past a quantum.
    pub(crate) is_whole: bool,
}

impl Quarter {
    /// With what is there after one more event, and the stages before it and after it.
    fn with(self, machine: &Machine, old: Stage, new: Stage) -> Quarter
        ensures most { result.most ≡ (if ended_between old new then max self.most (live_blocks machine.now.machine) else self.most) }
        ensures whole { result.is_whole ≡ (self.is_whole && new.is_idle) }
    {
        let most = if new.ends_since(old) {
            self.most.max(machine.heap().stat().live)
        } else {
            self.most
        };
        Quarter {
            most,
            is_whole: self.is_whole && new.is_idle,
        }
    }
}

/// The most quanta in which what is live is looked for, if EVERY asks for more.
const MOST_SAMPLES: usize = 1000;

/// The mutator's units between two quanta of a run of so many events.
fn between(config: &Config, count: usize) -> u32
    requires { count ≤ most_entries }
    ensures { result ≡ max config.now.every (count / 1000) }
{
    let share = (count / MOST_SAMPLES) as u32;
    config.every.max(share)
}

/// The heap in which each quantum has a whole cycle.
fn widest(config: &Config, count: usize) -> Config
    requires { count ≤ most_entries }
    ensures { widest config.now count ≡ Some result }
{
    Config {
        pages: MOST_PAGES,
        quantum: MOST_QUANTUM,
        trigger: MOST_PAGES,
        every: between(config, count),
        rules: config.rules,
    }
}

/// Does events, and looks at what the cycles leave that end in them.
fn look_through<S: Scanner>(
    machine: &mut Machine,
    events: &[Event],
    scanner: &mut S,
) -> Result<Quarter, NoMemory>
    requires { machine.old.done + length events.now ≤ most_entries }
    ensures most { IfOk result (λ quarter. quarter.most ≡ most_left machine.old.machine events.now) }
    ensures whole { IfOk result (λ quarter. IsTrue quarter.is_whole ↔ AreWhole machine.old.machine events.now) }
    ensures after { OnOk result (machine.new.machine ≡ machine_after machine.old.machine events.now) }
    ensures done { OnOk result (machine.new.done ≡ machine.old.done + length events.now) }
{
    let mut old = Stage::read(machine);
    let mut quarter = Quarter {
        most: 0,
        is_whole: true,
    };
    for event in events {
        machine.step_in_room(*event, scanner)?;
        let new = Stage::read(machine);
        quarter = quarter.with(machine, old, new);
        old = new;
    }
    Ok(quarter)
}

/// Does the events of a quarter, before which those of the earlier ones were done.
fn look_at_quarter<S: Scanner>(
    machine: &mut Machine,
    events: &[Event],
    number: usize,
    scanner: &mut S,
) -> Result<Quarter, NoMemory>
    requires few { length events.now ≤ most_entries }
    requires number { number < 4 }
    requires done { machine.old.done ≡ quarter_start (length events.now) number }
    ensures most { IfOk result (λ quarter. quarter.most ≡ most_left machine.old.machine (quarter_of events.now number)) }
    ensures whole { IfOk result (λ quarter. IsTrue quarter.is_whole ↔ AreWhole machine.old.machine (quarter_of events.now number)) }
    ensures after { OnOk result (machine.new.machine ≡ machine_after machine.old.machine (quarter_of events.now number)) }
    ensures done { OnOk result (machine.new.done ≡ quarter_start (length events.now) (number + 1)) }
{
    let start = events.len() * number / 4;
    let end = events.len() * (number + 1) / 4;
    look_through(machine, &events[start..end], scanner)
}

/// What is live in each of four quarters, if the cycles of each are whole.
fn together(first: Quarter, second: Quarter, third: Quarter, fourth: Quarter) -> Option<[u64; 4]>
    ensures { result ≡ (if first.is_whole && (second.is_whole && (third.is_whole && fourth.is_whole)) then Some (first.most ∷ second.most ∷ third.most ∷ fourth.most ∷ []) else None) }
{
    if first.is_whole && second.is_whole && third.is_whole && fourth.is_whole {
        Some([first.most, second.most, third.most, fourth.most])
    } else {
        None
    }
}

/// Does all events by quarters.
fn quarters<S: Scanner>(
    machine: &mut Machine,
    events: &[Event],
    scanner: &mut S,
) -> Result<Option<[u64; 4]>, NoMemory>
    requires few { length events.now ≤ most_entries }
    requires fresh { machine.old.done ≡ 0 }
    ensures quarters { IfOk result (AreQuartersFrom machine.old.machine events.now) }
    ensures after { OnOk result (machine.new.machine ≡ machine_after machine.old.machine events.now) }
{
    let first = look_at_quarter(machine, events, 0, scanner)?;
    let second = look_at_quarter(machine, events, 1, scanner)?;
    let third = look_at_quarter(machine, events, 2, scanner)?;
    let fourth = look_at_quarter(machine, events, 3, scanner)?;
    Ok(together(first, second, third, fourth))
}

/// What is live in a run of these events, its units of the mutator and its objects, found by running it in 4,096 pages.
pub fn live_of<S: Scanner>(
    alloc: Global,
    config: &Config,
    events: &[Event],
    scanner: &mut S,
) -> Result<Live, NoMemory>
    requires { length events.now ≤ most_entries }
    ensures { IfOk result (IsLive config.now events.now) }
{
    let mut machine = Machine::open(alloc, widest(config, events.len()))?;
    let quarters = quarters(&mut machine, events, scanner)?;
    Ok(Live {
        quarters,
        units: machine.trace().mutator_count(),
        objects: machine.heap().kept.births(),
    })
}
