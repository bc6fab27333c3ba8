//! Whether so many pages suffice for a run with one of five triggers: an eighth, a quarter, a half and all of the pages,
//! and 0. No one share of the pages is best for all programs, and some one of these five is nearly always.
ghost use Rattle.std.specs.Prelude.{◌≡◌, ◌<◌, ◌≤◌, length, get_or, IfOk, Some};
ghost use Rattle.mh_model.specs.Limits.{most_entries};
ghost use Rattle.mh_size_runs.specs.Tried.{IsTried, heap_with, triggers_of};

use crate::full::first_full;
use mh_model::command::Event;
use mh_model::config::Config;
use mh_model::memory::NoMemory;
use mh_scan::scan::Scanner;
use std::alloc::Global;

/// What trying five triggers in so many pages came to.
#[derive(Clone, Copy, Debug, PartialEq, Eq)]
pub enum Tried {
    /// With this trigger no reply is a full heap.
    Fits(u32),
    /// With each some reply is, to the event of this number at the latest.
    Full(u64),
}

/// How many triggers are tried.
pub(crate) const TRIGGERS: usize = 5;

/// The trigger that is tried at this place.
pub(crate) fn trigger_at(pages: u32, place: usize) -> u32
    requires { place < 5 }
    ensures value { result ≡ get_or (triggers_of pages) place 0 }
    ensures within { result ≤ pages }
{
    match place {
        0 => pages / 8,
        1 => pages / 4,
        2 => pages / 2,
        3 => pages,
        _ => 0,
    }
}

/// The heap of so many pages with this trigger, and with what a configuration has besides.
pub(crate) fn heap_with(config: &Config, pages: u32, trigger: u32) -> Config
    requires pages { (1 ≤ pages) × (pages ≤ 4096) }
    requires trigger { trigger ≤ pages }
    ensures { heap_with config.now pages trigger ≡ Some result }
{
    Config {
        pages,
        quantum: config.quantum,
        trigger,
        every: config.every,
        rules: config.rules,
    }
}

/// Tries the five triggers in so many pages, in their order, until with one no reply is a full heap.
pub fn try_triggers<S: Scanner>(
    alloc: Global,
    config: &Config,
    events: &[Event],
    pages: u32,
    scanner: &mut S,
) -> Result<Tried, NoMemory>
    requires few { length events.now ≤ most_entries }
    requires pages { (1 ≤ pages) × (pages ≤ 4096) }
    ensures { IfOk result (IsTried config.now events.now pages) }
{
    let mut latest = 0;
    for place in 0..TRIGGERS {
        let trigger = trigger_at(pages, place);
        match first_full(alloc, heap_with(config, pages, trigger), events, scanner)? {
            None => return Ok(Tried::Fits(trigger)),
            Some(event) => latest = event.max(latest),
        }
    }
    Ok(Tried::Full(latest))
}
