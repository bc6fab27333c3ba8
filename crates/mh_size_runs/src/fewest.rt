//! Pages in which a run has no full heap with some trigger, while in one page less it has one with each of five.
//!
//! They are found by doubling and then by halves, with some thirty runs, of which most end early. This is no law. Pages
//! that suffice needn't go on to do so as they grow, since each number of pages has its cycles at other moments. So the
//! search ends at an edge (`IsEdge`), and a lesser number farther down may suffice too.
ghost use Rattle.std.specs.Prelude.{◌≡◌, ◌≤◌, length, IfOk};
ghost use Rattle.mh_model.specs.Limits.{most_entries};
ghost use Rattle.mh_size_runs.specs.{Fewest.{IsEdge, IsFewest}, Auxiliary.{IsSpan, IsSpanned}};

use crate::edge::{Edge, Fewest};
use crate::tried::{Tried, try_triggers};
use mh_model::command::Event;
use mh_model::config::Config;
use mh_model::limits::MOST_PAGES;
use mh_model::memory::NoMemory;
use mh_scan::scan::Scanner;
use std::alloc::Global;

/// Pages that suffice, and fewer that don't.
#[derive(Clone, Copy)]
pub(crate) struct Span {
    /// 0 if no fewer were tried.
    pub(crate) few: u32,
    /// The event by which a run in the fewer pages is full.
    pub(crate) event: u64,
    pub(crate) enough: u32,
    pub(crate) trigger: u32,
}

/// Doubles pages until they suffice. `Err` has the event by which a run is full in the most.
fn doubled<S: Scanner>(
    alloc: Global,
    config: &Config,
    events: &[Event],
    scanner: &mut S,
) -> Result<Result<Span, u64>, NoMemory>
    requires { length events.now ≤ most_entries }
    ensures { IfOk result (IsSpanned config.now events.now) }
{
    let mut few = 0;
    let mut latest = 0;
    while few < MOST_PAGES {
        let enough = (few * 2).clamp(1, MOST_PAGES);
        match try_triggers(alloc, config, events, enough, scanner)? {
            Tried::Fits(trigger) => {
                return Ok(Ok(Span {
                    few,
                    event: latest,
                    enough,
                    trigger,
                }));
            }
            Tried::Full(event) => {
                few = enough;
                latest = event;
            }
        }
    }
    Ok(Err(latest))
}

/// Halves what lies between until it is one page.
fn halved<S: Scanner>(
    alloc: Global,
    config: &Config,
    events: &[Event],
    first: Span,
    scanner: &mut S,
) -> Result<Edge, NoMemory>
    requires few { length events.now ≤ most_entries }
    requires span { IsSpan config.now events.now first }
    ensures { IfOk result (IsEdge config.now events.now) }
{
    let mut span = first;
    while span.enough - span.few > 1 {
        let middle = span.few + (span.enough - span.few) / 2;
        match try_triggers(alloc, config, events, middle, scanner)? {
            Tried::Fits(trigger) => {
                span.enough = middle;
                span.trigger = trigger;
            }
            Tried::Full(event) => {
                span.few = middle;
                span.event = event;
            }
        }
    }
    Ok(Edge {
        pages: span.enough,
        trigger: span.trigger,
        below: if span.few == 0 {
            None
        } else {
            Some(span.event)
        },
    })
}

/// The fewest pages that the search ends at, with the first of the five triggers with which they suffice.
pub fn fewest<S: Scanner>(
    alloc: Global,
    config: &Config,
    events: &[Event],
    scanner: &mut S,
) -> Result<Fewest, NoMemory>
    requires { length events.now ≤ most_entries }
    ensures { IfOk result (IsFewest config.now events.now) }
{
    match doubled(alloc, config, events, scanner)? {
        Ok(span) => Ok(Fewest::Found(halved(alloc, config, events, span, scanner)?)),
        Err(event) => Ok(Fewest::Nowhere(event)),
    }
}
