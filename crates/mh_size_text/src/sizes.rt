//! The sizes of a script: what is live, the fewest pages that a search found, and its run in one, one and a quarter, one and
//! a half, two and three times as many.
ghost use Rattle.std.specs.Prelude.{◌≡◌, ◌≤◌, length, IfOk};
ghost use Rattle.mh_model.specs.Limits.{most_entries};
ghost use Rattle.mh_size_runs.specs.Rows.{IsOutcome};
ghost use Rattle.mh_size_text.specs.Sizes.{AreHeaps, AreRows, AreSizes, pages_in, quarters_of};

use crate::progress::{Progress, Step};
use mh_model::command::Event;
use mh_model::config::Config;
use mh_model::limits::MOST_PAGES;
use mh_model::memory::NoMemory;
use mh_scan::scan::{OneScan, Scanner};
use mh_size_runs::edge::{Edge, Fewest};
use mh_size_runs::fewest::fewest;
use mh_size_runs::live::{Live, live_of};
use mh_size_runs::rows::{PagesOutcome, outcome_of};
use std::alloc::Global;

/// How many times the fewest pages a row has, in quarters.
#[derive(Clone, Copy, Debug, PartialEq, Eq)]
pub(crate) enum Times {
    One,
    OneAndAQuarter,
    OneAndAHalf,
    Two,
    Three,
}

impl Times {
    fn quarters(self) -> u32
        ensures value { result ≡ quarters_of self }
        ensures some { 4 ≤ result }
        ensures few { result ≤ 12 }
    {
        match self {
            Times::One => 4,
            Times::OneAndAQuarter => 5,
            Times::OneAndAHalf => 6,
            Times::Two => 8,
            Times::Three => 12,
        }
    }
}

/// So many times the fewest pages, rounded up, and the most pages at most.
pub(crate) fn pages_in(fewest: u32, times: Times) -> u32
    requires { (1 ≤ fewest) × (fewest ≤ 4096) }
    ensures value { result ≡ pages_in fewest times }
    ensures within { (1 ≤ result) × (result ≤ 4096) }
{
    (fewest * times.quarters()).div_ceil(4).min(MOST_PAGES)
}

/// The runs in so many times the fewest pages.
#[derive(Clone, Copy, Debug, PartialEq, Eq)]
pub struct Rows {
    pub one: PagesOutcome,
    pub one_and_a_quarter: PagesOutcome,
    pub one_and_a_half: PagesOutcome,
    pub two: PagesOutcome,
    pub three: PagesOutcome,
}

/// What the search found, with the rows.
#[derive(Clone, Copy, Debug, PartialEq, Eq)]
pub enum Heaps {
    Found(Edge, Rows),
    /// In the most pages some reply is a full heap with each trigger, to the event of this number at the latest.
    Nowhere(u64),
}

/// The sizes of a script.
#[derive(Clone, Copy, Debug, PartialEq, Eq)]
pub struct Sizes {
    pub live: Live,
    pub heaps: Heaps,
}

/// What a script asks: its configuration, its events, and how long windows are.
#[derive(Clone, Copy)]
pub struct Run<'a> {
    pub config: Config,
    pub events: &'a [Event],
    pub window: u64,
}

fn row<S: Scanner, P: Progress>(
    alloc: Global,
    run: &Run<'_>,
    pages: u32,
    scanner: &mut S,
    progress: &mut P,
) -> Result<PagesOutcome, NoMemory>
    requires few { length run.now.events.now ≤ most_entries }
    requires pages { (1 ≤ pages) × (pages ≤ 4096) }
    ensures { IfOk result (IsOutcome run.now.config run.now.events.now pages run.now.window) }
{
    progress.begins(Step::Row(pages));
    outcome_of(alloc, &run.config, run.events, pages, run.window, scanner)
}

fn rows_of<S: Scanner, P: Progress>(
    alloc: Global,
    run: &Run<'_>,
    pages: u32,
    scanner: &mut S,
    progress: &mut P,
) -> Result<Rows, NoMemory>
    requires few { length run.now.events.now ≤ most_entries }
    requires pages { (1 ≤ pages) × (pages ≤ 4096) }
    ensures { IfOk result (AreRows run.now.config run.now.events.now run.now.window pages) }
{
    let one = row(alloc, run, pages_in(pages, Times::One), scanner, progress)?;
    let one_and_a_quarter = row(
        alloc,
        run,
        pages_in(pages, Times::OneAndAQuarter),
        scanner,
        progress,
    )?;
    let one_and_a_half = row(
        alloc,
        run,
        pages_in(pages, Times::OneAndAHalf),
        scanner,
        progress,
    )?;
    let two = row(alloc, run, pages_in(pages, Times::Two), scanner, progress)?;
    let three = row(alloc, run, pages_in(pages, Times::Three), scanner, progress)?;
    Ok(Rows {
        one,
        one_and_a_quarter,
        one_and_a_half,
        two,
        three,
    })
}

fn heaps_of<S: Scanner, P: Progress>(
    alloc: Global,
    run: &Run<'_>,
    scanner: &mut S,
    progress: &mut P,
) -> Result<Heaps, NoMemory>
    requires { length run.now.events.now ≤ most_entries }
    ensures { IfOk result (AreHeaps run.now.config run.now.events.now run.now.window) }
{
    progress.begins(Step::Fewest);
    match fewest(alloc, &run.config, run.events, scanner)? {
        Fewest::Found(edge) => Ok(Heaps::Found(
            edge,
            rows_of(alloc, run, edge.pages, scanner, progress)?,
        )),
        Fewest::Nowhere(event) => Ok(Heaps::Nowhere(event)),
    }
}

/// The sizes of a script, found by running it.
pub fn sizes_of<P: Progress>(
    alloc: Global,
    run: &Run<'_>,
    progress: &mut P,
) -> Result<Sizes, NoMemory>
    requires { length run.now.events.now ≤ most_entries }
    ensures { IfOk result (AreSizes run.now.config run.now.events.now run.now.window) }
{
    let mut scanner = OneScan::new(alloc);
    progress.begins(Step::Live);
    let live = live_of(alloc, &run.config, run.events, &mut scanner)?;
    let heaps = heaps_of(alloc, run, &mut scanner, progress)?;
    Ok(Sizes { live, heaps })
}
