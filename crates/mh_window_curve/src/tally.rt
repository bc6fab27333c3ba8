//! The traces of histories, entry by entry.
//!
//! The units of an entry count in the order in which a run has them: those of the mutator, and then those of the
//! collector. No entry is kept. From 2 ^ 62 units on no more are counted, but lines are still read, so that a bad one
//! is found.
ghost use Rattle.std.specs.Prelude.{◌≡◌, ◌+◌, ◌<◌, ◌↔◌, List, ◌∷◌, ◌++◌, [], length, IsTrue, IfOk, IfErr, OnOk, IsErrOf};
ghost use Rattle.mh_window_curve.specs.{Histories.{Extends, IsShortTrace}, Auxiliary.IsTallyOf};
ghost use Rattle.mh_history.specs.Beginnings.{HasEntry, entries_left, line_as_measured};
ghost use Rattle.mh_model.specs.{declared.birth.TheConstants.LIFE, declared.history.Measured.Measured, Script.Means};
ghost use Rattle.mh_text.specs.TextErrors.{Refuses};

use mh_history::lines::next_entry;
use mh_model::birth::LIFE;
use mh_model::history::Measured;
use mh_model::memory::NoMemory;
use mh_report::trace::Trace;
use mh_text::pieces::Lines;
use mh_text::text_error::TextError;
use std::alloc::Global;

/// The trace of entries, which is kept as long as it has fewer than 2 ^ 62 units.
#[derive(Drop)]
pub(crate) struct Tally {
    pub(crate) trace: Trace,
    pub(crate) is_short: bool,
}

/// Whether a trace is short with so many units more.
#[tactic(auto, using(crate::proofs::WindowLemmas::counts_length))]
fn is_short_with(trace: &Trace, mutator: u64, collector: u64) -> bool
    ensures { IsTrue result ↔ (length trace.now.trace.letters + (mutator + collector) < LIFE) }
{
    let letters = trace
        .mutator_count()
        .saturating_add(trace.collector_count());
    letters.saturating_add(mutator).saturating_add(collector) < LIFE
}

/// Adds the units of an entry to a trace.
pub fn extend(trace: &mut Trace, mutator: u64, collector: u64) -> Result<(), NoMemory>
    requires short { length trace.old.trace.letters + (mutator + collector) < LIFE }
    requires bounded { IsShortTrace trace.old.trace }
    ensures trace { OnOk result (Extends trace.old.trace mutator collector trace.new.trace) }
    ensures bounded { OnOk result (IsShortTrace trace.new.trace) }
{
    trace.room()?;
    trace.mutator(mutator);
    if collector > 0 {
        trace.spent(collector);
    }
    Ok(())
}

impl Tally {
    /// The tally of no entry, which takes no memory.
    fn open(alloc: Global) -> Tally
        ensures tally { IsTallyOf [] result }
        ensures bounded { IsShortTrace result.trace.trace }
    {
        Tally {
            trace: Trace::open(alloc),
            is_short: true,
        }
    }

    /// Adds the units of an entry.
    fn add(&mut self, measured: &Measured) -> Result<(), NoMemory>
        requires { IsShortTrace self.old.trace.trace }
        ensures tally { OnOk result ((entries : List Measured) → IsTallyOf entries self.old → IsTallyOf (entries ++ measured.now ∷ []) self.new) }
        ensures bounded { OnOk result (IsShortTrace self.new.trace.trace) }
    {
        if !self.is_short {
            return Ok(());
        }
        if !is_short_with(&self.trace, measured.mutator, measured.collector) {
            self.is_short = false;
            return Ok(());
        }
        extend(&mut self.trace, measured.mutator, measured.collector)
    }
}

/// The tally of the entries that are left of a history, each of which is counted as it is read.
pub(crate) fn tally_lines(alloc: Global, mut lines: Lines<'_>) -> Result<Tally, TextError>
    ensures tally { IfOk result (λ tally. (entries : List Measured) × (entries_left line_as_measured lines.entry ≡ Means entries) × IsTallyOf entries tally) }
    ensures bounded { IfOk result (λ tally. IsShortTrace tally.trace.trace) }
    ensures line { IfErr result (Refuses (entries_left line_as_measured lines.entry)) }
    ensures memory { IsErrOf result TextError.NoMemory → HasEntry line_as_measured lines.entry }
{
    let mut tally = Tally::open(alloc);
    while let Some(measured) = next_entry::<Measured>(alloc, &mut lines)? {
        tally.add(&measured)?;
    }
    Ok(tally)
}
