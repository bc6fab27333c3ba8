//! The judging of histories: whether each entry has the machine's reply, and in a record its units too.
//!
//! A history is legal exactly when it is found to be. Otherwise the number reported is that of its first bad entry: the
//! least number up to which the history isn't legal. So it is 1,000,001 if the machine's replies are right that far. A
//! judge that is shown the entries one by one, and keeps none, finds the same of those that it was shown.
//!
//! What is wrong with the bad entry isn't said here. `mh_judge` says it of texts: when it follows an entry it has the
//! right reply in hand, and keeps the difference at once.
//! `check` and `audit` judge a history that lies in memory, for users of this crate: here tests alone call them. They
//! open a machine before anything else, so no clause says when memory is refused to them.
ghost use Rattle.std.specs.Prelude.{◌≡◌, [], ◌∷◌, ◌++◌, List, IsSome, IsOk, IfOk, IfErr, OnOk, OnErr};
ghost use Rattle.mh_model.specs.{declared.config.Config.Config, declared.history.Entry.Entry};
ghost use Rattle.mh_model.specs.{declared.history.Measured.Measured, History.IsLegal};
ghost use Rattle.mh_model.specs.HistoryTexts.{IsJudged, IsLegalRecord};
ghost use Rattle.mh_machine.specs.Judging.{HasSeen, HasSeenEntries, HasSeenMeasured, NamesFirstBad, first_judging, found_by};
ghost use Rattle.mh_machine.specs.{Running.MayAskForMemory, declared.judge.CheckFault.CheckFault};

use crate::entry::JudgedEntry;
use crate::machine::Machine;
use mh_model::config::Config;
use mh_model::history::{Entry, Measured, Verdict};
use mh_model::memory::NoMemory;
use mh_scan::scan::OneScan;
use std::alloc::Global;
use std::marker::Model;
use thiserror::Error;

/// Why a history was not found to be legal.
#[derive(Clone, Copy, Debug, PartialEq, Eq, Error)]
pub enum CheckFault {
    /// The number of the first bad entry, counted from 1.
    #[error("first bad {0}")]
    FirstBad(u64),
    #[error("no memory")]
    NoMemory,
}

impl From<NoMemory> for CheckFault {
    ghost from_gives = { λ _ fault. fault ≡ CheckFault.NoMemory };

    fn from(_error: NoMemory) -> CheckFault {
        CheckFault::NoMemory
    }
}

/// A judge, who is shown the entries of a history one by one, and replays them with one worker. An entry past the
/// 1,000,000th is bad.
#[derive(Drop)]
pub struct Judge {
    machine: Machine,
    scanner: OneScan,
    first_bad: Option<u64>,
}

impl Model for Judge {
    ghost use Rattle.mh_machine.specs.Judging.{Judging};

    ghost Value = { Judging };

    ghost view = { λ j. record { running = j.machine; first_bad = j.first_bad } };
}

impl Judge {
    /// A judge who has seen no entry.
    pub fn open(alloc: Global, config: Config) -> Result<Judge, NoMemory>
        ensures first { IfOk result (λ judge. judge ≡ first_judging config) }
        ensures entries { IfOk result (HasSeenEntries config []) }
        ensures measured { IfOk result (HasSeenMeasured config []) }
    {
        Ok(Judge {
            machine: Machine::open(alloc, config)?,
            scanner: OneScan::new(alloc),
            first_bad: None,
        })
    }

    /// Shows it the next entry. After the first bad one it does nothing.
    #[tactic(auto, unfolding(mh_model::specs::Limits::most_events))]
    pub fn entry<E: JudgedEntry>(&mut self, entry: &E) -> Result<(), NoMemory>
        ensures seen { OnOk result ((config : Config) (seen : List E) → HasSeen config E.event_of (E.lawful config) seen self.old → HasSeen config E.event_of (E.lawful config) (seen ++ entry.now ∷ []) self.new) }
        ensures settled { IsSome self.old.first_bad → (self.new ≡ self.old) × IsOk result }
        ensures stopped { OnErr result (self.new ≡ self.old) }
        ensures memory { OnErr result (MayAskForMemory self.old.running.room (E.event_of entry.now)) }
    {
        let number = self.machine.done() + 1;
        if self.first_bad.is_none() && !entry.try_on(&mut self.machine, &mut self.scanner)? {
            self.first_bad = Some(number);
        }
        Ok(())
    }

    /// Shows it a whole history, and reports what it found.
    fn settle<E: JudgedEntry>(&mut self, history: &[E]) -> Result<(), CheckFault>
        ensures legal { OnOk result ((config : Config) → HasSeen config E.event_of (E.lawful config) [] self.old → E.lawful config history.now) }
        ensures bad { IfErr result (λ fault. (config : Config) → HasSeen config E.event_of (E.lawful config) [] self.old → NamesFirstBad (E.lawful config) history.now fault) }
    {
        for entry in history {
            self.entry(entry)?;
        }
        match self.first_bad {
            Some(number) => Err(CheckFault::FirstBad(number)),
            None => Ok(()),
        }
    }

    /// What was found of the entries that were shown.
    pub fn verdict(&self) -> Verdict
        ensures found { result ≡ found_by self.now }
        ensures entries { (config : Config) (seen : List Entry) → HasSeenEntries config seen self.now → IsJudged (IsLegal config) seen result }
        ensures measured { (config : Config) (seen : List Measured) → HasSeenMeasured config seen self.now → IsJudged (IsLegalRecord config) seen result }
    {
        match self.first_bad {
            Some(number) => Verdict::FirstBad(number),
            None => Verdict::Legal(self.machine.done()),
        }
    }
}

/// Replays a history with one worker. An entry past the 1,000,000th is bad.
pub fn check(alloc: Global, config: Config, history: &[Entry]) -> Result<(), CheckFault>
    ensures legal { OnOk result (IsLegal config history.now) }
    ensures bad { IfErr result (NamesFirstBad (IsLegal config) history.now) }
{
    let mut judge = Judge::open(alloc, config)?;
    judge.settle(history)
}

/// Replays a history whose entries state their units, with one worker. An entry past the 1,000,000th is bad.
pub fn audit(alloc: Global, config: Config, entries: &[Measured]) -> Result<(), CheckFault>
    ensures legal { OnOk result (IsLegalRecord config entries.now) }
    ensures bad { IfErr result (NamesFirstBad (IsLegalRecord config) entries.now) }
{
    let mut judge = Judge::open(alloc, config)?;
    judge.settle(entries)
}
