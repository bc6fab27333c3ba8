//! Histories that the machine follows: it does their events with one worker, and says what is right.
//!
//! It is opened with the first entry. So memory is refused only for a text that begins with one. What is wrong with an
//! entry is its reply beside the right one, or its units beside the right ones. Or the entry is one too many.
ghost use Rattle.std.specs.Prelude.{◌≡◌, ◌≤◌, ◌+◌, Some, [], true, false, IfOk, IfSome, IfNone, OnOk};
ghost use Rattle.mh_judge.specs.{Faults.{IsFaultAfter, IsWrongAfter}, Replaying.{HasReplayed, running}};
ghost use Rattle.mh_judge.specs.ReplayRules.{replayed_legal};
ghost use Rattle.mh_model.specs.Limits.{most_entries};
ghost use Rattle.mh_machine.specs.Judging.{IsTried};

use crate::bad_entry::BadEntry;
use crate::entry_fault::EntryFault;
use crate::following::Follower;
use crate::text_entry::TextEntry;
use mh_machine::machine::Machine;
use mh_model::config::Config;
use mh_model::memory::NoMemory;
use mh_scan::scan::OneScan;
use mh_script::history::measure;
use std::alloc::Global;
use std::marker::{Model, PhantomData};

/// Does the event of an entry, and finds what is wrong with the entry.
#[tactic(auto, unfolding(mh_model::specs::Limits::most_entries))]
fn try_on<E: TextEntry>(
    machine: &mut Machine,
    entry: E,
    scanner: &mut OneScan,
) -> Result<Option<BadEntry>, NoMemory>
    requires { machine.old.done ≤ most_entries }
    ensures right { IfOk result (λ found. IfNone found (IsTried (E.fits machine.old.machine entry) machine.old (E.event_of entry) machine.new true)) }
    ensures wrong { IfOk result (λ found. IfSome found (λ bad. (bad.number ≡ machine.old.done + 1)
        × IsTried (E.fits machine.old.machine entry) machine.old (E.event_of entry) machine.new false × IsFaultAfter (E.is_wrong machine.old.machine) machine.old.done entry bad.fault)) }
{
    let number = machine.done() + 1;
    if !machine.has_history_room() {
        return Ok(Some(BadEntry {
            number,
            fault: EntryFault::TooMany,
        }));
    }
    let right = measure(machine, entry.event(), scanner)?;
    match entry.fault(right) {
        Some(fault) => Ok(Some(BadEntry { number, fault })),
        None => Ok(None),
    }
}

/// The machine that follows the entries of a text.
#[derive(Drop)]
pub(crate) struct Replay<E> {
    alloc: Global,
    config: Config,
    machine: Option<Machine>,
    scanner: OneScan,
    entries: PhantomData<E>,
}

impl<E> Model for Replay<E> {
    ghost use Rattle.mh_judge.specs.Replaying.{Replayed};

    ghost Value = { Replayed };

    ghost view = { λ r. record { config = r.config; machine = r.machine } };
}

impl<E: TextEntry> Replay<E> {
    /// One that has followed no entry, which takes no memory.
    pub(crate) fn new(alloc: Global, config: Config) -> Replay<E>
        ensures config { result.config ≡ config }
        ensures none { HasReplayed E.event_of E.lawful result.config [] result }
    {
        Replay {
            alloc,
            config,
            machine: None,
            scanner: OneScan::new(alloc),
            entries: PhantomData,
        }
    }

    /// Opens the machine, unless it is open.
    fn open(&mut self) -> Result<(), NoMemory>
        ensures { OnOk result ((self.new.config ≡ self.old.config) × (self.new.machine ≡ Some (running self.old))) }
    {
        match &self.machine {
            Some(_) => Ok(()),
            None => {
                self.machine = Some(Machine::open(self.alloc, self.config)?);
                Ok(())
            }
        }
    }
}

impl<E: TextEntry> Follower for Replay<E> {
    type Entry = E;

    ghost of_line = { λ replay. E.of_line };

    ghost lawful = { λ first. E.lawful first.config };

    ghost wrong = { λ first. IsWrongAfter first.config E.event_of E.is_wrong };

    ghost follows = { λ first. HasReplayed E.event_of E.lawful first.config };

    ghost looks = { λ first entries now. Unit {0} };

    fn read(&self, alloc: Global, line: &[u8]) -> Result<Option<E>, NoMemory> {
        E::from_line(alloc, line)
    }

    fn followed(&self) -> u64 {
        match &self.machine {
            Some(machine) => machine.done(),
            None => 0,
        }
    }

    fn follow(&mut self, entry: E) -> Result<Option<BadEntry>, NoMemory> {
        self.open()?;
        match &mut self.machine {
            Some(machine) => try_on(machine, entry, &mut self.scanner),
            None => unreachable!(),
        }
    }

    ghost legal = { replayed_legal E.event_of E.lawful };
}
