//! The heap that never collects, which follows a history by what its sessions see, and the tally of what was looked at.
//!
//! A `new` may be answered `heap full` only if the ever-growing world makes its object. Our own heap is full only so,
//! and the order of refusals is a rule that every heap can follow. Of a control's reply it is asked only that it is a
//! reply of the grammar. So a history of another collector has the one form that all histories have. Every object of
//! the history is kept. So a long history of large objects may end with `no memory`.
//!
//! What is wrong with an entry is known when it is followed: its reply beside the one of the ever-growing world. Where
//! no heap may be full, the first full entry is bad, unless its reply is anyhow. A control's reply is never wrong.
ghost use Rattle.std.specs.Prelude.{◌≡◌, ◌<◌, ◌≤◌, ◌+◌, ◌↔◌, [], false, true, IsTrue, IfOk, IfSome, IfNone, OnErr};
ghost use Rattle.mh_heap.specs.PlainHeap.{world_of};
ghost use Rattle.mh_model.specs.{declared.birth.TheConstants.LIFE, declared.config.Config.Config};
ghost use Rattle.mh_model.specs.{declared.reply.Reply.TheVariants.Done, Limits.most_entries};
ghost use Rattle.mh_model.specs.{Sessions.{MayLackRoom, lacks_room}, World.{IsNew, births, first_world, world_step}};
ghost use Rattle.mh_judge_sessions.specs.{Faults.IsUnseen, Full.{lawful_by, tally_of, wrong_by}};
ghost use Rattle.mh_judge_sessions.specs.{WatchRules.watched_legal, Watching.{HasWatched, MakesObject, seen_line}};
ghost use Rattle.mh_judge_sessions.specs.Auxiliary.{IsFollowed, IsWatched, full_fault};

use crate::tally::{EntryCounts, is_full};
use mh_heap::perform::perform;
use mh_heap::plain::PlainHeap;
use mh_history::lines::FromLine;
use mh_judge::bad_entry::BadEntry;
use mh_judge::entry_fault::EntryFault;
use mh_judge::following::Follower;
use mh_judge::reply_fault::reply_fault;
use mh_machine::same::is_same;
use mh_model::command::{Command, Event};
use mh_model::config::{Config, Rules};
use mh_model::history::{Entry, Measured, Version};
use mh_model::limits::{LEAST_QUANTUM, MOST_ENTRIES};
use mh_model::memory::NoMemory;
use mh_model::reply::{Refusal, Reply};
use std::alloc::Global;
use std::marker::Model;

/// Whether a command that makes an object is answered that there is no room for it.
fn lacks_room(command: &Command, reply: &Reply) -> bool
    ensures { result ≡ lacks_room command.now reply.now }
{
    matches!(command, Command::New { .. }) && matches!(reply, Reply::Refused(Refusal::HeapFull))
}

/// Whether the heap that never collects would make the new object that a command asks for.
fn is_made(heap: &PlainHeap, who: u8, command: &Command) -> bool
    requires { IsNew command.now }
    ensures { IsTrue result ↔ ((world_step (world_of heap.now) who command.now).reply ≡ Done) }
{
    let Command::New {
        slot,
        references,
        numbers,
    } = *command
    else {
        unreachable!();
    };
    heap.refusal_of_new(who, slot, references, numbers)
        .is_none()
}

/// Whether a command may be answered that there is no room for its object.
fn may_lack_room(heap: &PlainHeap, who: u8, command: &Command, reply: &Reply) -> bool
    ensures { IsTrue result ↔ MayLackRoom (world_of heap.now) who command.now reply.now }
{
    lacks_room(command, reply) && is_made(heap, who, command)
}

/// Performs a session's command, if there was room for it, and finds what is wrong with an entry that its session may not
/// see. It passes over controls.
fn follow(heap: &mut PlainHeap, entry: Entry) -> Result<Option<EntryFault>, NoMemory>
    requires { births (world_of heap.old) < LIFE }
    ensures right { IfOk result (λ found. IfNone found (IsFollowed (world_of heap.old) entry (world_of heap.new) true)) }
    ensures wrong { IfOk result (λ found. IfSome found (λ fault. IsFollowed (world_of heap.old) entry (world_of heap.new) false × IsUnseen (world_of heap.old) entry fault)) }
    ensures few { births (world_of heap.new) ≤ births (world_of heap.old) + 1 }
    ensures memory { OnErr result (MakesObject entry.event entry.reply) }
{
    let Event::Session(who, command) = entry.event else {
        return Ok(None);
    };
    if may_lack_room(heap, who, &command, &entry.reply) {
        return Ok(None);
    }
    let right = perform(heap, who, &command)?;
    if is_same(&entry.reply, &right) {
        return Ok(None);
    }
    Ok(Some(reply_fault(entry.reply, right)))
}

/// What is wrong with a full entry that may not be: the ever-growing world makes its object.
fn full_fault() -> EntryFault
    ensures { result ≡ full_fault }
{
    EntryFault::Reply {
        given: Reply::Refused(Refusal::HeapFull),
        right: Reply::Done,
    }
}

/// Follows an entry after so many, and finds what is wrong with it. One past the 1,000,000th is one too many.
#[tactic(auto, unfolding(mh_model::specs::Limits::most_entries))]
fn try_entry(
    heap: &mut PlainHeap,
    may_be_full: bool,
    followed: u64,
    entry: Entry,
) -> Result<Option<BadEntry>, NoMemory>
    requires few { followed ≤ most_entries }
    requires births { births (world_of heap.old) ≤ followed }
    ensures tried { IfOk result (IsWatched may_be_full (world_of heap.old) followed entry (world_of heap.new)) }
    ensures births { births (world_of heap.new) ≤ followed + 1 }
    ensures memory { OnErr result (MakesObject entry.event entry.reply) }
{
    let number = followed + 1;
    if followed == MOST_ENTRIES {
        return Ok(Some(BadEntry {
            number,
            fault: EntryFault::TooMany,
        }));
    }
    let is_wrongly_full = !may_be_full && is_full(&entry);
    match follow(heap, entry)? {
        Some(fault) => Ok(Some(BadEntry { number, fault })),
        None if is_wrongly_full => Ok(Some(BadEntry {
            number,
            fault: full_fault(),
        })),
        None => Ok(None),
    }
}

/// The heap that never collects, under these rules.
fn plain_heap(alloc: Global, rules: Rules) -> PlainHeap
    ensures { (config : Config) × (config.rules ≡ rules) × (world_of result ≡ first_world config) }
{
    let Some(config) = Config::under(rules, 1, LEAST_QUANTUM, 0, 0) else {
        unreachable!();
    };
    PlainHeap::open(alloc, config)
}

/// What follows the entries of a text of some version by what their sessions see, and counts what it looks at.
#[derive(Drop)]
pub struct Watch {
    version: Version,
    may_be_full: bool,
    rules: Rules,
    heap: PlainHeap,
    tally: EntryCounts,
}

impl Model for Watch {
    ghost use Rattle.mh_heap.specs.PlainHeap.{world_of};
    ghost use Rattle.mh_judge_sessions.specs.Watching.{Watched};

    ghost Value = { Watched };

    ghost view = { λ w. record { version = w.version; may_be_full = w.may_be_full; rules = w.rules; world = world_of w.heap; tally = w.tally } };
}

impl Watch {
    /// One that has followed no entry, which takes no memory.
    #[tactic(auto, using(crate::proofs::WatchLemmas::watched_none))]
    pub fn open(alloc: Global, version: Version, may_be_full: bool, rules: Rules) -> Watch
        ensures version { result.version ≡ version }
        ensures may_be_full { result.may_be_full ≡ may_be_full }
        ensures rules { result.rules ≡ rules }
        ensures none { HasWatched result [] result }
    {
        Watch {
            version,
            may_be_full,
            rules,
            heap: plain_heap(alloc, rules),
            tally: EntryCounts::none(),
        }
    }

    /// What it has looked at.
    pub fn tally(&self) -> EntryCounts
        ensures { result ≡ self.now.tally }
    {
        self.tally
    }
}

impl Follower for Watch {
    type Entry = Entry;

    ghost of_line = { λ watch. seen_line watch.version };

    ghost lawful = { λ first. lawful_by first.may_be_full first.rules };

    ghost wrong = { λ first. wrong_by first.may_be_full first.rules };

    ghost follows = { HasWatched };

    ghost looks = { λ first entries now. now.tally ≡ tally_of entries };

    // only where a new object is made
    ghost asks = { λ entry. MakesObject entry.event entry.reply };

    fn read(&self, alloc: Global, line: &[u8]) -> Result<Option<Entry>, NoMemory> {
        match self.version {
            Version::One => Entry::from_line(alloc, line),
            Version::Two => match Measured::from_line(alloc, line)? {
                Some(measured) => Ok(Some(measured.entry)),
                None => Ok(None),
            },
        }
    }

    fn followed(&self) -> u64 {
        self.tally.entries
    }

    fn follow(&mut self, entry: Entry) -> Result<Option<BadEntry>, NoMemory> {
        let followed = self.tally.entries;
        self.tally.add(&entry);
        try_entry(&mut self.heap, self.may_be_full, followed, entry)
    }

    ghost legal = { watched_legal };
}
