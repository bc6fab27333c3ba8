//! The events of a script, one after the other. Its clauses have what the proof of a script needs: which sessions may
//! come, and in which order they are first named; which events are controls; what is written in a race; and that no
//! command is refused where a heap runs along.
ghost use Rattle.std.specs.Prelude.{◌≡◌, ◌<◌, ◌≤◌, ◌+◌, true, ℕ, None, IfOk, IfSome};
ghost use Rattle.mh_heap.specs.PlainHeap.{world_of};
ghost use Rattle.mh_model.specs.{Configs.with_rules, Forms.{command_phrase, is_sayable}, HistoryTexts.is_event};
ghost use Rattle.mh_model.specs.{World.{births, first_world}, declared.birth.TheConstants.LIFE};
ghost use Rattle.mh_model.specs.declared.command.Command.{Command};
ghost use Rattle.mh_generate.specs.{Asked.{is_timed, version_under, writes_its_number}, Profiles.{has_acts, named_by}};
ghost use Rattle.mh_generate.specs.{Scripts.is_below, Auxiliary.{is_next, named_after, IsSaid}};
ghost use Rattle.mh_generate.specs.Taken.{is_taken, world_then};
ghost use Rattle.mh_model.specs.declared.command.Event.TheVariants as event;

use crate::along::HeapAlong;
use crate::names::Names;
use crate::wishes::Wishes;
use mh_model::command::{Command, Control, Event};
use mh_model::config::Rules;
use mh_model::memory::NoMemory;
use mh_orders::generate_options::{Controls, Options};
use mh_orders::profile::Profile;
use std::alloc::Global;

/// Which events come next, as they are wished for. The names see to it that sessions are first named in order, and the
/// heap that no act is refused.
#[derive(Drop)]
pub(crate) struct Chooser {
    pub(crate) names: Names,
    pub(crate) along: HeapAlong,
    wishes: Wishes,
}

/// Whether the commands of a profile come from acts.
fn has_acts(profile: Profile) -> bool
    ensures { result ≡ has_acts profile }
{
    match profile {
        Profile::Barriers | Profile::Comb | Profile::Fans | Profile::Race | Profile::Cycles => true,
        _ => false,
    }
}

/// The control, or another that the rules know.
fn known(rules: Rules, control: Control) -> Control
    ensures { is_event (version_under rules) (event.Control result) ≡ true }
{
    match (rules, control) {
        (Rules::First, Control::Left) => Control::Stat,
        _ => control,
    }
}

/// The control that the event with this number is, if it is one, where this one comes by chance.
fn asked(options: &Options, number: u32, by_chance: Option<Control>) -> Option<Control>
    ensures timed { IfSome result (λ control. is_timed options.now.controls number (event.Control control) ≡ true) }
    ensures known { IfSome result (λ control. is_event (version_under options.now.rules) (event.Control control) ≡ true) }
    ensures command { result ≡ None → (who : ℕ) (command : Command) → is_timed options.now.controls number (event.Session who command) ≡ true }
{
    match options.controls {
        Controls::ByChance => Some(known(options.rules, by_chance?)),
        Controls::Each(events) => {
            if number % events == 0 {
                Some(Control::Quantum)
            } else {
                None
            }
        }
        Controls::Never => None,
    }
}

/// The command. In a race it writes the number of its event.
fn numbered(profile: Profile, number: u32, command: Command) -> Command
    ensures { (who : ℕ) → writes_its_number profile number (event.Session who result) ≡ true }
{
    match (profile, command) {
        (Profile::Race, Command::Write { slot, index, .. }) => Command::Write {
            slot,
            index,
            number: u64::from(number),
        },
        _ => command,
    }
}

/// What is said by whom: the command, or another in its place if the heap runs along and would refuse it.
fn said(
    profile: Profile,
    who: u8,
    command: Command,
    along: &mut HeapAlong,
) -> Result<(u8, Command), NoMemory>
    requires { births (world_of along.old.heap) < LIFE }
    ensures said { IfOk result (IsSaid who command) }
    ensures sayable { IfOk result (λ said. is_sayable (command_phrase said.1) ≡ true) }
    ensures taken { IfOk result (λ said. has_acts profile ≡ true → is_taken (world_of along.old.heap) (event.Session said.0 said.1) ≡ true) }
    ensures step { IfOk result (λ said. has_acts profile ≡ true → world_of along.new.heap ≡ world_then (world_of along.old.heap) (event.Session said.0 said.1)) }
    ensures few { births (world_of along.new.heap) ≤ births (world_of along.old.heap) + 1 }
{
    if has_acts(profile) {
        along.admit(who, command)
    } else {
        Ok((who, command))
    }
}

impl Chooser {
    pub(crate) fn new(alloc: Global, options: Options) -> Chooser
        ensures none { result.names.named ≡ 0 }
        ensures most { result.names.most ≡ named_by options.profile options.sessions }
        ensures world { world_of result.along.heap ≡ first_world (with_rules options.rules options.config) }
    {
        let most = match options.profile {
            Profile::Refusals | Profile::Mixed => 9,
            _ => options.sessions,
        };
        Chooser {
            names: Names::new(most),
            along: HeapAlong::open(alloc, options.config.with_rules(options.rules)),
            wishes: Wishes::new(options, has_acts(options.profile)),
        }
    }

    /// The event with this number, counted from 1.
    pub(crate) fn next(&mut self, options: &Options, number: u32) -> Result<Event, NoMemory>
        requires { births (world_of self.old.along.heap) < LIFE }
        ensures known { IfOk result (λ event. is_event (version_under options.now.rules) event ≡ true) }
        ensures next { IfOk result (λ event. is_next self.old.names.named event ≡ true) }
        ensures below { IfOk result (λ event. is_below self.old.names.most event ≡ true) }
        ensures named { IfOk result (λ event. self.new.names.named ≡ named_after self.old.names.named event) }
        ensures most { self.new.names.most ≡ self.old.names.most }
        ensures timed { IfOk result (λ event. is_timed options.now.controls number event ≡ true) }
        ensures writes { IfOk result (λ event. writes_its_number options.now.profile number event ≡ true) }
        ensures taken { IfOk result (λ event. has_acts options.now.profile ≡ true → is_taken (world_of self.old.along.heap) event ≡ true) }
        ensures world { IfOk result (λ event. has_acts options.now.profile ≡ true → world_of self.new.along.heap ≡ world_then (world_of self.old.along.heap) event) }
        ensures few { births (world_of self.new.along.heap) ≤ births (world_of self.old.along.heap) + 1 }
    {
        let by_chance = self.wishes.begin_event();
        if let Some(control) = asked(options, number, by_chance) {
            return Ok(Event::Control(control));
        }
        let who = self.names.nearest(self.wishes.speaker());
        let command = self.wishes.command(who, number, &self.along.heap);
        let command = numbered(options.profile, number, command);
        let (who, command) = said(options.profile, who, command, &mut self.along)?;
        self.names.note(who);
        Ok(Event::Session(who, command))
    }
}
