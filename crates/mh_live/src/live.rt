//! The machine that lines drive, or the world.
//!
//! A line outside the grammar is refused with its number and changes nothing, and the next one is answered. Before the
//! configuration each line that isn't blank is bad, unless it is one. A second configuration is a bad line. A world waits
//! for no configuration, and each is a bad line there, whose reason says so.
//!
//! An event after the last of all and one for which memory is refused are answered so, and change nothing, not even which
//! names were seen. So is a control in a world. A line is answered with out of memory only if it is a configuration, a
//! command, a quantum or a dump; in a world only if its command makes a new object. That the event of a machine may ask
//! for memory at all is said by private contracts alone (`MayAskForMemory` of `mh_machine`).
ghost use Rattle.std.specs.{Prelude.{◌≡◌, [], true, false, IfOk, OnOk}, String.string_bytes};
ghost use Rattle.mh_model.specs.{Script.{is_blank, line_of}, Live.{Waits, IsTurn}};
ghost use Rattle.mh_live.specs.{Answers.IsOfRules, AuxiliaryViews.{grows_of, runs_of}, Heard.IsWhy};

use crate::answer::{answer, answer_in_world, refused, starved, uncollected};
use crate::growing::GrowingWorld;
use crate::names::SessionNames;
use mh_machine::machine::Machine;
use mh_model::command::Event;
use mh_model::config::{Config, Rules};
use mh_model::limits::LEAST_QUANTUM;
use mh_model::memory::NoMemory;
use mh_reasons::line::{line_reason, world_line_reason};
use mh_reasons::reason::LineReason;
use mh_scan::scan::Scanner;
use mh_text::line::{Line, config_line, is_blank, line_of};
use std::alloc::Global;
use std::marker::Model;

/// A machine, with the names of its sessions.
#[derive(Drop)]
pub(crate) struct AttendedMachine {
    machine: Machine,
    names: SessionNames,
}

impl AttendedMachine {
    /// Answers a line after the configuration, and says what is wrong if it is outside the grammar.
    fn line<S: Scanner>(
        &mut self,
        alloc: Global,
        number: u64,
        line: &[u8],
        scanner: &mut S,
        text: &mut String,
    ) -> Result<Option<LineReason>, NoMemory>
        requires { string_bytes text.old ≡ [] }
        ensures turn { OnOk result (IsTurn number (runs_of self.old) line.now (record { text = string_bytes text.new; live = runs_of self.new })) }
        ensures why { IfOk result (IsWhy (runs_of self.old) line.now) }
    {
        match line_of(line) {
            Line::Blank => Ok(None),
            Line::Wrong => {
                refused(number, text)?;
                Ok(Some(line_reason(true, line)))
            }
            Line::Asks(control) => {
                let event = Event::Control(control);
                answer(alloc, &mut self.machine, event, scanner, text)?;
                Ok(None)
            }
            Line::Calls(name, command) => {
                let event = Event::Session(self.names.number(name), command);
                if answer(alloc, &mut self.machine, event, scanner, text)? {
                    self.names.see(name);
                }
                Ok(None)
            }
        }
    }
}

/// A world, with the names of its sessions.
#[derive(Drop)]
pub(crate) struct AttendedWorld {
    world: GrowingWorld,
    names: SessionNames,
}

impl AttendedWorld {
    /// Answers a line, and says what is wrong if it is outside the grammar.
    fn line(
        &mut self,
        number: u64,
        line: &[u8],
        text: &mut String,
    ) -> Result<Option<LineReason>, NoMemory>
        requires { string_bytes text.old ≡ [] }
        ensures turn { OnOk result (IsTurn number (grows_of self.old) line.now (record { text = string_bytes text.new; live = grows_of self.new })) }
        ensures why { IfOk result (IsWhy (grows_of self.old) line.now) }
    {
        match line_of(line) {
            Line::Blank => Ok(None),
            Line::Wrong => {
                refused(number, text)?;
                Ok(Some(world_line_reason(line)))
            }
            Line::Asks(_) => {
                uncollected(text)?;
                Ok(None)
            }
            Line::Calls(name, command) => {
                let who = self.names.number(name);
                if answer_in_world(&mut self.world, who, &command, text)? {
                    self.names.see(name);
                }
                Ok(None)
            }
        }
    }
}

/// What lines drive: nothing before the configuration.
#[derive(Drop)]
pub(crate) enum Attended {
    Nothing,
    Machine(AttendedMachine),
    World(AttendedWorld),
}

/// A run by lines, between two of them.
#[derive(Drop)]
pub struct Live {
    alloc: Global,
    run: Attended,
}

impl Model for Live {
    ghost use Rattle.mh_live.specs.AuxiliaryViews.{live_of};
    ghost use Rattle.mh_model.specs.Live.{Live};

    ghost Value = { Live };

    ghost view = { λ live. live_of live.run };
}

impl Live {
    /// A run that waits for its configuration.
    pub fn new(alloc: Global) -> Live
        ensures { result ≡ Waits }
    {
        Live {
            alloc,
            run: Attended::Nothing,
        }
    }

    /// A run in a world under these rules, which are all that it has of a configuration.
    pub fn in_world(alloc: Global, rules: Rules) -> Live
        ensures { IsOfRules rules result }
    {
        let Some(config) = Config::under(rules, 1, LEAST_QUANTUM, 0, 0) else {
            unreachable!();
        };
        let world = GrowingWorld::open(alloc, config);
        let names = SessionNames::new();
        Live {
            alloc,
            run: Attended::World(AttendedWorld { world, names }),
        }
    }

    fn configure(
        &mut self,
        number: u64,
        line: &[u8],
        text: &mut String,
    ) -> Result<Option<LineReason>, NoMemory>
        requires waits { self.old ≡ Waits }
        requires some { is_blank line.now ≡ false }
        requires empty { string_bytes text.old ≡ [] }
        ensures turn { OnOk result (IsTurn number self.old line.now (record { text = string_bytes text.new; live = self.new })) }
        ensures why { IfOk result (IsWhy Waits line.now) }
    {
        let Some(config) = config_line(line) else {
            refused(number, text)?;
            return Ok(Some(line_reason(false, line)));
        };
        match Machine::open(self.alloc, config) {
            Ok(machine) => {
                let names = SessionNames::new();
                self.run = Attended::Machine(AttendedMachine { machine, names });
                Ok(None)
            }
            Err(NoMemory) => {
                starved(text)?;
                Ok(None)
            }
        }
    }

    /// Answers a line with this number, given without its end. A line that is blank, or the configuration, is answered with
    /// nothing. If memory is refused for a line's event, it is answered so and nothing is changed. If it is refused for the
    /// text of an answer, the call fails, and the run is not to go on. Of a line outside the grammar it says what is wrong.
    #[tactic(auto, using(crate::proofs::LineTurns::blank_line, crate::proofs::LineTurns::blank_right))]
    pub fn line<S: Scanner>(
        &mut self,
        number: u64,
        line: &[u8],
        scanner: &mut S,
        text: &mut String,
    ) -> Result<Option<LineReason>, NoMemory>
        requires { string_bytes text.old ≡ [] }
        ensures turn { OnOk result (IsTurn number self.old line.now (record { text = string_bytes text.new; live = self.new })) }
        ensures why { IfOk result (IsWhy self.old line.now) }
    {
        if is_blank(line) {
            return Ok(None);
        }
        match &mut self.run {
            Attended::Nothing => self.configure(number, line, text),
            Attended::Machine(run) => run.line(self.alloc, number, line, scanner, text),
            Attended::World(run) => run.line(number, line, text),
        }
    }
}
