//! What a program keeps behind a handle: a machine or a world, with the names of its sessions and its last reply. The
//! reply to an event is the machine's, or the world's. If an event isn't done, all is as it was, and the status says why.
//! A text that doesn't fit, or for which memory is refused, leaves the reply to be asked for again.
ghost use Rattle.std.specs.Prelude.{◌≡◌, IfOk};
ghost use Rattle.mh_model.specs.Script.{line_of};
ghost use Rattle.mh_embed.specs.Driving.{without_newline};
ghost use Rattle.mh_model.specs.declared.command.Control.TheVariants as controls;

use crate::collecting::CollectingMachine;
use crate::deeds::deed_numbers;
use crate::driver::Driver;
use crate::events::event_of;
use crate::numbers::{DeedNumbers, EventNumbers, ItemNumbers, ReplyNumbers, UnitNumbers};
use crate::replied::Replied;
use crate::shown::reply_numbers;
use crate::status::Status;
use mh_live::growing::GrowingWorld;
use mh_live::names::SessionNames;
use mh_model::command::Event;
use mh_model::config::Config;
use mh_model::memory::NoMemory;
use mh_model::reply::Reply;
use mh_text::line::{Line, line_of};
use std::alloc::Global;
use std::marker::Model;

/// A machine or a world, the names of its sessions, and the reply to its last event.
#[derive(Drop)]
pub struct Embedded {
    pub(crate) driver: Driver,
    names: SessionNames,
    replied: Replied,
}

impl Model for Embedded {
    ghost use Rattle.mh_embed.specs.Driving.{Driven};

    ghost Value = { Driven };

    ghost view = { λ e. record { driver = e.driver; names = e.names; reply = e.replied } };
}

/// A line without the newline that may end it.
pub fn without_newline(line: &[u8]) -> &[u8]
    ensures { result.now ≡ without_newline line.now }
{
    match line {
        [rest @ .., b'\n'] => rest,
        _ => line,
    }
}

impl Embedded {
    ghost use Rattle.mh_embed.specs.Driving.{first_driven, first_world_driven};
    ghost use Rattle.mh_embed.specs.Endings.{AnswerEnds, DeedEnds, EventEnds, ForgetEnds, ItemEnds, JudgeEnds, LineEnds, ReplyEnds, ReportEnds, ReserveEnds, SeeEnds, StepEnds, TellEnds, TextEnds, UnitsEnd};

    /// The machine of a configuration before its first event.
    pub fn open(alloc: Global, config: Config) -> Result<Embedded, NoMemory>
        ensures { IfOk result (λ embedded. embedded ≡ first_driven config) }
    {
        Ok(Embedded {
            driver: Driver::Collects(CollectingMachine::open(alloc, config)?),
            names: SessionNames::new(),
            replied: Replied::new(alloc),
        })
    }

    /// The world of a configuration before its first command.
    pub fn open_world(alloc: Global, config: Config) -> Embedded
        ensures { result ≡ first_world_driven config }
    {
        Embedded {
            driver: Driver::Grows(GrowingWorld::open(alloc, config)),
            names: SessionNames::new(),
            replied: Replied::new(alloc),
        }
    }

    /// Does an event, and keeps its reply as the last.
    pub fn event(&mut self, event: Event) -> Status
        ensures { EventEnds self.old event self.old.names self.new result }
    {
        match self.driver.event(event) {
            Ok(reply) => {
                self.replied.keep(reply);
                Status::Done
            }
            Err(undone) => undone,
        }
    }

    /// Does the event of a line, given without its end.
    pub fn line(&mut self, line: &[u8]) -> Status
        ensures { LineEnds self.old (line_of line.now) self.new result }
    {
        match line_of(line) {
            Line::Blank => Status::Blank,
            Line::Wrong => Status::Wrong,
            Line::Asks(control) => self.event(Event::Control(control)),
            Line::Calls(name, command) => {
                let event = Event::Session(self.names.number(name), command);
                match self.event(event) {
                    Status::Done => {
                        self.names.see(name);
                        Status::Done
                    }
                    undone => undone,
                }
            }
        }
    }

    /// Copies the text of the last reply, without the end of its line, to the start of the buffer, if it fits.
    pub fn text(&mut self, out: &mut [u8], written: &mut usize) -> Status
        ensures ends { TextEnds self.old.reply out.old out.new written.new result }
        ensures kept { self.new ≡ self.old }
    {
        self.replied.text(out, written)
    }

    /// Does the event of a line, which may end with a newline, and copies the text of its reply as `text` does.
    pub fn answer(&mut self, line: &[u8], out: &mut [u8], written: &mut usize) -> Status
        ensures { AnswerEnds self.old (line_of (without_newline line.now)) self.new out.old out.new written.new result }
    {
        match self.line(without_newline(line)) {
            Status::Done => self.text(out, written),
            undone => {
                *written = 0;
                undone
            }
        }
    }

    /// Shows the last reply.
    pub fn reply(&self, shown: &mut ReplyNumbers) -> Status
        ensures { ReplyEnds self.now.reply shown.old shown.new result }
    {
        self.replied.reply(shown)
    }

    /// Does the event that numbers are, and shows its reply.
    pub fn step(&mut self, asked: EventNumbers, shown: &mut ReplyNumbers) -> Status
        ensures { StepEnds self.old asked self.new shown.old shown.new result }
    {
        let Some(event) = event_of(asked) else {
            return Status::Wrong;
        };
        match self.event(event) {
            Status::Done => self.reply(shown),
            undone => undone,
        }
    }

    /// Shows an item of the last reply, counted from 0.
    pub fn item(&self, index: usize, shown: &mut ItemNumbers) -> Status
        ensures { ItemEnds self.now.reply index shown.old shown.new result }
    {
        self.replied.item(index, shown)
    }

    /// Shows what the last event added to the trace.
    pub fn units(&self, shown: &mut UnitNumbers) -> Status
        ensures { UnitsEnd self.now shown.old shown.new result }
    {
        let Driver::Collects(machine) = &self.driver else {
            return Status::IsWorld;
        };
        if !self.replied.is_some() {
            return Status::NoReply;
        }
        *shown = machine.units();
        Status::Done
    }

    /// Has events keep their deeds, or not, from the next one on.
    pub fn tell(&mut self, tells: bool) -> Status
        ensures { TellEnds self.old tells self.new result }
    {
        let Driver::Collects(machine) = &mut self.driver else {
            return Status::IsWorld;
        };
        machine.tell(tells);
        Status::Done
    }

    /// Shows a deed of the last event, counted from 0.
    pub fn deed(&self, index: usize, shown: &mut DeedNumbers) -> Status
        ensures { DeedEnds self.now.driver index shown.old shown.new result }
    {
        let Driver::Collects(machine) = &self.driver else {
            return Status::NoDeeds;
        };
        if !machine.has_deeds() {
            return Status::NoDeeds;
        }
        match machine.deed(index) {
            Some(deed) => {
                *shown = deed_numbers(deed);
                Status::Done
            }
            None => Status::NoItem,
        }
    }

    /// Shows what a `stat` would answer.
    pub fn see_stat(&self, shown: &mut ReplyNumbers) -> Status
        ensures { SeeEnds self.now.driver controls.Stat shown.old shown.new result }
    {
        let Driver::Collects(machine) = &self.driver else {
            return Status::IsWorld;
        };
        *shown = reply_numbers(&machine.stat());
        Status::Done
    }

    /// Shows what a `left` would answer.
    pub fn see_left(&self, shown: &mut ReplyNumbers) -> Status
        ensures { SeeEnds self.now.driver controls.Left shown.old shown.new result }
    {
        let Driver::Collects(machine) = &self.driver else {
            return Status::IsWorld;
        };
        *shown = reply_numbers(&machine.left());
        Status::Done
    }
    /// Shows the report of the trace since it was last forgotten, for windows of this length.
    pub fn see_report(&mut self, window: u64, shown: &mut ReplyNumbers) -> Status
        ensures ends { ReportEnds self.old.driver window shown.old shown.new result }
        ensures kept { self.new ≡ self.old }
    {
        let Driver::Collects(machine) = &mut self.driver else {
            return Status::IsWorld;
        };
        *shown = reply_numbers(&Reply::Report(machine.report(window)));
        Status::Done
    }

    /// Makes room for so many events, none of which then asks for memory, unless it is a dump.
    pub fn reserve(&mut self, events: usize) -> Status
        ensures { ReserveEnds self.old events self.new result }
    {
        let Driver::Collects(machine) = &mut self.driver else {
            return Status::IsWorld;
        };
        match machine.reserve(events) {
            Ok(()) => Status::Done,
            Err(NoMemory) => Status::NoMemory,
        }
    }

    /// Forgets the trace, from which reports count on then.
    pub fn forget(&mut self) -> Status
        ensures { ForgetEnds self.old self.new result }
    {
        let Driver::Collects(machine) = &mut self.driver else {
            return Status::IsWorld;
        };
        machine.forget();
        Status::Done
    }
}
