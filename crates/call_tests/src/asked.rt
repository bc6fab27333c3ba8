//! A state that is asked for one event after the other.

use crate::answers::add_line;
use crate::sweep::Attempt;
use mh_heap::heap::Heap;
use mh_model::command::Event;
use mh_model::memory::NoMemory;
use mh_scan::scan::{OneScan, Scanner};
use mh_state::state::State;
use mh_text::script::Script;
use std::alloc::{AllocError, Global};
use std::fmt::Write;
use std::test::Fail;

/// Whether a state answers an event. No clause speaks of it: what that of `apply` leads to is long.
fn answers<S: Scanner>(state: &mut State, event: Event, scanner: &mut S) -> bool {
    state.apply(event, scanner).is_ok()
}

/// A state, and the events that it has not answered yet.
#[derive(Drop)]
pub struct Asked<'a> {
    alloc: Global,
    state: State,
    events: &'a [Event],
}

impl<'a> Asked<'a> {
    pub fn new(alloc: Global, script: &'a Script) -> Result<Asked<'a>, NoMemory> {
        Ok(Asked {
            alloc,
            state: State::open(alloc, script.config())?,
            events: script.events(),
        })
    }

    /// Whether the next event is answered. One that is refused stays the next.
    fn is_answered<S: Scanner>(&mut self, scanner: &mut S) -> bool {
        let Some((event, rest)) = self.events.split_first() else {
            return false;
        };
        let is_answered = answers(&mut self.state, *event, scanner);
        if is_answered {
            self.events = rest;
        }
        is_answered
    }

    /// Whether the next events, so many, are all answered.
    pub fn are_answered<S: Scanner>(&mut self, scanner: &mut S, count: usize) -> bool {
        for _ in 0..count {
            if !self.is_answered(scanner) {
                return false;
            }
        }
        true
    }

    /// Whether one thread answers so many events.
    pub fn goes_on(&mut self, count: usize) -> bool {
        self.are_answered(&mut OneScan::new(self.alloc), count)
    }

    /// Lets one thread answer so many events.
    pub fn go_on(&mut self, count: usize) -> Result<(), Fail> {
        if self.goes_on(count) {
            Ok(())
        } else {
            Err(Fail::from("refused with memory at hand"))
        }
    }

    /// Lets one thread answer all events that are left, and gives all that the state shows then.
    pub fn go_to_end(&mut self) -> Result<String, Fail> {
        self.go_on(self.events.len())?;
        self.told()
    }

    /// The lines of all replies.
    pub fn replies(&self) -> Result<String, Fail> {
        let mut lines = String::new(self.alloc);
        for entry in self.state.history() {
            add_line(&mut lines, &entry.reply)?;
        }
        Ok(lines)
    }

    /// Adds the text of the table.
    fn push_table(&self, told: &mut String) -> Result<(), Fail> {
        let dump = self.state.machine().heap().dump(self.alloc)?;
        write!(told, "{:?}", dump.items())?;
        Ok(())
    }

    /// Adds the text of the counts that the heap keeps, and of those of the trace.
    fn push_counts(&self, told: &mut String) -> Result<(), AllocError> {
        let heap = self.state.machine().heap();
        let trace = self.state.machine().trace();
        let numbers = [
            heap.quanta_left(),
            heap.births(),
            trace.mutator_count(),
            trace.collector_count(),
            trace.quanta(),
            trace.greatest(),
        ];
        let least = trace.least_mutator(5);
        write!(told, "{:?} {numbers:?} {least:?}", heap.stat())?;
        Ok(())
    }
}

impl Attempt for Asked<'_> {
    fn is_done(&mut self) -> bool {
        self.goes_on(1)
    }

    /// The text of the history, the table and the counts.
    fn told(&self) -> Result<String, Fail> {
        let mut told = format!(in self.alloc; "{:?}", self.state.history())?;
        self.push_table(&mut told)?;
        self.push_counts(&mut told)?;
        Ok(told)
    }
}

/// A way through the events of a script.
pub trait Course {
    /// What there is to report at its end.
    fn run(&mut self, asked: &mut Asked<'_>) -> Result<String, Fail>;
}

/// What is reported of a state that goes this way through the events of a script.
pub fn told_by<C: Course>(alloc: Global, script: &Script, course: &mut C) -> Result<String, Fail> {
    let mut asked = Asked::new(alloc, script)?;
    course.run(&mut asked)
}

/// All events, with memory at hand.
#[derive(Clone, Copy)]
pub struct ToTheEnd;

impl Course for ToTheEnd {
    fn run(&mut self, asked: &mut Asked<'_>) -> Result<String, Fail> {
        asked.go_to_end()
    }
}
