//! A service whose calls are made one after the other.

use crate::callers::Callers;
use crate::sweep::Attempt;
use mh_model::command::Event;
use mh_model::memory::NoMemory;
use mh_scan::gate::Open;
use mh_text::script::Script;
use std::alloc::Global;
use std::sync::Wait;
use std::test::Fail;
use std::thread::Threads;

static OPEN: Open = Open;

/// A service of two workers, and the events that its seats have not called for yet.
#[derive(Drop)]
pub struct Called<'a, R> {
    alloc: Global,
    callers: Callers<'a, R, Open>,
    events: &'a [Event],
}

impl<'a, R: Threads + Wait> Called<'a, R> {
    pub fn new(rt: &'a R, alloc: Global, script: &'a Script) -> Result<Called<'a, R>, NoMemory> {
        Ok(Called {
            alloc,
            callers: Callers::new(rt, alloc, script.config(), 2, &OPEN)?,
            events: script.events(),
        })
    }
}

impl<R: Threads + Wait> Attempt for Called<'_, R> {
    fn is_done(&mut self) -> bool {
        let Some((event, rest)) = self.events.split_first() else {
            return false;
        };
        let is_done = matches!(self.callers.call(*event), Some(Ok(_)));
        if is_done {
            self.events = rest;
        }
        is_done
    }

    /// The text of the logs of all seats.
    fn told(&self) -> Result<String, Fail> {
        Ok(self.callers.logs(self.alloc)?)
    }
}
