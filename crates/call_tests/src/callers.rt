//! A service whose seats call one after the other.
ghost use Rattle.std.specs.Prelude.{◌<◌, ◌≤◌, All};
ghost use Rattle.mh_service.specs.Services.{IsOfService};

use crate::answers::add_line;
use mh_model::command::Event;
use mh_model::config::Config;
use mh_model::history::Entry;
use mh_model::memory::NoMemory;
use mh_model::reply::Reply;
use mh_scan::crew_scan::CrewGate;
use mh_service::seat::Seat;
use mh_service::service::Service;
use mh_state::machine::Stop;
use std::alloc::{AllocError, Global};
use std::fmt::Write;
use std::sync::Wait;
use std::test::Fail;
use std::thread::Threads;

/// A service with its seats.
#[derive(Drop)]
pub struct Callers<'a, R, G> {
    rt: &'a R,
    service: Service<'a, G>,
    seats: Vec<Seat>,
    ghost own: { All (IsOfService service) seats.items },
}

/// The number of the seat that makes the call of an event.
pub fn owner_of(event: &Event) -> usize {
    match event {
        Event::Session(who, _) => usize::from(*who).min(8),
        Event::Control(_) => 8,
    }
}

/// The text of the logs of all seats.
pub fn logs_of(alloc: Global, seats: &[Seat]) -> Result<String, AllocError> {
    let mut logs = String::new(alloc);
    for seat in seats {
        writeln!(logs, "{:?}", seat.log())?;
    }
    Ok(logs)
}

/// The answer to a call of its seat, which is none if there is no such seat.
fn answer<R: Threads + Wait, G: CrewGate>(
    rt: &R,
    service: &Service<'_, G>,
    seats: &mut [Seat],
    event: Event,
) -> Option<Result<Reply, Stop>>
    requires { All (IsOfService service.now) seats.old }
    ensures { All (IsOfService service.now) seats.new }
{
    let index = owner_of(&event);
    if index >= seats.len() || !seats[index].owns(&event) {
        return None;
    }
    Some(service.call(rt, &mut seats[index], event))
}

impl<'a, R: Threads + Wait, G: CrewGate> Callers<'a, R, G> {
    pub fn new(
        rt: &'a R,
        alloc: Global,
        config: Config,
        workers: usize,
        gate: &'a G,
    ) -> Result<Callers<'a, R, G>, NoMemory>
        requires { (0 < workers) × (workers ≤ 64) }
    {
        let (service, seats) = Service::open(alloc, config, workers, gate)?;
        Ok(Callers { rt, service, seats })
    }

    /// The answer to a call of its seat, which is none if there is no such seat.
    pub fn call(&mut self, event: Event) -> Option<Result<Reply, Stop>> {
        answer(self.rt, &self.service, &mut self.seats, event)
    }

    /// The text of the logs of all seats.
    pub fn logs(&self, alloc: Global) -> Result<String, AllocError> {
        logs_of(alloc, &self.seats)
    }

    /// The history that they leave, which is none if they can't be closed.
    pub fn close(self) -> Option<Vec<Entry>> {
        let Callers {
            rt: _,
            service,
            seats,
        } = self;
        match service.close(seats) {
            Ok(closed) => Some(closed.history),
            Err(_) => None,
        }
    }

    /// Adds the line of the answer to a call, which is not refused.
    fn add_answer(&mut self, lines: &mut String, event: Event) -> Result<(), Fail> {
        let reply = self.call(event).ok_or("no seat")??;
        Ok(add_line(lines, &reply)?)
    }

    /// Whether these are the lines of the answers to these calls, none of which is refused.
    pub fn answers_are(
        &mut self,
        alloc: Global,
        events: &[Event],
        wanted: &[u8],
    ) -> Result<bool, Fail> {
        let mut lines = String::new(alloc);
        for event in events {
            self.add_answer(&mut lines, *event)?;
        }
        Ok(lines.as_bytes() == wanted)
    }
}
