//! What the thread of one seat does. It goes over all events and makes its own calls, so no list of them is made for
//! each seat.
//!
//! A racer is proved for whatever it may call, of which it knows no reason to refuse. So it can stop only by what a call
//! of its own was answered, and only for that reason.
ghost use Rattle.std.specs.Prelude.{◌≡◌, ◌∷◌, ◌++◌, [], None, IfErr, IfOk};
ghost use Rattle.mh_lock.specs.Seats.{LockSeatView};
ghost use Rattle.mh_model.specs.declared.{command.Event.Event, history.Entry.Entry};
ghost use Rattle.mh_race.specs.{Auxiliary.{IsFresh, HasRunIn}, Racing.WasRefused};
ghost use Rattle.mh_machine.specs.declared.machine.Stop.{Stop};
ghost use Rattle.mh_service.specs.Services.{IsOfService, Owns, ServiceView};

use mh_model::command::Event;
use mh_model::reply::Reply;
use mh_scan::crew_scan::CrewGate;
use mh_service::seat::Seat;
use mh_service::service::Service;
use mh_state::machine::Stop;
use std::sync::Wait;
use std::thread::Threads;

/// What racers call.
pub(crate) trait Called {
    ghost service: { Self → ServiceView };

    // that it refused a seat's call of an event for a reason
    ghost refuses: { Self → LockSeatView Entry → Event → Stop → Type 0 };

    /// Passes the hook before the first call of the seat with this number.
    fn pass(&self, who: u8);

    fn answer<R: Threads + Wait>(
        &self,
        rt: &R,
        seat: &mut Seat,
        event: Event,
    ) -> Result<Reply, Stop>
        requires own { IsOfService (service self.now) seat.old }
        requires owned { Owns seat.old event }
        ensures own { IsOfService (service self.now) seat.new × (seat.new.number ≡ seat.old.number) }
        ensures ok { IfOk result (λ reply. seat.new.log ≡ seat.old.log ++ record { event = event; reply = reply } ∷ []) }
        ensures refused { IfErr result (λ stop. (seat.new.log ≡ seat.old.log) × refuses self.now seat.new event stop) };
}

impl<'a, G: CrewGate> Called for Service<'a, G> {
    ghost service = { λ service. service };

    ghost refuses = { WasRefused };

    fn pass(&self, who: u8) {
        self.gate().session(who);
    }

    fn answer<R: Threads + Wait>(
        &self,
        rt: &R,
        seat: &mut Seat,
        event: Event,
    ) -> Result<Reply, Stop> {
        self.call(rt, seat, event)
    }
}

/// A seat, and the refusal of the call that was its last.
#[derive(Drop)]
pub(crate) struct Racer {
    pub(crate) seat: Seat,
    pub(crate) stop: Option<Stop>,
}

impl Racer {
    pub(crate) fn new(seat: Seat) -> Racer
        ensures { result ≡ record { seat = seat; stop = None } }
    {
        Racer { seat, stop: None }
    }

    /// Makes the calls of the seat, in order, up to the first that is refused. It passes the hook before the first.
    pub(crate) fn run<R: Threads + Wait, C: Called>(
        &mut self,
        rt: &R,
        service: &C,
        events: &[Event],
    )
        requires { IsFresh (C.service service.now) self.old }
        ensures { HasRunIn (C.service service.now) (C.refuses service.now) events.now self.new }
    {
        let mut has_begun = false;
        for event in events {
            if !self.seat.owns(event) {
                continue;
            }
            if !has_begun {
                service.pass(self.seat.number() as u8);
                has_begun = true;
            }
            if let Err(stop) = service.answer(rt, &mut self.seat, *event) {
                self.stop = Some(stop);
                return;
            }
        }
    }
}
