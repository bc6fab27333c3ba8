//! The seats of a service. A seat's log is kept twice, as a vector and in what proofs know of the seat. An invariant
//! ties the two.
ghost use Rattle.std.specs.Prelude.{◌≡◌, ◌↔◌, [], IsTrue};
ghost use Rattle.mh_service.specs.Services.{Owns};

use crate::job::Shared;
use mh_lock::seat::{HasSeat, LockSeat};
use mh_model::command::Event;
use mh_model::history::Entry;
use mh_model::limits::SESSIONS;
use std::alloc::Global;
use std::marker::Model;

/// The number of the desk, the seat of the controls and of the sessions 8 and more. The other seats are those of the
/// sessions below 8.
pub const DESK: u64 = SESSIONS as u64;

/// The right to make the calls of a session below 8, or of the desk, and the log of these calls. One thread at a time can
/// use it.
#[derive(Drop)]
pub struct Seat {
    pub(crate) seat: LockSeat<Shared, Entry>,
    pub(crate) log: Vec<Entry>,
}

impl Model for Seat {
    ghost use Rattle.std.specs.Prelude.{◌≡◌};
    ghost use Rattle.mh_model.specs.declared.history.Entry.{Entry};
    ghost use Rattle.mh_lock.specs.Seats.{LockSeatView};

    ghost Value = { LockSeatView Entry };

    ghost view = { λ seat. seat.seat };

    ghost invariant = { λ seat. seat.log.items ≡ seat.seat.log };
}

impl HasSeat<Shared, Entry> for Seat {
    ghost seat_of = { λ seat. seat };

    fn into_lock_seat(self) -> LockSeat<Shared, Entry> {
        let Seat { seat, log: _ } = self;
        seat
    }
}

impl Seat {
    pub(crate) fn new(alloc: Global, seat: LockSeat<Shared, Entry>) -> Seat
        requires { seat.log ≡ [] }
        ensures { result ≡ seat }
    {
        Seat {
            seat,
            log: Vec::new(alloc),
        }
    }

    /// The number of its session, or that of the desk.
    pub fn number(&self) -> u64
        ensures { result ≡ self.now.number }
    {
        self.seat.number()
    }

    /// Its calls that were answered, in order, each with its reply.
    pub fn log(&self) -> &[Entry]
        ensures { result.now ≡ self.now.log }
    {
        self.log.as_slice()
    }

    /// Whether a call with this event is one of this seat's.
    pub fn owns(&self, event: &Event) -> bool
        ensures { IsTrue result ↔ Owns self.now event.now }
    {
        let owner = match event {
            Event::Session(who, _) => u64::from(*who).min(DESK),
            Event::Control(_) => DESK,
        };
        owner == self.seat.number()
    }
}
