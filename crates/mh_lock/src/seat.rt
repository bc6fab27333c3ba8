//! The seats of a lock.
//!
//! Each is one of those first made: a seat that stands for several, before a split or after a join, keeps their lists
//! apart. A seat that gave back what it never took would leave the lock without its value. The rule speaks only of
//! seats that took it, and only a call takes and gives.
ghost use Rattle.std.specs.Prelude.{◌≡◌, []};
ghost use Rattle.mh_lock.specs.Steps.{alone};

use crate::entries::Entries;
use atomic_table::Seat;
use mh_seat_laws::SeatView;
use std::marker::Model;

/// The right to call a lock, and the log of these calls, which proofs alone see. One thread at a time can use it.
#[derive(Drop)]
pub struct LockSeat<T: Entries<E>, E> {
    pub(crate) seat: Seat<T, SeatView<E, T::Origin>>,
    number: u64,
}

impl<T: Entries<E>, E> Model for LockSeat<T, E> {
    ghost use Rattle.mh_lock.specs.Seats.{LockSeatView};

    ghost Value = { LockSeatView E };

    ghost use Rattle.std.specs.Prelude.{◌≡◌};
    ghost use Rattle.mh_lock.specs.Steps.{alone, log_in};

    ghost view = { λ seat. record { table = seat.seat.table_id; number = seat.number; log = log_in seat.seat.me } };

    ghost invariant = { λ seat. seat.seat.me ≡ alone seat.number (log_in seat.seat.me) };
}

impl<T: Entries<E>, E> LockSeat<T, E> {
    pub(crate) fn new(seat: Seat<T, SeatView<E, T::Origin>>, number: u64) -> LockSeat<T, E>
        requires { seat.me ≡ alone number [] }
        ensures { result ≡ record { table = seat.table_id; number = number; log = [] } }
    {
        LockSeat { seat, number }
    }

    /// The number that its entries are owned by.
    pub fn number(&self) -> u64
        ensures { result ≡ self.now.number }
    {
        self.number
    }

    pub(crate) fn into_seat(self) -> Seat<T, SeatView<E, T::Origin>>
        ensures { (result.table_id ≡ self.table) × (result.me ≡ alone self.number self.log) }
    {
        let LockSeat { seat, number: _ } = self;
        seat
    }
}

/// What a seat of a lock lies in, so that a lock can be closed with it.
pub trait HasSeat<T: Entries<E>, E>: Drop {
    ghost use Rattle.mh_lock.specs.Seats.{LockSeatView};

    ghost seat_of: { Self → LockSeatView E };

    fn into_lock_seat(self) -> LockSeat<T, E>
        ensures { result ≡ seat_of self };
}

impl<T: Entries<E>, E> HasSeat<T, E> for LockSeat<T, E> {
    ghost seat_of = { λ seat. seat };

    fn into_lock_seat(self) -> LockSeat<T, E> {
        self
    }
}
