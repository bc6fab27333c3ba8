//! The lock: how its value is taken, worked on and given back.
//!
//! A call works once, on the value that it finds under the lock, in which the seat owns exactly its log. It gives back
//! what that leaves (`alone`). The entry of a call is appended to the log of its seat. If the work refuses, the log and
//! the value's entries stay as they are. The lock is closed exactly when all seats are handed in. Then each seat's log
//! is what that seat owns of the value's entries, in order, so that the logs merge to them. The value has the origin
//! with which the lock was opened, since the rule keeps it. The lock keeps the model's rule (`kept`).
//!
//! A call tries 100 times, yielding after each try, before it sleeps, since most calls are shorter than a sleep and a
//! wake. Beside the word of the rule the lock has a count of the sleepers, which no rule and no contract speaks of. A
//! seat that gives the value back wakes a sleeper only if one is counted. A thread is counted before it looks at the
//! word for the last time, so none sleeps unseen. That sleepers are woken is tested, not proved.
ghost use Rattle.std.specs.Prelude.{◌≡◌, ◌≢◌, ◌+◌, ◌<◌, ◌==◌, [], ◌∷◌, ◌++◌, ℕ, List, Option, None, true, false, All, IfOk, IfErr, OnErr, count_by, map, slice_index_or, vec_len};
ghost use Rattle.mh_model.specs.History.{owned_by};
ghost use Rattle.mh_lock.specs.Seats.{LockSeatView, IsOf, new_seat, IsKeptAtHome, IsDoneUnderLock, entry_of_call};
ghost use Rattle.mh_lock.specs.{Steps.{alone, log_in, number_in, held, HasTaken}, Auxiliary.{held_origin, CanGive}};

use crate::entries::{Entries, Owned, Work};
use crate::seat::{HasSeat, LockSeat};
use atomic_table::{Join, Play, Seat, Split, Table, TableRule};
use mh_model::memory::NoMemory;
use mh_seat_laws::SeatView;
use std::alloc::Global;
use std::marker::{Brand, Model, PhantomData};
use std::sync::Wait;
use std::sync::atomic::AtomicU64;
use std::sync::atomic::Ordering::SeqCst;
use std::thread;

/// How often a call tries to take the value before it sleeps.
const TRIES: u64 = 100;

/// The rule of the lock, about the number of its seats and the origin of its value.
struct LockRule<T, E> {
    marker: PhantomData<(T, E)>,
}

impl<T: Entries<E>, E: Owned> TableRule<T, SeatView<E, T::Origin>, (u64, T::Origin)>
    for LockRule<T, E> {
    ghost use Rattle.mh_seat_laws.specs.Lock.{IsLocked};
    ghost use Rattle.mh_lock.specs.Steps.{all_seats};

    ghost holds = { IsLocked E.owner T.entries T.origin };

    ghost first = { all_seats };
}

/// What a lock is about, which proofs alone name: the number of its seats and the origin of its value.
trait About<O> {
    ghost about: { Option (ℕ × O) };
}

impl<O> About<O> for Brand {
    ghost about = { None };
}

struct Take<A> {
    marker: PhantomData<A>,
}

impl<T: Entries<E>, E: Owned, A: About<T::Origin>> Play<T, SeatView<E, T::Origin>> for Take<A> {
    ghost use Rattle.mh_lock.specs.Steps.{Takes};

    ghost then = { Takes E.owner T.entries T.origin A.about };
}

struct Give;

impl<T: Entries<E>, E: Owned> Play<T, SeatView<E, T::Origin>> for Give {
    ghost use Rattle.mh_lock.specs.Steps.{Gives};

    ghost then = { Gives E.owner T.entries T.origin };
}

/// The first log goes to the new seat.
struct TakeFirst;

impl<E, O> Split<SeatView<E, O>> for TakeFirst {
    ghost use Rattle.std.specs.Prelude.{take, drop, None};
    ghost use Rattle.mh_lock.specs.Steps.{seat_view};

    ghost left = { λ view. seat_view (drop 1 view.logs) view.found };

    ghost right = { λ view. seat_view (take 1 view.logs) None };
}

/// The logs of the seat that is taken in stand before the others.
struct TakeIn;

impl<E, O> Join<SeatView<E, O>> for TakeIn {
    ghost use Rattle.std.specs.Prelude.{[], ◌++◌, None};
    ghost use Rattle.mh_lock.specs.Steps.{seat_view};

    ghost both = { λ view before. seat_view (before.logs ++ view.logs) view.found };

    ghost spent = { seat_view [] None };
}

/// A value that one seat at a time works on.
#[derive(Drop)]
pub struct Lock<T: Entries<E> + Drop, E: Owned> {
    table: Table<T, SeatView<E, T::Origin>, (u64, T::Origin), LockRule<T, E>, Global>,
    seats: u64,
    // How many threads sleep until the value is back, or are about to.
    sleepers: AtomicU64,
}

impl<T: Entries<E> + Drop, E: Owned> Model for Lock<T, E> {
    ghost use Rattle.mh_lock.specs.Seats.{LockView};

    ghost Value = { LockView T.Origin };

    ghost use Rattle.std.specs.Prelude.{◌≡◌, ◌<◌};

    ghost view = { λ lock. record { table = lock.table.shared.table_id; seats = lock.seats; origin = lock.table.shared.key.1 } };

    ghost invariant = { λ lock. (0 < lock.seats) × (lock.table.shared.table_id.words ≡ 1) × (lock.table.shared.table_id.slots ≡ 1) × (lock.table.shared.key.0 ≡ lock.seats) };
}

impl<T: Entries<E> + Drop, E: Owned> Lock<T, E> {
    /// A lock over a value without entries, and its seats, numbered from 0.
    pub fn open(
        alloc: Global,
        value: T,
        seats: u64,
    ) -> Result<(Lock<T, E>, Vec<LockSeat<T, E>>), NoMemory>
        requires some { 0 < seats }
        requires fresh { T.entries value ≡ [] }
        ensures lock { IfOk result (λ made. made.0.seats ≡ seats) }
        ensures origin { IfOk result (λ made. made.0.origin ≡ T.origin value) }
        ensures count { IfOk result (λ made. vec_len made.1 ≡ seats) }
        ensures each { IfOk result (λ made. (number : ℕ) (other : LockSeatView E) → number < seats → slice_index_or made.1.items number other ≡ new_seat made.0 number) }
    {
        let about = (seats, value.origin());
        let mut slots = Vec::new(alloc);
        slots.push(value)?;
        let Ok((table, mut rest)) = Table::new(alloc, &[0], slots, &about) else {
            return Err(NoMemory);
        };
        let lock = Lock {
            table,
            seats,
            sleepers: AtomicU64::new(0),
        };
        let mut all = Vec::new(alloc);
        for number in 0..seats - 1 {
            let first = lock.table.shared.split_seat::<TakeFirst>(&mut rest);
            all.push(LockSeat::new(first, number))?;
        }
        all.push(LockSeat::new(rest, seats - 1))?;
        Ok((lock, all))
    }

    /// How many threads sleep until the value is back, or are about to. There may be others by the time it is reported.
    pub fn sleepers(&self) -> u64 {
        self.sleepers.load(SeqCst)
    }

    // Whether one of a few tries took the value.
    fn try_to_take<A: About<T::Origin>>(&self, seat: &mut Seat<T, SeatView<E, T::Origin>>) -> bool
        requires about { A.about ≡ Some (self.now.seats, self.now.origin) }
        requires own { seat.old.table_id ≡ self.now.table }
        requires alone { seat.old.me ≡ alone (number_in seat.old.me) (log_in seat.old.me) }
        ensures own { (seat.new.table_id ≡ seat.old.table_id) × (seat.new.id ≡ seat.old.id) }
        ensures taken { result ≡ true → HasTaken E.owner T.entries T.origin (self.now.seats, self.now.origin) seat.old.me seat.new.me }
        ensures same { result ≡ false → seat.new.me ≡ seat.old.me }
    {
        for _ in 0..TRIES {
            if self.table.shared.compare_exchange::<Take<A>>(seat, 0, 0, 1) == 0 {
                return true;
            }
            thread::yield_now();
        }
        false
    }

    // Sleeps until a wake, unless the word is 0 again. It may also return for no reason.
    fn sleep<R: Wait>(&self, rt: &R) {
        self.sleepers.fetch_add(1, SeqCst);
        self.table.shared.park(rt, 0, 1);
        self.sleepers.fetch_sub(1, SeqCst);
    }

    // The word is 0 by now. A thread is counted before it looks at the word for the last time, so one that isn't counted
    // yet finds 0 and doesn't sleep.
    fn wake(&self) {
        if self.sleepers.load(SeqCst) != 0 {
            self.table.shared.wake_one(0);
        }
    }

    // Waits until the value is at home, and takes it.
    fn take<A: About<T::Origin>, R: Wait>(&self, rt: &R, seat: &mut Seat<T, SeatView<E, T::Origin>>)
        requires about { A.about ≡ Some (self.now.seats, self.now.origin) }
        requires own { seat.old.table_id ≡ self.now.table }
        requires alone { seat.old.me ≡ alone (number_in seat.old.me) (log_in seat.old.me) }
        ensures own { (seat.new.table_id ≡ seat.old.table_id) × (seat.new.id ≡ seat.old.id) }
        ensures taken { HasTaken E.owner T.entries T.origin (self.now.seats, self.now.origin) seat.old.me seat.new.me }
    {
        for _ in rt.forever() {
            if self.try_to_take::<A>(seat) {
                return;
            }
            self.sleep(rt);
        }
        unreachable!()
    }

    // Runs the work on the value that the seat has.
    fn run_on<W: Work<T, E>>(
        &self,
        seat: &mut Seat<T, SeatView<E, T::Origin>>,
        work: W,
    ) -> Result<W::Reply, W::Refusal>
        requires own { seat.old.table_id ≡ self.now.table }
        requires held { (value : T) × (seat.old.me.1 ≡ (0, value) ∷ []) }
        ensures own { (seat.new.table_id ≡ seat.old.table_id) × (seat.new.id ≡ seat.old.id) × (seat.new.me.0 ≡ seat.old.me.0) }
        ensures held { (value : T) × (seat.new.me.1 ≡ (0, value) ∷ []) }
        ensures does { (found : T) × (left : T) × (seat.old.me.1 ≡ (0, found) ∷ []) × (seat.new.me.1 ≡ (0, left) ∷ []) × W.does work found result left }
        ensures ok { IfOk result (λ reply. held T.entries seat.new.me.1 ≡ held T.entries seat.old.me.1 ++ W.entry work reply ∷ []) }
        ensures err { OnErr result (held T.entries seat.new.me.1 ≡ held T.entries seat.old.me.1) }
        ensures origin { held_origin T.origin seat.new.me.1 ≡ held_origin T.origin seat.old.me.1 }
    {
        work.run(seat.slot_mut(&self.table.shared, 0))
    }

    // Gives the value back, with its origin and the entries that the seat found, or one more, which the seat owns.
    fn give(&self, seat: &mut Seat<T, SeatView<E, T::Origin>>)
        requires own { seat.old.table_id ≡ self.now.table }
        requires holding { CanGive E.owner T.entries T.origin seat.old.me }
        ensures own { (seat.new.table_id ≡ seat.old.table_id) × (seat.new.id ≡ seat.old.id) }
        ensures given { seat.new.me ≡ alone (number_in seat.old.me) (owned_by E.owner (number_in seat.old.me) (held T.entries seat.old.me.1)) }
    {
        self.table.shared.store::<Give>(seat, 0, 0);
        self.wake();
    }

    /// Runs the work once while no other call runs. A call that finds the value with another seat waits until it is back.
    pub fn call<R: Wait, W: Work<T, E>>(
        &self,
        rt: &R,
        seat: &mut LockSeat<T, E>,
        work: W,
    ) -> Result<W::Reply, W::Refusal>
        requires own { IsOf self.now seat.old }
        requires owned { (reply : W.Reply) → E.owner (W.entry work reply) ≡ seat.old.number }
        ensures own { IsOf self.now seat.new × (seat.new.number ≡ seat.old.number) }
        ensures alone { IsDoneUnderLock E.owner T.entries T.origin (λ found left. W.does work found result left) self.now seat.old seat.new (entry_of_call (W.entry work) result) }
        ensures ok { IfOk result (λ reply. seat.new.log ≡ seat.old.log ++ W.entry work reply ∷ []) }
        ensures err { OnErr result (seat.new.log ≡ seat.old.log) }
    {
        self.take::<Brand, R>(rt, &mut seat.seat);
        let answer = self.run_on(&mut seat.seat, work);
        self.give(&mut seat.seat);
        answer
    }

    /// The value, once all seats are handed in. If one is missing, lock and seats come back. It asks for no memory.
    pub fn close<S: HasSeat<T, E>>(self, seats: Vec<S>) -> Result<T, (Lock<T, E>, Vec<S>)>
        requires { All (λ seat. IsOf self (S.seat_of seat)) seats.items }
        ensures count { IfOk result (λ value. vec_len seats ≡ self.seats) }
        ensures numbers { IfOk result (λ value. (number : ℕ) → number < self.seats → count_by (λ seat. (S.seat_of seat).number == number) seats.items ≡ 1) }
        ensures logs { IfOk result (λ value. All (λ seat. (S.seat_of seat).log ≡ owned_by E.owner (S.seat_of seat).number (T.entries value)) seats.items) }
        ensures owned { IfOk result (λ value. All (λ entry. E.owner entry < self.seats) (T.entries value)) }
        ensures kept { IfOk result (λ value. IsKeptAtHome E.owner self (map S.seat_of seats.items) (T.entries value)) }
        ensures origin { IfOk result (λ value. T.origin value ≡ self.origin) }
        ensures err { IfErr result (λ back. (vec_len seats ≢ self.seats) × (back.0 ≡ self) × (back.1 ≡ seats)) }
    {
        if seats.len() as u64 != self.seats {
            return Err((self, seats));
        }
        Ok(self.join_all(seats))
    }

    // All logs go to one seat.
    fn join_all<S: HasSeat<T, E>>(self, mut seats: Vec<S>) -> T
        requires count { vec_len seats ≡ self.seats }
        requires each { All (λ seat. IsOf self (S.seat_of seat)) seats.items }
        ensures numbers { (number : ℕ) → number < self.seats → count_by (λ seat. (S.seat_of seat).number == number) seats.items ≡ 1 }
        ensures logs { All (λ seat. (S.seat_of seat).log ≡ owned_by E.owner (S.seat_of seat).number (T.entries result)) seats.items }
        ensures owned { All (λ entry. E.owner entry < self.seats) (T.entries result) }
        ensures kept { IsKeptAtHome E.owner self (map S.seat_of seats.items) (T.entries result) }
        ensures origin { T.origin result ≡ self.origin }
    {
        let Lock {
            table,
            seats: _,
            sleepers: _,
        } = self;
        let Some(last) = seats.pop() else {
            unreachable!()
        };
        let mut all = last.into_lock_seat().into_seat();
        while let Some(before) = seats.pop() {
            table
                .shared
                .join_seat::<TakeIn>(&mut all, before.into_lock_seat().into_seat());
        }
        let mut closed = table.close_with(all);
        let value = closed.take(0);
        closed.free();
        value
    }
}
