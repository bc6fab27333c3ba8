//! The service: how it is opened, called and closed.
//!
//! A call that takes the lock finds the replay of a legal history, in which the seat owns exactly its log, and leaves
//! one (`served`). If it is answered, its event is done in the state that it found, with the reply that was given. The
//! event is entered there and in the seat's log. If it is refused, state and log stay. Once it has the lock, a call
//! answers that the history is full exactly when it found 1,000,000 entries. It answers out of memory only if
//! `State::apply` may.
//!
//! A call is promised in some state, and its contract can name no more: others step meanwhile, and the kit shows a seat
//! the state at its own step alone. `close` has all seats in hand, and shows that they found the states of one history.
//! A body with a state for each seat could meet `call`, but then `close` would have no proof.
//!
//! A service is closed exactly when all nine seats are handed in, and otherwise it comes back with them. What it leaves
//! is a legal history under its configuration. Heap, free pages and trace are the machine's to that history, which
//! keeps the promise of `mh_promise`. Each seat's log is what the seat owns of the history, in order, so that the
//! history is a merge of the nine logs.
//!
//! The service borrows the hook, so whoever holds a session or a worker can look at the hook afterwards.
ghost use Rattle.std.specs.Prelude.{◌≡◌, ◌≢◌, ◌<◌, ◌≤◌, ◌==◌, ◌⊎◌, [], ◌∷◌, ◌++◌, ℕ, All, IfOk, OnOk, IfErr, OnErr, IsErrOf, count_by, slice_index_or, vec_len};
ghost use Rattle.mh_lock.specs.Seats.{LockSeatView};
ghost use Rattle.mh_model.specs.{History.{IsLegal, owner_of, owned_by, events_of}, declared.history.Entry.Entry};
ghost use Rattle.mh_promise.specs.{Runs.IsTheMachines, Promise.IsPromised};
ghost use Rattle.mh_service.specs.Services.{IsOfService, first_seat, Owns, IsServed, AreMerged, shown_left};

use crate::job::{Job, Shared};
use crate::seat::{DESK, Seat};
use mh_lock::lock::Lock;
use mh_lock::seat::LockSeat;
use mh_model::command::Event;
use mh_model::config::Config;
use mh_model::history::Entry;
use mh_model::memory::NoMemory;
use mh_model::reply::Reply;
use mh_paged::paged::PagedHeap;
use mh_report::trace::Trace;
use mh_scan::crew_scan::{CrewGate, CrewScan};
use mh_seat_laws::lock::logs_merge_to_the_history;
use mh_state::machine::Stop;
use std::alloc::Global;
use std::marker::Model;
use std::sync::Wait;
use std::thread::Threads;

/// How many seats a service has.
pub const SEATS: u64 = DESK + 1;

/// One state under a lock, whose calls scan with as many workers at most as it was opened for.
#[derive(Drop)]
pub struct Service<'a, G> {
    alloc: Global,
    lock: Lock<Shared, Entry>,
    workers: usize,
    gate: &'a G,
}

impl<'a, G> Model for Service<'a, G> {
    ghost use Rattle.std.specs.Prelude.{◌≡◌, ◌<◌, ◌≤◌};
    ghost use Rattle.mh_service.specs.Services.{ServiceView};

    ghost Value = { ServiceView };

    ghost view = { λ service. record { table = service.lock.table; config = service.lock.origin } };

    ghost invariant = { λ service. (0 < service.workers) × (service.workers ≤ 64) × (service.lock.seats ≡ 9) };
}

/// What a service leaves: each call that was answered, in the order in which they were done, the heap, how many of its pages
/// are free, and the trace.
#[derive(Drop)]
pub struct Closed {
    pub history: Vec<Entry>,
    pub heap: PagedHeap,
    pub free: u64,
    pub trace: Trace,
}

/// A service that was not closed, and the seats that were handed in.
#[derive(Drop)]
pub struct MissingSeat<'a, G> {
    pub service: Service<'a, G>,
    pub seats: Vec<Seat>,
}

/// The seats of a lock, each before its first call, as seats of a service.
fn seats_of(alloc: Global, inner: Vec<LockSeat<Shared, Entry>>) -> Result<Vec<Seat>, NoMemory>
    requires { All (λ seat. seat.log ≡ []) inner.items }
    ensures { IfOk result (λ seats. seats.items ≡ inner.items) }
{
    let mut seats = Vec::new(alloc);
    for seat in inner {
        seats.push(Seat::new(alloc, seat))?;
    }
    Ok(seats)
}

impl<'a, G: CrewGate> Service<'a, G> {
    /// A service over the machine of a configuration, and its seats: those of the sessions 0 to 7, and the desk.
    pub fn open(
        alloc: Global,
        config: Config,
        workers: usize,
        gate: &'a G,
    ) -> Result<(Service<'a, G>, Vec<Seat>), NoMemory>
        requires { (0 < workers) × (workers ≤ 64) }
        ensures config { IfOk result (λ made. made.0.config ≡ config) }
        ensures count { IfOk result (λ made. vec_len made.1 ≡ 9) }
        ensures own { IfOk result (λ made. All (IsOfService made.0) made.1.items) }
        ensures each { IfOk result (λ made. (number : ℕ) (other : LockSeatView Entry) → number < 9 → slice_index_or made.1.items number other ≡ first_seat made.0 number) }
    {
        let shared = Shared::open(alloc, config)?;
        let (lock, inner) = Lock::open(alloc, shared, SEATS)?;
        let seats = seats_of(alloc, inner)?;
        let service = Service {
            alloc,
            lock,
            workers,
            gate,
        };
        Ok((service, seats))
    }

    /// Does an event of the seat's, alone, with the quantum that it makes due, and enters it in the seat's log. It waits
    /// while another call runs. Room in the log is made before that, and the memory for a dump before the event is done; the
    /// history, the log and the reply share a dump's items.
    pub fn call<R: Threads + Wait>(
        &self,
        rt: &R,
        seat: &mut Seat,
        event: Event,
    ) -> Result<Reply, Stop>
        requires own { IsOfService self.now seat.old }
        requires owned { Owns seat.old event }
        ensures own { IsOfService self.now seat.new × (seat.new.number ≡ seat.old.number) }

        // Where the seat's log gets no memory, the lock is not taken.
        ensures served { IsServed self.now seat.old seat.new event result ⊎ IsErrOf result Stop.NoMemory × (seat.new ≡ seat.old) }
        ensures ok { IfOk result (λ reply. seat.new.log ≡ seat.old.log ++ record { event = event; reply = reply } ∷ []) }
        ensures err { OnErr result (seat.new.log ≡ seat.old.log) }
    {
        if seat.log.reserve(1).is_err() {
            return Err(Stop::NoMemory);
        }
        let mut scanner = CrewScan::new(rt, self.alloc, self.workers, self.gate);
        let job = Job {
            event,
            scanner: &mut scanner,
        };
        let (given, reply) = self.lock.call(rt, &mut seat.seat, job)?.both();
        seat.log.push_reserved(Entry { event, reply });
        Ok(given)
    }

    /// The hook that the workers of its calls pass.
    pub fn gate(&self) -> &'a G {
        self.gate
    }

    /// Ends the service once all nine seats are handed in; if one is missing, service and seats come back. It takes no
    /// memory.
    pub fn close(self, seats: Vec<Seat>) -> Result<Closed, MissingSeat<'a, G>>
        requires { All (IsOfService self) seats.items }
        ensures count { OnOk result (vec_len seats ≡ 9) }
        ensures legal { IfOk result (λ closed. IsLegal self.entry.config closed.history.items) }
        ensures machine { IfOk result (λ closed. IsTheMachines self.entry.config (events_of closed.history.items) (shown_left closed)) }
        ensures promise { IfOk result (λ closed. IsPromised self.entry.config (events_of closed.history.items) (shown_left closed)) }
        ensures logs { IfOk result (λ closed. All (λ seat. seat.log ≡ owned_by (λ entry. owner_of entry.event) seat.number closed.history.items) seats.items) }
        ensures numbers { OnOk result ((number : ℕ) → number < 9 → count_by (λ seat. seat.number == number) seats.items ≡ 1) }
        ensures merged { IfOk result (λ closed. AreMerged seats.items closed.history.items) }
        ensures missing { IfErr result (λ back. vec_len seats ≢ 9) }
        ensures service { IfErr result (λ back. back.service ≡ self.entry) }
        ensures seats { IfErr result (λ back. back.seats ≡ seats) }
    {
        logs_merge_to_the_history();
        let Service {
            alloc,
            lock,
            workers,
            gate,
        } = self;
        match lock.close(seats) {
            Ok(shared) => {
                let state = shared.into_state();
                let free = state.machine().heap().free_pages();
                let (history, heap, trace) = state.into_parts();
                Ok(Closed {
                    history,
                    heap,
                    free,
                    trace,
                })
            }
            Err((lock, seats)) => {
                let service = Service {
                    alloc,
                    lock,
                    workers,
                    gate,
                };
                Err(MissingSeat { service, seats })
            }
        }
    }
}
