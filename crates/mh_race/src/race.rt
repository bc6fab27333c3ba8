//! Races over the events of a script.
//!
//! Whatever order the threads take, a race leaves a legal history. In it each seat has the calls that it has among the
//! events, in their order and no others. If one of its calls was refused, it has those before it.
//!
//! The calls of each seat alone say what a race leaves, so nothing is said of the order between seats. For each seat by
//! itself a refusal is reported exactly if not all of its calls are in the history (`each`). The call that comes next was
//! then refused, for the reason that is reported (`reasons`): a full history only if that call found 1,000,000 entries.
//! Memory may be refused to any call, so no contract says when a seat is refused for want of it.
//!
//! `Raced::stop` reports the gravest refusal. That is refused memory, with 1,000,000 entries only if some seat was
//! refused it. A full history is reported only with as many. A race that met one, and was never refused memory, looks
//! whether its history is full: a call's contract says only that the history which it found was. No contract says that
//! the one left at the end is no shorter. If it were shorter, which no run shows, the race would report `NoMemory`.
ghost use Rattle.std.specs.Prelude.{◌≡◌, ◌≢◌, ◌<◌, ◌≤◌, ◌+◌, ◌++◌, ℕ, All, IfOk, None, Some, get_or, map, vec_len};
ghost use Rattle.std.specs.Vec.{vec_capacity};
ghost use Rattle.mh_model.specs.{History.{IsLegal, events_of}, Limits.most_entries};
ghost use Rattle.mh_race.specs.Auxiliary.{IsNewSeat, IsFresh, HasRunIn, AreNoted, AreRun};
ghost use Rattle.mh_race.specs.Racing.{AreStopped, BeginsItsCalls, HaveReasons, SomeSeatStopped, NoneStopped};
ghost use Rattle.mh_service.specs.Services.{ServiceView, IsOfService};
ghost use Rattle.mh_machine.specs.declared.machine.Stop.{Stop};

use crate::racer::{Called, Racer};
use mh_model::command::Event;
use mh_model::config::Config;
use mh_model::history::Entry;
use mh_model::limits::MOST_ENTRIES;
use mh_model::memory::NoMemory;
use mh_scan::crew_scan::CrewGate;
use mh_seat_laws::lock::events_have_one_owner;
use mh_service::seat::{DESK, Seat};
use mh_service::service::{SEATS, Service};
use mh_state::machine::Stop;
use std::alloc::Global;
use std::sync::Wait;
use std::thread;
use std::thread::Threads;

/// Why each seat, by its number, made no more calls, if calls of its own were left out.
pub type Stops = [Option<Stop>; SEATS as usize];

/// What a race leaves: the calls that were answered, in the order in which they were done, and the seats whose calls were
/// refused.
#[derive(Drop)]
pub struct Raced {
    pub history: Vec<Entry>,
    pub stops: Stops,
}

/// The seats of a race: those that get a thread of their own, and the others, which have no calls to make.
#[derive(Drop)]
struct Racers {
    busy: Vec<Racer>,
    idle: Vec<Racer>,
}

/// How many sessions below 8 have events, which are numbered from 0.
fn sessions(events: &[Event]) -> u64 {
    let mut count = 0;
    for event in events {
        if let Event::Session(who, _) = event {
            let who = u64::from(*who);
            if who < DESK && who >= count {
                count = who + 1;
            }
        }
    }
    count
}

/// The sessions that have events and the desk get a thread each.
fn racers_of(alloc: Global, seats: Vec<Seat>, events: &[Event]) -> Result<Racers, NoMemory>
    ensures fresh { IfOk result (λ racers. (service : ServiceView) → All (IsNewSeat service) seats.items → All (IsFresh service) racers.busy.items × All (IsFresh service) racers.idle.items) }
    ensures count { IfOk result (λ racers. vec_len racers.busy + vec_len racers.idle ≡ vec_len seats) }
{
    let sessions = sessions(events);
    let mut busy = Vec::new(alloc);
    let mut idle = Vec::new(alloc);
    for seat in seats {
        let number = seat.number();
        let racer = Racer::new(seat);
        if number < sessions || number == DESK {
            busy.push(racer)?;
        } else {
            idle.push(racer)?;
        }
    }
    Ok(Racers { busy, idle })
}

/// Each racer in a thread of its own, or all on the calling thread, if there is one thread. The calls of a racer whose
/// thread can't be started are made on another.
fn run_all<R: Threads + Wait + Sync, C: Called + Sync>(
    rt: &R,
    service: &C,
    racers: &mut Vec<Racer>,
    events: &[Event],
    threads: usize,
)
    requires threads { 0 < threads }
    requires fresh { All (IsFresh (C.service service.now)) racers.old.items }
    ensures run { All (HasRunIn (C.service service.now) (C.refuses service.now) events.now) racers.new.items }
    ensures count { vec_len racers.new ≡ vec_len racers.old }
{
    let one = |_index: usize, racer: &mut Racer|
        requires { IsFresh (C.service service.now) racer.now }
        ensures { HasRunIn (C.service service.entry.now) (C.refuses service.entry.now) events.entry.now racer.exit.now }
    { racer.run(rt, service, events) };
    thread::for_each_mut(rt, racers.as_mut_slice(), threads, &one);
}

/// Notes at the number of a seat why it was refused a call, if it was.
fn note(stops: &mut Stops, number: u64, stop: Option<Stop>)
    ensures none { stop ≡ None → stops.new ≡ stops.old }
    ensures past { 8 < number → stops.new ≡ stops.old }
    ensures noted { (reason : Stop) → number < 9 → stop ≡ Some reason → get_or stops.new number None ≡ stop }
    ensures others { (other : ℕ) → other ≢ number → get_or stops.new other None ≡ get_or stops.old other None }
{
    let index = number as usize;
    if stop.is_some() && index < stops.len() {
        stops[index] = stop;
    }
}

/// Moves the seats of racers behind those that are there, for which there is room, and notes which were refused a call.
fn take_seats(racers: Vec<Racer>, seats: &mut Vec<Seat>, stops: &mut Stops)
    requires room { vec_len seats.old + vec_len racers ≤ vec_capacity seats.old }
    ensures seats { seats.new.items ≡ seats.old.items ++ map (λ racer. racer.seat) racers.items }
    ensures room { vec_capacity seats.new ≡ vec_capacity seats.old }
    ensures noted { AreNoted racers.items stops.old stops.new }
{
    for Racer { seat, stop } in racers {
        note(stops, seat.number(), stop);
        seats.push_reserved(seat);
    }
}

/// Makes the calls of all seats, and gives them back, with which of them were refused a call.
fn run_seats<R: Threads + Wait + Sync, C: Called + Sync>(
    rt: &R,
    alloc: Global,
    service: &C,
    seats: Vec<Seat>,
    events: &[Event],
) -> Result<(Vec<Seat>, Stops), NoMemory>
    requires { All (IsNewSeat (C.service service.now)) seats.items }
    ensures own { IfOk result (λ run. All (IsOfService (C.service service.now)) run.0.items) }
    ensures run { IfOk result (λ run. AreRun (C.refuses service.now) events.now run.1 run.0.items) }
    ensures count { IfOk result (λ run. vec_len run.0 ≡ vec_len seats) }
{
    let mut back = Vec::with_capacity(alloc, seats.len())?;
    let mut stops: Stops = [None; SEATS as usize];
    let Racers { mut busy, mut idle } = racers_of(alloc, seats, events)?;
    run_all(rt, service, &mut busy, events, 9);
    run_all(rt, service, &mut idle, events, 1);
    take_seats(busy, &mut back, &mut stops);
    take_seats(idle, &mut back, &mut stops);
    Ok((back, stops))
}

/// The gravest of some refusals: refused memory before a full history.
fn gravest(stops: &[Option<Stop>]) -> Option<Stop>
    ensures none { result ≡ None → NoneStopped stops.now }
    ensures one { (stop : Stop) → result ≡ Some stop → SomeSeatStopped stops.now stop }
    ensures starved { SomeSeatStopped stops.now Stop.NoMemory → result ≡ Some Stop.NoMemory }
{
    let mut most = None;
    for stop in stops {
        if most != Some(Stop::NoMemory) && stop.is_some() {
            most = *stop;
        }
    }
    most
}

impl Raced {
    /// Why calls were left out, if some were: refused memory before a full history. A call that is refused for a full
    /// history has found it full. No contract says that the history left at the end is no shorter, so that is looked at
    /// here.
    #[tactic(auto, unfolding(mh_model::specs::Limits::most_entries))]
    pub fn stop(&self) -> Option<Stop>
        ensures none { result ≡ None → NoneStopped self.now.stops }
        ensures some { (stop : Stop) → result ≡ Some stop → (reason : Stop) × SomeSeatStopped self.now.stops reason }
        ensures starved { SomeSeatStopped self.now.stops Stop.NoMemory → result ≡ Some Stop.NoMemory }
        ensures full { result ≡ Some Stop.HistoryFull → vec_len self.now.history ≡ most_entries }
        ensures memory { result ≡ Some Stop.NoMemory → vec_len self.now.history ≡ most_entries → SomeSeatStopped self.now.stops Stop.NoMemory }
    {
        match gravest(&self.stops) {
            Some(Stop::HistoryFull) if self.history.len() as u64 == MOST_ENTRIES => {
                Some(Stop::HistoryFull)
            }
            Some(_) => Some(Stop::NoMemory),
            None => None,
        }
    }
}

/// Lets the sessions of a script race: each session below 8 with events, and the desk, makes its own calls in a thread of
/// its own, in the order of the script, up to the first that is refused. The others go on then. No order is given between
/// them. Each passes the hook before its first call.
pub fn race<R: Threads + Wait + Sync, G: CrewGate + Sync>(
    rt: &R,
    alloc: Global,
    config: Config,
    events: &[Event],
    workers: usize,
    gate: &G,
) -> Result<Raced, NoMemory>
    requires { (0 < workers) × (workers ≤ 64) }
    ensures legal { IfOk result (λ raced. IsLegal config raced.history.items) }
    ensures begun { IfOk result (λ raced. BeginsItsCalls events.now (events_of raced.history.items)) }
    ensures each { IfOk result (λ raced. AreStopped events.now (events_of raced.history.items) raced.stops) }
    ensures reasons { IfOk result (λ raced. HaveReasons config events.now raced.history.items raced.stops) }
{
    events_have_one_owner();
    let (service, seats) = Service::open(alloc, config, workers, gate)?;
    let (seats, stops) = run_seats(rt, alloc, &service, seats, events)?;
    match service.close(seats) {
        Ok(closed) => Ok(Raced {
            history: closed.history,
            stops,
        }),
        Err(_) => unreachable!(),
    }
}
