//! The nine seats of a service, each in a thread of its own.
ghost use Rattle.std.specs.Prelude.{All};
ghost use Rattle.mh_service.specs.Services.{IsOfService};

use crate::callers::{logs_of, owner_of};
use mh_model::command::Event;
use mh_model::config::Config;
use mh_model::history::Entry;
use mh_service::seat::Seat;
use mh_service::service::Service;
use mh_text::script::{Script, parse};
use std::alloc::{AllocError, Global};
use std::fmt::Write;
use std::sync::Wait;
use std::sync::atomic::AtomicU64;
use std::sync::atomic::Ordering::SeqCst;
use std::test::Fail;
use std::thread;
use std::thread::Threads;
use test_support::gates::{Tally, Watch, wait_for};

const ROUNDS: u64 = 48;

/// An event of each of the nine seats for four rounds, which come again and again: the sessions make objects that lead to one
/// which another session posted.
const FOUR_ROUNDS: &[u8] =
    b"config 16 300 0 0\na new 0 1 1\nb new 0 1 1\nc new 0 1 1\nd new 0 1 1\ne new 0 1 1\nf new 0 1 1\ng new 0 1 1\nh new 0 1 1\n* start\na post 0 0\nb post 1 0\nc post 2 0\nd post 3 0\ne post 4 0\nf post 5 0\ng post 6 0\nh post 7 0\n* quantum\na take 1 1\nb take 1 2\nc take 1 3\nd take 1 4\ne take 1 5\nf take 1 6\ng take 1 7\nh take 1 0\n* stat\na put 0 0 1\nb put 0 0 1\nc put 0 0 1\nd put 0 0 1\ne put 0 0 1\nf put 0 0 1\ng put 0 0 1\nh put 0 0 1\n* dump\n";

/// Where nine threads wait for one another before each round, for ever if there are fewer, and how many calls were
/// answered.
#[derive(Drop)]
struct Rounds<'a> {
    events: &'a [Event],
    arrived: AtomicU64,
    answered: AtomicU64,
}

impl Rounds<'_> {
    /// The event of a seat in a round, once all nine have come to it.
    fn event(&self, round: u64, seat: u64) -> Option<Event> {
        self.arrived.fetch_add(1, SeqCst);
        wait_for(&self.arrived, round.saturating_add(1).saturating_mul(9));
        let index = (round % 4 * 9).saturating_add(seat.min(8)) as usize;
        self.events.get(index).copied()
    }
}

/// Makes a call if the event is one of the seat's.
fn call<R: Threads + Wait>(
    rt: &R,
    service: &Service<'_, Watch>,
    seat: &mut Seat,
    event: Event,
) -> bool
    requires { IsOfService service.now seat.old }
    ensures { IsOfService service.now seat.new }
{
    seat.owns(&event) && service.call(rt, seat, event).is_ok()
}

/// Makes a call in each round.
fn call_each_round<R: Threads + Wait>(
    rt: &R,
    service: &Service<'_, Watch>,
    seat: &mut Seat,
    rounds: &Rounds<'_>,
)
    requires { IsOfService service.now seat.old }
    ensures { IsOfService service.now seat.new }
{
    for round in 0..ROUNDS {
        if let Some(event) = rounds.event(round, seat.number()) {
            if call(rt, service, seat, event) {
                rounds.answered.fetch_add(1, SeqCst);
            }
        }
    }
}

/// Each seat in a thread of its own.
fn call_by_threads<R: Threads + Wait + Sync>(
    rt: &R,
    service: &Service<'_, Watch>,
    seats: &mut Vec<Seat>,
    rounds: &Rounds<'_>,
)
    requires { All (IsOfService service.now) seats.old.items }
    ensures { All (IsOfService service.now) seats.new.items }
{
    let one = |_index: usize, seat: &mut Seat|
        requires { IsOfService service.now seat.now }
    { call_each_round(rt, service, seat, rounds) };
    thread::for_each_mut(rt, seats.as_mut_slice(), 9, &one);
}

/// A seat's own entries of a history.
fn share_of(alloc: Global, history: &[Entry], number: usize) -> Result<Vec<&Entry>, AllocError> {
    let mut share = Vec::new(alloc);
    for entry in history {
        if owner_of(&entry.event) == number {
            share.push(entry)?;
        }
    }
    Ok(share)
}

/// The text of what the logs of all seats have to be.
fn shares_of(alloc: Global, history: &[Entry]) -> Result<String, AllocError> {
    let mut shares = String::new(alloc);
    for number in 0..9 {
        writeln!(shares, "{:?}", share_of(alloc, history, number)?)?;
    }
    Ok(shares)
}

/// Whether each seat has one entry of a round.
fn is_round(round: &[Entry]) -> bool {
    let owners = Tally::new();
    for entry in round {
        owners.add(owner_of(&entry.event) as u64);
    }
    owners.is_each_once(9)
}

/// Whether a history has an entry of each seat for each round, and the logs are these.
fn is_shared(alloc: Global, history: &[Entry], logs: &str) -> Result<bool, AllocError> {
    let is_whole = history.len() as u64 == 9 * ROUNDS && history.chunks(9).all(is_round);
    Ok(is_whole && shares_of(alloc, history)?.as_str() == logs)
}

/// The history that a service leaves, which is empty if it doesn't close.
fn history_left(alloc: Global, service: Service<'_, Watch>, seats: Vec<Seat>) -> Vec<Entry>
    requires { All (IsOfService service) seats.items }
{
    match service.close(seats) {
        Ok(closed) => closed.history,
        Err(_) => Vec::new(alloc),
    }
}

/// Whether nine seats that call at once leave a history that is shared so.
fn is_left_by_threads<R: Threads + Wait + Sync>(
    rt: &R,
    alloc: Global,
    config: Config,
    rounds: &Rounds<'_>,
) -> Result<bool, Fail> {
    let gate = Watch::new(0);
    let (service, mut seats) = Service::open(alloc, config, 2, &gate)?;
    call_by_threads(rt, &service, &mut seats, rounds);
    let logs = logs_of(alloc, &seats);
    let history = history_left(alloc, service, seats);
    Ok(is_shared(alloc, &history, &logs?)?)
}

/// The same with the events of a script, and how many calls were answered.
fn run_rounds<R: Threads + Wait + Sync>(
    rt: &R,
    alloc: Global,
    script: &Script,
) -> Result<(bool, u64), Fail> {
    let rounds = Rounds {
        events: script.events(),
        arrived: AtomicU64::new(0),
        answered: AtomicU64::new(0),
    };
    let is_left = is_left_by_threads(rt, alloc, script.config(), &rounds)?;
    Ok((is_left, rounds.answered.load(SeqCst)))
}

#[test]
fn nine_seats_call_at_once(rt: HostRuntime) -> Result<(), Fail> {
    let found = {
        let script = parse(rt.alloc(), FOUR_ROUNDS)?;
        run_rounds(&rt, rt.alloc(), &script)
    };
    assert_eq!(rt; found?, (true, 9 * ROUNDS));
    Ok(())
}
