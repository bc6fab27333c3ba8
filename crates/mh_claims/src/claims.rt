//! The claim word and its seats.
//!
//! Up to 64 seats draw numbers below a bound through a shared reference. What a seat drew is listed in order, and a
//! seat that is answered with nothing has ended. Once all seats have ended, each number below the bound was drawn
//! exactly once.
//!
//! Each draw is a step of the claim word in some state of it, with what this seat drew (`rule`). In that state the
//! lists of all seats are the numbers below the word, each once. The draw gives the word and raises it by one, and the
//! lists are so after it too. A seat's contract can name no more: others step meanwhile, and a seat of the kit's table
//! is shown the state at its own step alone. That the states of all draws are those of one word is what `finish` shows,
//! which has all seats in hand. A body with a counter for each seat could meet `draw`, but then `finish` has no proof.
//!
//! The rule that the table keeps says more than the counts: only the last number of a list may be the bound or above.
//! Without that clause the law that such a table shows the model's rule has no proof, and `draw` and `finish` rest on
//! it. A `DrawSeat` is one of the seats first made. A seat of the table that stands for several, before a split or
//! after a join, keeps their lists apart.
//!
//! `draw` takes neither a handle nor an allocator, so a body of it that waits or asks for memory doesn't compile.
ghost use Rattle.std.specs.Prelude.{◌≡◌, ◌+◌, ◌^◌, ◌<◌, ◌≤◌, [], ◌∷◌, ◌++◌, ℕ, true, false, is_none, map, vec_len, All, IfOk, IfSome, MatchOption};
ghost use Rattle.mh_model.specs.History.{has_ended, times_drawn};
ghost use Rattle.mh_claims.specs.Seats.{DrawsFrom, IsBeforeItsDraws, IsDrawnByRule, seat_ended, next_of};
ghost use Rattle.mh_claims.specs.Steps.{alone, first_list, HasDrawn};

use atomic_table::{Join, Play, Seat, Split, Table, TableRule};
use mh_model::memory::NoMemory;
use std::alloc::Global;
use std::collections::LinkedList;
use std::marker::{Brand, Model, PhantomData};

/// What a seat of the table knows: the list of each seat that it stands for. No value of it is made.
type Lists = LinkedList<LinkedList<u64>>;

/// The rule of the claim word, about its bound and the number of its seats.
struct ClaimRule;

impl TableRule<(), Lists, (u64, u64)> for ClaimRule {
    ghost use Rattle.std.specs.Prelude.{replicate, []};
    ghost use Rattle.mh_seat_laws.specs.ClaimWord.{IsClaimed};

    ghost holds = { IsClaimed };

    ghost first = { λ about. replicate about.1 [] };
}

/// What claims are about, which proofs alone name: their bound and the number of their seats.
trait About {
    ghost about: { ℕ × ℕ };
}

impl About for Brand {
    ghost about = { (0, 0) };
}

struct Draw<A> {
    marker: PhantomData<A>,
}

impl<A: About> Play<(), Lists> for Draw<A> {
    ghost use Rattle.mh_claims.specs.Steps.{Draws};

    ghost then = { Draws A.about };
}

/// The first list goes to the new seat.
struct TakeFirst;

impl Split<Lists> for TakeFirst {
    ghost use Rattle.std.specs.Prelude.{take, drop};

    ghost left = { λ lists. drop 1 lists };

    ghost right = { λ lists. take 1 lists };
}

/// The lists of the seat that is taken in stand before the others.
struct TakeIn;

impl Join<Lists> for TakeIn {
    ghost use Rattle.std.specs.Prelude.{[], ◌++◌};

    ghost both = { λ lists before. before ++ lists };

    ghost spent = { [] };
}

/// A word from which seats draw the numbers from 0 on. Those below the bound are given out, each once.
#[derive(Drop)]
pub struct Claims {
    table: Table<(), Lists, (u64, u64), ClaimRule, Global>,
    bound: u64,
    seats: usize,
}

impl Model for Claims {
    ghost use Rattle.mh_claims.specs.Seats.{ClaimsView};

    ghost Value = { ClaimsView };

    ghost use Rattle.std.specs.Prelude.{◌≡◌, ◌<◌};

    ghost view = { λ claims. record { table = claims.table.shared.table_id; bound = claims.bound; seats = claims.seats } };

    ghost invariant = { λ claims. (0 < claims.seats) × (claims.table.shared.table_id.words ≡ 1) × (claims.table.shared.table_id.slots ≡ 0) × (claims.table.shared.key ≡ (claims.bound, claims.seats)) };
}

/// The right to draw from claims, and what was drawn by it. One thread at a time can use it.
#[derive(Drop)]
pub struct DrawSeat {
    seat: Seat<(), Lists>,
    bound: u64,
    ended: bool,
}

impl Model for DrawSeat {
    ghost use Rattle.mh_claims.specs.Seats.{DrawSeatView};

    ghost Value = { DrawSeatView };

    ghost use Rattle.std.specs.Prelude.{◌≡◌};
    ghost use Rattle.mh_model.specs.History.{has_ended};
    ghost use Rattle.mh_claims.specs.Steps.{alone, first_list};

    ghost view = { λ seat. record { table = seat.seat.table_id; bound = seat.bound; drawn = first_list seat.seat.me } };

    ghost invariant = { λ seat. (seat.seat.me ≡ alone (first_list seat.seat.me)) × (seat.ended ≡ has_ended seat.bound (first_list seat.seat.me)) };
}

impl DrawSeat {
    fn new(seat: Seat<(), Lists>, bound: u64) -> DrawSeat
        requires { seat.me ≡ alone [] }
        ensures { result ≡ record { table = seat.table_id; bound = bound; drawn = [] } }
    {
        DrawSeat {
            seat,
            bound,
            ended: false,
        }
    }

    fn into_seat(self) -> Seat<(), Lists>
        ensures { (result.table_id ≡ self.table) × (result.me ≡ alone self.drawn) }
    {
        let DrawSeat {
            seat,
            bound: _,
            ended: _,
        } = self;
        seat
    }

    /// Whether it was answered `None`.
    pub fn ended(&self) -> bool
        ensures { result ≡ seat_ended self.now }
    {
        self.ended
    }
}

impl Claims {
    /// Claims of the numbers below a bound, and the seats that draw them.
    pub fn new(alloc: Global, bound: u64, seats: usize) -> Result<(Claims, Vec<DrawSeat>), NoMemory>
        requires some { (0 < seats) × (seats ≤ 64) }
        requires room { bound + seats < 2 ^ 64 }
        ensures claims { IfOk result (λ made. (made.0.bound ≡ bound) × (made.0.seats ≡ seats)) }
        ensures count { IfOk result (λ made. vec_len made.1 ≡ seats) }
        ensures each { IfOk result (λ made. All (IsBeforeItsDraws made.0) made.1.items) }
    {
        let (table, mut rest) = Table::of_words(alloc, &[0], &(bound, seats as u64))?;
        let mut all = Vec::new(alloc);
        for _ in 1..seats {
            let first = table.shared.split_seat::<TakeFirst>(&mut rest);
            all.push(DrawSeat::new(first, bound))?;
        }
        all.push(DrawSeat::new(rest, bound))?;
        let claims = Claims {
            table,
            bound,
            seats,
        };
        Ok((claims, all))
    }

    // The number in the word, which becomes the last of the seat's.
    fn take_number<A: About>(&self, seat: &mut Seat<(), Lists>) -> u64
        requires about { A.about ≡ (self.now.bound, self.now.seats) }
        requires own { seat.old.table_id ≡ self.now.table }
        requires alone { seat.old.me ≡ alone (first_list seat.old.me) }
        requires going { has_ended self.now.bound (first_list seat.old.me) ≡ false }
        ensures own { seat.new.table_id ≡ seat.old.table_id }
        ensures drawn { HasDrawn (self.now.bound, self.now.seats) seat.old.me result seat.new.me }
    {
        self.table.shared.fetch_add::<Draw<A>>(seat, 0, 1)
    }

    /// The next number, if it is below the bound. A draw is one atomic step, asks for no memory and never waits.
    pub fn draw(&self, seat: &mut DrawSeat) -> Option<u64>
        requires own { DrawsFrom self.now seat.old }
        requires going { seat_ended seat.old ≡ false }
        ensures own { DrawsFrom self.now seat.new }
        ensures drawn { MatchOption result ((number : ℕ) × (self.now.bound ≤ number) × (seat.new.drawn ≡ seat.old.drawn ++ number ∷ [])) (λ number. (number < self.now.bound) × (seat.new.drawn ≡ seat.old.drawn ++ number ∷ [])) }
        ensures ended { seat_ended seat.new ≡ is_none result }
        ensures rule { IsDrawnByRule self.now.bound self.now.seats seat.old.drawn seat.new.drawn result }
        ensures rising { IfSome result (λ number. (next_of seat.old.drawn ≤ number) × (next_of seat.new.drawn ≡ number + 1)) }
    {
        let found = self.take_number::<Brand>(&mut seat.seat);
        if found < self.bound {
            return Some(found);
        }
        seat.ended = true;
        None
    }

    /// The end of the claims, once every seat has ended.
    pub fn finish(self, mut seats: Vec<DrawSeat>)
        requires count { vec_len seats ≡ self.seats }
        requires each { All (λ seat. DrawsFrom self seat × (seat_ended seat ≡ true)) seats.items }
        ensures { (number : ℕ) → number < self.bound → times_drawn number (map (λ seat. seat.drawn) seats.items) ≡ 1 }
    {
        let Claims {
            table,
            bound: _,
            seats: _,
        } = self;
        let Some(last) = seats.pop() else {
            unreachable!()
        };
        let mut all = last.into_seat();
        while let Some(before) = seats.pop() {
            table
                .shared
                .join_seat::<TakeIn>(&mut all, before.into_seat());
        }
        table.close_with(all).free();
    }
}
