//! The commands of a log that an order has still to take.
//!
//! They stay in slots in the order of the log, and a slot is empty once its command was taken. For each session there is
//! a place before which none of its commands is left. It only grows, so taking all commands goes through the log once
//! for each session.
ghost use Rattle.std.specs.Prelude.{◌≡◌, ◌≤◌, ◌<◌, ◌↔◌, ℕ, [], get_or, length, Some, None, false, true, IfSome, IfNone, IsTrue, is_some, not};
ghost use Rattle.std.specs.List.{list_all};
ghost use Rattle.mh_judge_log.specs.{Auxiliary.{has_of, left_in}, Logs.take_first};

use crate::timed::Timed;
use mh_model::limits::SESSIONS;
use std::marker::Model;

/// How many numbers sessions have: 0 to 8.
const NUMBERS: usize = SESSIONS + 1;

/// Whether a slot has a command of the session with a number.
fn has_of(slot: &Option<Timed>, who: u8) -> bool
    ensures { result ≡ has_of who slot.now }
{
    match slot {
        Some(timed) => timed.is_of(who),
        None => false,
    }
}

/// The place of the first command of a session that is left, where none of them is left before a place.
fn place_of(slots: &[Option<Timed>], who: u8, from: usize) -> usize
    requires before { (k : ℕ) → k < from → has_of who (get_or slots.now k None) ≡ false }
    ensures before { (k : ℕ) → k < result → has_of who (get_or slots.now k None) ≡ false }
    ensures found { result < length slots.now → has_of who (get_or slots.now result None) ≡ true }
{
    let mut place = from;
    while place < slots.len() && !has_of(&slots[place], who) {
        place += 1;
    }
    place
}

/// Whether each slot is empty.
fn are_empty(slots: &[Option<Timed>]) -> bool
    ensures { result ≡ list_all (λ slot. not (is_some slot)) slots.now }
{
    slots.iter().all(|slot| slot.is_none())
}

/// The commands of a log that are left.
#[derive(Drop)]
pub(crate) struct Pending {
    slots: Vec<Option<Timed>>,
    /// The place before which no command of a session is left.
    places: [usize; NUMBERS],
}

impl Model for Pending {
    ghost use Rattle.std.specs.Prelude.{◌≡◌, ◌<◌, ℕ, List, get_or, None, false};
    ghost use Rattle.mh_judge_log.specs.{Auxiliary.{has_of, left_in}, declared.timed.Timed.Timed};

    ghost Value = { List Timed };

    ghost view = { λ pending. left_in pending.slots.items };

    ghost invariant = { λ pending. (who k : ℕ) → k < get_or pending.places who 0 → has_of who (get_or pending.slots.items k None) ≡ false };
}

impl Pending {
    /// All commands of a log.
    pub fn new(slots: Vec<Option<Timed>>) -> Pending
        ensures { result ≡ left_in slots.items }
    {
        Pending {
            slots,
            places: [0; NUMBERS],
        }
    }

    /// Takes the first command of a session that is left.
    #[tactic(auto, using(crate::proofs::PendingLemmas::none_taken, crate::proofs::PendingLemmas::taken_at))]
    pub fn take_first(&mut self, who: u8) -> Option<Timed>
        requires { who ≤ 8 }
        ensures some { IfSome result (λ timed. take_first who self.old ≡ Some (record { command = timed; others = self.new })) }
        ensures none { IfNone result (take_first who self.old ≡ None) }
    {
        let session = usize::from(who);
        let place = place_of(&self.slots, who, self.places[session]);
        self.places[session] = place;
        if place < self.slots.len() {
            self.slots[place].take()
        } else {
            None
        }
    }

    /// Whether all commands were taken.
    pub fn is_empty(&self) -> bool
        ensures { IsTrue result ↔ (self.now ≡ []) }
    {
        are_empty(&self.slots)
    }
}
