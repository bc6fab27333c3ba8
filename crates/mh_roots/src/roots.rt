//! The 144 root slots: read, written, a session's emptied, and all of them led straight to where they led.
//! `clear_session` is for who uses the crate by itself, since `end` has a barrier at each slot.
ghost use Rattle.std.specs.Prelude.{◌≡◌, ◌<◌, ◌++◌, None, length, get_or, set, replicate, take, drop};
ghost use Rattle.mh_model.specs.{Collector.forwarded_slots, World.own_slot, Limits.root_slots};
ghost use Rattle.mh_roots.specs.Roots.{SlotsLead, without_session};

use mh_blocks::blocks::Blocks;
use mh_model::limits::{ROOT_SLOTS, SESSION_SLOTS};
use mh_model::place::Place;
use std::marker::Model;
/// The root slots, each empty or with the place of an object.
#[derive(Debug, Drop)]
pub struct Roots {
    slots: [Option<Place>; ROOT_SLOTS],
}

impl Model for Roots {
    ghost use Rattle.std.specs.Prelude.{List, Option, ℕ};

    ghost Value = { List (Option ℕ) };

    ghost view = { λ roots. roots.slots };
}

/// Lets each of these slots lead straight to where it led.
fn forward_slots(slots: &mut [Option<Place>], blocks: &Blocks)
    requires { SlotsLead blocks.now slots.old }
    ensures { slots.new ≡ forwarded_slots blocks.now slots.old }
{
    for slot in slots.iter_mut() {
        if let Some(place) = *slot {
            *slot = Some(blocks.resolve(place));
        }
    }
}

impl Roots {
    /// All slots empty.
    pub fn new() -> Roots
        ensures { result ≡ replicate root_slots None }
    {
        Roots {
            slots: [None; ROOT_SLOTS],
        }
    }

    /// What a slot holds.
    pub fn get(&self, slot: usize) -> Option<Place>
        requires { slot < root_slots }
        ensures value { result ≡ get_or self.now slot None }
        ensures count { length self.now ≡ root_slots }
    {
        self.slots[slot]
    }

    /// What all slots hold, in order.
    pub fn slots(&self) -> &[Option<Place>; ROOT_SLOTS]
        ensures { result.now ≡ self.now }
    {
        &self.slots
    }

    /// Lets a slot hold a reference.
    pub fn set(&mut self, slot: usize, reference: Option<Place>)
        requires { slot < root_slots }
        ensures { self.new ≡ set self.old slot reference }
    {
        self.slots[slot] = reference;
    }

    /// Empties the slots of a session.
    pub fn clear_session(&mut self, who: usize)
        requires { who < 8 }
        ensures { self.new ≡ without_session self.old who }
    {
        let slots = &mut self.slots[..];
        slots[SESSION_SLOTS * who..SESSION_SLOTS * who + SESSION_SLOTS].fill(None);
    }

    /// Lets each slot lead straight to where it led.
    pub fn forward_all(&mut self, blocks: &Blocks)
        requires { SlotsLead blocks.now self.old }
        ensures { self.new ≡ forwarded_slots blocks.now self.old }
    {
        forward_slots(&mut self.slots[..], blocks);
    }
}
