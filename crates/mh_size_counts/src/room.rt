//! The heap with the fewest pages that has room for all programs of which some counts are known, written exactly.
//!
//! Its pages are those that cycles leave in use and those that as many intervals in a row open as a cycle has quanta.
//! By the bound of any cycle more pages are more quanta, so each number of pages is tried from 1 on.
ghost use Rattle.std.specs.{Prelude.{◌≡◌, ◌≤◌, IfOk, IfSome, IsTrue, MatchOption}, String.string_bytes};
ghost use Rattle.mh_model.specs.declared.config.Config.{Config};
ghost use Rattle.mh_orders.specs.Given.{is_length_within};
ghost use Rattle.mh_size_counts.specs.Choices.{HasNone};
ghost use Rattle.mh_size_counts.specs.Room.{HasQuantum, HasRoom, IsRoomForAll, IsRoomHeap, cycle_quanta, opens_in};
ghost use Rattle.mh_size_counts.specs.Texts.{IsRoomText};

use crate::rates::opens_at_rate;
use crate::text::{SizeText, push_optional};
use mh_model::config::{Config, Rules};
use mh_model::limits::MOST_PAGES;
use mh_model::memory::NoMemory;
use mh_orders::room_options::{CycleLength, RoomOptions};
use mh_size_laws::room::each_run_has_its_room;
use std::alloc::Global;

/// A heap that has room.
#[derive(Clone, Copy, Debug, PartialEq, Eq)]
pub struct RoomHeap {
    /// The most pages that as many intervals in a row open as a cycle has quanta.
    pub opens: u32,
    pub trigger: u32,
    pub pages: u32,
}

/// How many quanta a cycle takes at most in so many pages.
fn cycle_quanta(length: CycleLength, pages: u32) -> u64
    requires length { IsTrue (is_length_within length) }
    requires pages { (1 ≤ pages) × (pages ≤ 4096) }
    ensures value { (config : Config) → config.pages ≡ pages → HasQuantum length config → result ≡ cycle_quanta length config }
    ensures few { result ≤ 1000000 }
{
    match length {
        CycleLength::Quanta(quanta) => u64::from(quanta),
        CycleLength::Quantum(quantum) => {
            let config = Config {
                pages,
                quantum,
                trigger: 0,
                every: 0,
                rules: Rules::Second,
            };
            config.most_quanta()
        }
    }
}

/// The most pages that as many intervals in a row open as a cycle has quanta in so many pages.
#[tactic(auto, unfolding(crate::specs::Room::opens_in))]
fn opens_in(options: &RoomOptions, pages: u32) -> u64
    requires { (1 ≤ pages) × (pages ≤ 4096) }
    ensures value { (config : Config) → config.pages ≡ pages → HasQuantum options.now.length config → result ≡ opens_in options.now (cycle_quanta options.now.length config) }
    ensures few { result ≤ 20073200000000 }
{
    let units = u64::from(options.every) - 1 + u64::from(options.most_parts.max(1));
    opens_at_rate(&options.rates, units, cycle_quanta(options.length, pages))
}

/// The heap with the fewest pages that has room.
pub fn room_for(options: &RoomOptions) -> Option<RoomHeap>
    ensures heap { MatchOption result (HasNone (HasRoom options.now)) (IsRoomHeap options.now) }
    ensures room { IfSome result (IsRoomForAll options.now) }
{
    each_run_has_its_room();
    for pages in 1..=MOST_PAGES {
        let opens = opens_in(options, pages);
        if u64::from(options.used) + opens <= u64::from(pages) {
            let opens = opens as u32;
            return Some(RoomHeap {
                opens,
                trigger: opens.saturating_sub(1),
                pages,
            });
        }
    }
    None
}

/// What is written of that heap: a line each for its numbers, or that there is none.
pub fn room_text(alloc: Global, options: &RoomOptions) -> Result<SizeText, NoMemory>
    ensures { IfOk result (λ written. IsRoomText options.now (string_bytes written.text) written.is_found) }
{
    let mut text = String::new(alloc);
    let heap = room_for(options);
    match heap {
        Some(heap) => {
            push_optional(&mut text, "opens", Some(heap.opens))?;
            push_optional(&mut text, "trigger", Some(heap.trigger))?;
            push_optional(&mut text, "pages", Some(heap.pages))?;
        }
        None => push_optional(&mut text, "pages", None)?,
    }
    Ok(SizeText {
        text,
        is_found: heap.is_some(),
    })
}
