//! The judging of another collector, entry by entry: its reply to an event beside the right one, by their numbers.
ghost use Rattle.std.specs.Prelude.{◌≡◌, ◌↔◌, IsTrue};
ghost use Rattle.mh_embed.specs.Endings.{JudgeEnds, PassesOver};

use crate::driver::Driver;
use crate::embedded::Embedded;
use crate::events::event_of;
use crate::numbers::{EventNumbers, ReplyNumbers};
use crate::shown::reply_numbers;
use crate::status::Status;
use mh_model::command::Event;
use mh_model::reply::{Refusal, Reply};

fn are_same(left: &ReplyNumbers, right: &ReplyNumbers) -> bool
    ensures { IsTrue result ↔ (left.now ≡ right.now) }
{
    left.kind == right.kind && left.numbers == right.numbers
}

/// Whether a world passes over a reply, and its event with it.
fn passes_over(driver: &Driver, event: &Event, given: &ReplyNumbers) -> bool
    ensures { IsTrue result ↔ PassesOver driver.now event.now given.now }
{
    let Driver::Grows(world) = driver else {
        return false;
    };
    match event {
        Event::Control(_) => true,
        Event::Session(who, command) => {
            let full = reply_numbers(&Reply::Refused(Refusal::HeapFull));
            are_same(given, &full) && world.makes(*who, command)
        }
    }
}

impl Embedded {
    /// Does the event that numbers are, and reports whether what another collector answered is right, or shows what is.
    pub fn judge(
        &mut self,
        asked: EventNumbers,
        given: &ReplyNumbers,
        right: &mut ReplyNumbers,
    ) -> Status
        ensures { JudgeEnds self.old asked given.now self.new right.old right.new result }
    {
        let Some(event) = event_of(asked) else {
            return Status::Wrong;
        };
        if passes_over(&self.driver, &event, given) {
            *right = *given;
            return Status::Done;
        }
        match self.event(event) {
            Status::Done => {
                let _shown = self.reply(right);
                if are_same(given, right) {
                    Status::Done
                } else {
                    Status::Differs
                }
            }
            undone => undone,
        }
    }
}
