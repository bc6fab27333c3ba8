//! Words of lines.
ghost use Rattle.std.specs.Prelude.{◌≡◌, Some};
ghost use Rattle.mh_report.specs.Windows.{percent_text};
ghost use Rattle.mh_size_text.specs.Texts.{answer_word, cycles_part, ratio_of, room_part, room_word, share_word, shares_part};

use mh_model::report::Report;
use mh_report::windows::{PercentText, share};
use mh_size_runs::seen::{HasRoom, Seen};
use mh_text::reply_text::OptionalText;
use std::fmt;

/// Units of a window in per cent of it, or `none`.
#[derive(Clone, Copy)]
struct ShareText {
    units: Option<u64>,
    window: u64,
}

impl fmt::Display for ShareText {
    ghost output = { λ text. Some (share_word text.units text.window) };

    fn fmt<W: fmt::Write>(&self, f: &mut fmt::Formatter<W>) -> fmt::Result {
        match self.units {
            None => write!(f, "none"),
            Some(units) => {
                let share = PercentText(share(units, self.window));
                write!(f, "{share}")
            }
        }
    }
}

/// `yes`, `no` or `none`.
#[derive(Clone, Copy)]
pub(crate) struct AnswerText(pub(crate) Option<bool>);

impl fmt::Display for AnswerText {
    ghost output = { λ text. Some (answer_word text.0) };

    fn fmt<W: fmt::Write>(&self, f: &mut fmt::Formatter<W>) -> fmt::Result {
        match self.0 {
            None => write!(f, "none"),
            Some(true) => write!(f, "yes"),
            Some(false) => write!(f, "no"),
        }
    }
}

fn room_word(room: HasRoom) -> &'static str
    ensures { result.now ≡ room_word room }
{
    match room {
        HasRoom::Yes => "yes",
        HasRoom::No => "no",
        HasRoom::NoCycle => "none",
    }
}

/// The cycles of a run with a trigger.
#[derive(Clone, Copy)]
pub(crate) struct CyclesText {
    pub(crate) trigger: u32,
    pub(crate) seen: Seen,
}

impl fmt::Display for CyclesText {
    ghost output = { λ text. Some (cycles_part text.trigger text.seen) };

    #[tactic(auto, unfolding(crate::specs::Texts::cycles_part))]
    fn fmt<W: fmt::Write>(&self, f: &mut fmt::Formatter<W>) -> fmt::Result {
        let trigger = self.trigger;
        let cycles = self.seen.cycles;
        let quanta = self.seen.quanta;
        write!(f, "trigger {trigger} cycles {cycles} quanta {quanta}")
    }
}

/// What the intervals of a run open and its cycles leave, and whether that is room.
#[derive(Clone, Copy)]
pub(crate) struct RoomText(pub(crate) Seen);

impl fmt::Display for RoomText {
    ghost output = { λ text. Some (room_part text.0) };

    #[tactic(auto, unfolding(crate::specs::Texts::room_part))]
    fn fmt<W: fmt::Write>(&self, f: &mut fmt::Formatter<W>) -> fmt::Result {
        let opens = self.0.opens;
        let left = OptionalText(self.0.left);
        let room = room_word(self.0.room);
        write!(f, "opens {opens} left {left} room {room}")
    }
}

/// The shares of the mutator and the collector in a run.
#[derive(Clone, Copy)]
pub(crate) struct SharesText(pub(crate) Report);

impl fmt::Display for SharesText {
    ghost output = { λ text. Some (shares_part text.0) };

    #[tactic(auto, unfolding(crate::specs::Texts::shares_part))]
    fn fmt<W: fmt::Write>(&self, f: &mut fmt::Formatter<W>) -> fmt::Result {
        let Report {
            mutator,
            collector,
            window,
            ..
        } = self.0;
        let ratio = RatioText { collector, mutator };
        let least = ShareText {
            units: self.0.least,
            window,
        };
        let floor = ShareText {
            units: self.0.floor,
            window,
        };
        write!(
            f,
            "collector {ratio} window {window} least {least} floor {floor}"
        )
    }
}

/// The collector's units for each of the mutator, with two decimals.
#[derive(Clone, Copy)]
struct RatioText {
    collector: u64,
    mutator: u64,
}

impl fmt::Display for RatioText {
    ghost output = { λ text. Some (percent_text (ratio_of text.collector text.mutator)) };

    fn fmt<W: fmt::Write>(&self, f: &mut fmt::Formatter<W>) -> fmt::Result {
        let hundredths = u128::from(self.collector) * 100 / u128::from(self.mutator.max(1));
        let ratio = PercentText(hundredths);
        write!(f, "{ratio}")
    }
}
