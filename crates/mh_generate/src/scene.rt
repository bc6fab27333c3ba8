//! Which acts the sessions of a script do, and in which order they come, where a heap runs along. No theorem rests on
//! what is chosen here.
ghost use Rattle.std.specs.Prelude.{◌<◌};

use crate::act::Field::Null;
use crate::act::Step::{Begin, End, Make, Post, Store, Touch};
use crate::act::Touch::{MarkFirst, MarkLast};
use crate::act::{Act, KEPT, Stage, Step};
use crate::mix::SPEAKERS;
use crate::random::{Random, SLOTS};
use crate::say::same;
use crate::sight::Sight;
use crate::{barriers, comb, cycles, fans, race};
use mh_model::command::Command;
use mh_orders::generate_options::Options;
use mh_orders::profile::Profile;

/// The profile of barriers reads what is reached in the last of so many parts of a script.
const WALK_PARTS: u32 = 8;

/// Sessions end in the last of so many parts.
const PARTS: u32 = 16;

/// How many commands a session has in turn as a rule.
const TURN: u32 = 8;

/// How many acts are tried for the next command.
const TRIES: u32 = 16;

/// A session ends, and what it kept is left on the board alone.
const LEAVE: &[Step] = &[
    Make(0),
    Touch(0, MarkFirst),
    Touch(0, MarkLast),
    Begin(1),
    Store(0, Null, 1),
    Post(0),
    Begin(1),
    Post(1),
    End,
];

/// The same where the board has what all sessions work on.
const LEAVE_ALONE: &[Step] = &[End];

/// The acts of all sessions, as far as they have come.
#[derive(Clone, Copy)]
pub(crate) struct Scene {
    acts: [Act; SPEAKERS],
    has_left: [bool; SPEAKERS],
    /// The session that had the last command.
    speaker: u8,
}

impl Scene {
    pub(crate) fn new() -> Scene {
        Scene {
            acts: [Act::of(&[], 0); SPEAKERS],
            has_left: [false; SPEAKERS],
            speaker: 0,
        }
    }

    /// The session that is to have the next command. It goes on for a while, but in a race.
    pub(crate) fn speaker(&mut self, options: &Options, random: &mut Random) -> u8 {
        let turn = if options.profile == Profile::Race {
            1
        } else {
            TURN
        };
        if random.chance(1, turn) {
            self.speaker = random.below(u32::from(options.sessions)) as u8;
        }
        if self.has_left[usize::from(self.speaker) % SPEAKERS] {
            self.speaker = 0;
        }
        self.speaker
    }

    /// The command of a session that the event with this number is.
    pub(crate) fn command(
        &mut self,
        sight: Sight<'_>,
        options: &Options,
        number: u32,
        random: &mut Random,
    ) -> Command
        requires { sight.who < SPEAKERS }
    {
        let who = usize::from(sight.who);
        let stage = stage(sight, options);
        if who > 0 && is_ending(options, number, random) {
            self.acts[who] = Act::of(leave(options), KEPT);
        }
        for _ in 0..TRIES {
            if let Some(command) = self.acts[who].next(&stage, random) {
                self.has_left[who] = matches!(command, Command::End);
                return command;
            }
            self.acts[who] = act(&stage.sight, options, number, random);
        }
        same(0, 0)
    }
}

/// Whether a session is to end.
fn is_ending(options: &Options, number: u32, random: &mut Random) -> bool {
    let rest = options.events.saturating_sub(number);
    let sessions = u32::from(options.sessions);
    rest < options.events / PARTS && random.chance(sessions * PARTS, options.events.max(1))
}

fn leave(options: &Options) -> &'static [Step] {
    if options.profile == Profile::Fans {
        LEAVE_ALONE
    } else {
        LEAVE
    }
}

fn stage<'a>(sight: Sight<'a>, options: &Options) -> Stage<'a> {
    let (sizes, wide, boards): (&'static [(u32, u32)], (u32, u32), u32) = match options.profile {
        Profile::Comb => (&comb::SIZES, comb::wide(options), SLOTS),
        Profile::Fans => (&comb::SIZES, fans::SIZE, fans::BOARDS),
        Profile::Race => (&race::SIZES, (1, 1), race::BOARDS),
        Profile::Cycles => (&cycles::SIZES, cycles::LITTER_SIZE, SLOTS),
        _ => (&barriers::SIZES, (1, 1), SLOTS),
    };
    Stage {
        sight,
        sizes,
        wide,
        boards,
    }
}

/// The next act of a session, from the event with this number on.
fn act(sight: &Sight<'_>, options: &Options, number: u32, random: &mut Random) -> Act {
    let rest = options.events.saturating_sub(number);
    match options.profile {
        Profile::Comb => comb::act(sight, options, number, random),
        Profile::Fans => fans::act(sight, options, number, random),
        Profile::Race => race::act(random),
        Profile::Cycles => cycles::act(random),
        _ if rest < options.events / WALK_PARTS => barriers::walk(sight, random),
        _ => barriers::act(random),
    }
}
