//! Which commands and controls come, by the profile. No theorem rests on what is chosen here.
ghost use Rattle.std.specs.Prelude.{◌<◌};

use crate::plan::Plan;
use crate::random::Random;
use crate::session::Session;
use crate::{churn, controls, fragments, large, lists, refusals, trees, wide};
use mh_model::command::{Command, Control};
use mh_model::limits::{RUN, SESSIONS, SPINE_FIELDS};
use mh_orders::generate_options::Options;
use mh_orders::profile::Profile;

/// The most sessions that are named: one more than there are.
pub(crate) const SPEAKERS: usize = SESSIONS + 1;

/// Sessions end in the last of so many parts of a script.
const PARTS: u32 = 16;

/// The profiles that are mixed, in turn.
const MIXED: [Profile; 7] = [
    Profile::Churn,
    Profile::Fragments,
    Profile::Lists,
    Profile::Wide,
    Profile::Trees,
    Profile::Large,
    Profile::Refusals,
];

/// The most events of a turn.
const TURN: u32 = 400;

/// For how many events the profile of fragments makes objects of one size as a rule, and that of large objects lets one
/// session have those with a full spine.
const ROUND: u32 = 250;

/// How many sizes objects of one block have: 0 to 60 fields.
const SIZES: u32 = RUN + 1;

/// How much larger the next size is. It has no factor in common with their number, so that all come in turn.
const SIZE_STEP: u32 = 17;

/// The mix of a script, which knows what was said so far.
#[derive(Drop)]
pub(crate) struct Mix {
    options: Options,
    random: Random,
    sessions: [Session; SPEAKERS],
    /// How many events there are so far.
    done: u32,
}

impl Mix {
    pub(crate) fn new(options: Options) -> Mix {
        Mix {
            options,
            random: Random::new(options.seed),
            sessions: [Session::new(); SPEAKERS],
            done: 0,
        }
    }

    /// Begins the next event, and gives the control that it is by chance, if it is one.
    pub(crate) fn begin_event(&mut self) -> Option<Control> {
        self.done = self.done.saturating_add(1);
        controls::control(&mut self.random, &self.options)
    }

    /// The profile whose turn it is.
    fn profile(&self) -> Profile {
        if self.options.profile != Profile::Mixed {
            return self.options.profile;
        }
        let turn = (self.options.events / MIXED.len() as u32).clamp(1, TURN);
        let turns = self.done / turn;
        MIXED[turns as usize % MIXED.len()]
    }

    /// The session that is to have the next command.
    pub(crate) fn speaker(&mut self) -> u8 {
        let sessions = u32::from(self.options.sessions);
        if self.profile() == Profile::Refusals && self.random.chance(1, 24) {
            return (sessions + self.random.below(SPEAKERS as u32 - sessions)) as u8;
        }
        self.random.below(sessions) as u8
    }

    /// Whether a session is to end.
    fn is_ending(&mut self) -> bool {
        let events = self.options.events;
        let sessions = u32::from(self.options.sessions);
        let rest = events.saturating_sub(self.done);
        rest < events / PARTS && self.random.chance(sessions * PARTS, events.max(1))
    }

    /// What a session does next that has nothing more to do.
    fn plan(&mut self, who: usize) -> Plan
        requires { who < SPEAKERS }
    {
        let profile = self.profile();
        let round = self.done / ROUND;
        let Options {
            config,
            rules,
            sessions,
            ..
        } = self.options;
        let session = self.sessions[who];
        let session = &session;
        let random = &mut self.random;
        if who >= usize::from(sessions) {
            return refusals::strange(session, random);
        }
        match profile {
            Profile::Churn
            | Profile::Barriers
            | Profile::Comb
            | Profile::Fans
            | Profile::Race
            | Profile::Cycles
            | Profile::Mixed => churn::plan(session, random),
            Profile::Lists => lists::plan(random),
            Profile::Trees => trees::plan(session, random),
            Profile::Wide => wide::plan(session, random),
            Profile::Large => {
                let is_turn = round % u32::from(sessions) == who as u32;
                large::plan(session, rules, is_turn, random)
            }
            Profile::Fragments => {
                let entries = (config.pages / u32::from(sessions)).clamp(4, SPINE_FIELDS);
                let fields = round % SIZES * SIZE_STEP % SIZES;
                fragments::plan(session, entries, fields, random)
            }
            Profile::Refusals => refusals::plan(session, random),
        }
    }

    /// The first command of a session's next plan.
    fn begin_plan(&mut self, who: usize) -> Command
        requires { who < SPEAKERS }
    {
        let mut plan = self.plan(who);
        let command = plan.take().unwrap_or(Command::Clear { slot: 0 });
        self.sessions[who].plan = plan;
        command
    }

    /// The next command of a session.
    pub(crate) fn command(&mut self, who: u8) -> Command
        requires { who < SPEAKERS }
    {
        let who = usize::from(who);
        if self.is_ending() {
            return Command::End;
        }
        let mut command = match self.sessions[who].plan.take() {
            Some(command) => command,
            None => self.begin_plan(who),
        };
        if self.profile() != Profile::Refusals {
            command = self.sessions[who].mended(command);
        }
        self.sessions[who].note(command);
        command
    }
}
