//! What is asked of the collector and its reports. If quanta run on request alone, most controls ask for one.

use crate::random::Random;
use mh_model::command::Control;
use mh_model::config::Config;
use mh_orders::generate_options::Options;
use mh_orders::profile::Profile;

/// How many periods of a unit of mutator and a quantum a window has.
const PERIODS: [u32; 6] = [1, 2, 3, 10, 100, 1_000];

/// A window of a report. There are few different ones, so that reports go on where those before ended.
fn window(random: &mut Random, config: Config) -> u64 {
    let period = u64::from(config.every).saturating_add(u64::from(config.quantum));
    match random.below(16) {
        0 => 0,
        1 => 1,
        2 => u64::from(config.quantum),
        3 => u64::MAX,
        4 if random.chance(1, 20) => random.wide(),
        5..=10 => period.saturating_mul(u64::from(random.one_of(&PERIODS))),
        _ => period,
    }
}

/// A dump, of a large heap more rarely.
fn dump(random: &mut Random, config: Config) -> Control {
    if random.chance(64, config.pages.max(1)) {
        Control::Dump
    } else {
        Control::Stat
    }
}

/// A control, if the scheduler runs the quanta.
fn scheduled(random: &mut Random, config: Config) -> Control {
    match random.below(20) {
        0..=5 => Control::Start,
        6..=10 => Control::Stat,
        11..=14 => Control::Left,
        15..=16 => Control::Quantum,
        17..=18 => {
            let window = window(random, config);
            Control::Report { window }
        }
        _ => dump(random, config),
    }
}

/// A control, if quanta are run on request.
fn requested(random: &mut Random, config: Config) -> Control {
    if random.chance(3, 4) {
        Control::Quantum
    } else {
        scheduled(random, config)
    }
}

/// The control that an event is, if it is one. In the profile of cycles many are, so that cycles start soon.
pub(crate) fn control(random: &mut Random, options: &Options) -> Option<Control> {
    let config = options.config;
    let each = match (config.every, options.profile) {
        (_, Profile::Cycles) => 4,
        (0, _) => 8,
        _ => 24,
    };
    if !random.chance(1, each) {
        return None;
    }
    if config.every == 0 {
        Some(requested(random, config))
    } else {
        Some(scheduled(random, config))
    }
}
