//! Which random script is asked for. Its limits are part of the type, so `generate` asks for no more of them. Its text
//! is always read under the second rules.
ghost use Rattle.std.specs.Prelude.{◌≡◌, ◌<◌, ◌≤◌, IsTrue};
ghost use Rattle.mh_model.specs.declared.config.Rules.TheVariants.{Second};
ghost use Rattle.mh_orders.specs.Given.{is_controls_within};

use crate::profile::Profile;
use mh_model::config::{Config, Rules};

/// Which controls a script has.
#[derive(Clone, Copy, Debug, PartialEq, Eq)]
pub enum Controls {
    /// The controls of its mix, by chance.
    ByChance,
    /// A quantum as each event whose number so many divides, and no other control.
    Each(u32),
    /// None.
    Never,
}

/// What script is asked for.
#[derive(Clone, Copy, Debug, PartialEq, Eq)]
pub struct Options {
    pub config: Config,
    /// The rules under which it is to run. Under the first ones no control asks how many quanta are left.
    pub rules: Rules,
    pub seed: u64,
    pub events: u32,
    /// How many sessions do the work. Some profiles name more, whose commands are refused as a rule.
    pub sessions: u8,
    pub profile: Profile,
    pub controls: Controls,
    pub ghost second: { config.rules ≡ Second },
    pub ghost few_events: { events ≤ 1000000 },
    pub ghost some_sessions: { 0 < sessions },
    pub ghost few_sessions: { sessions ≤ 8 },
    pub ghost controls_within: { IsTrue (is_controls_within controls) },
}
