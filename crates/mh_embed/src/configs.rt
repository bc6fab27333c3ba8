//! The configuration that numbers are, with the number of its rules, if they are within the limits.
ghost use Rattle.std.specs.Prelude.{◌≡◌};
ghost use Rattle.mh_model.specs.HistoryTexts.{rules_of};
ghost use Rattle.mh_embed.specs.Configs as numbers;

use mh_model::config::{Config, Rules};
use mh_model::limits::LEAST_QUANTUM;

/// The rules with this number.
fn rules_of(number: u32) -> Option<Rules>
    ensures { result ≡ rules_of number }
{
    match number {
        1 => Some(Rules::First),
        2 => Some(Rules::Second),
        _ => None,
    }
}

/// The configuration with these numbers, under the rules with this number. None outside the limits.
pub fn config_of(pages: u32, quantum: u32, trigger: u32, every: u32, rules: u32) -> Option<Config>
    ensures { result ≡ numbers.numbered_config pages quantum trigger every rules }
{
    Config::under(rules_of(rules)?, pages, quantum, trigger, every)
}

/// A configuration under the rules with this number, for a world, which asks for nothing else of it.
pub fn world_config_of(rules: u32) -> Option<Config>
    ensures { result ≡ numbers.world_config rules }
{
    config_of(1, LEAST_QUANTUM, 0, 0, rules)
}
