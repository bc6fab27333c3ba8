//! The bounds of any cycle of a configuration, whatever blocks its heap holds.
//!
//! They are apart from `Config`, since their definitions speak of it.
ghost use Rattle.std.specs.Prelude.{◌≡◌};
ghost use Rattle.mh_model.specs.Bound.{most_quanta, most_units};

use crate::config::Config;
use crate::limits::{PAGE_STEPS, PAGE_UNITS, QUANTUM_OVERHEAD, ROOT_SLOTS};

impl Config {
    /// The most units that a cycle spends, whatever blocks the heap holds, without the charge for the root slots.
    pub fn most_units(&self) -> u64
        ensures { result ≡ most_units self.now }
    {
        2 * ROOT_SLOTS as u64 + PAGE_UNITS * u64::from(self.pages)
    }

    /// The most quanta that a cycle takes, whatever blocks the heap holds.
    pub fn most_quanta(&self) -> u64
        ensures { result ≡ most_quanta self.now }
    {
        let most_steps = ROOT_SLOTS as u64 + PAGE_STEPS * u64::from(self.pages);
        if self.quantum <= QUANTUM_OVERHEAD {
            return most_steps;
        }
        let spent = u64::from(self.quantum - QUANTUM_OVERHEAD);
        most_steps.min(self.most_units() / spent + 1)
    }
}
