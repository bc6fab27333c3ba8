//! What rates with bursts allow, and the pages that so many intervals in a row open at them. A burst counts once for
//! all these intervals, and each of them may begin a page of each class.
ghost use Rattle.std.specs.Prelude.{◌≡◌, ◌<◌, ◌≤◌, get_or};
ghost use Rattle.mh_model.specs.Classes.{class_sizes};
ghost use Rattle.mh_size_laws.specs.Rates.{class_opens, opens_at_rate};
ghost use Rattle.mh_size_counts.specs.Rates.{allowed_by};

use mh_classes::class::{CLASSES, Class};
use mh_orders::rates::Rates;

/// How many blocks of a class are made at most in so many units of the mutator.
#[tactic(auto, unfolding(crate::specs::Rates::allowed_by))]
fn allowed_by(rates: &Rates, class: Class, units: u64) -> u64
    requires { units ≤ 1003660000000 }
    ensures value { result ≡ allowed_by rates.now class units }
    ensures few { result ≤ units }
{
    let number = class.number();
    let parts = units * u64::from(rates.parts[number]);
    let made = parts.div_ceil(u64::from(rates.units[number]));
    units.min(u64::from(rates.bursts[number]) + made)
}

/// The most pages of a class that so many intervals of so many units open in a row.
fn class_opens(rates: &Rates, units: u64, quanta: u64, class: Class) -> u64
    requires units { units ≤ 1003660 }
    requires quanta { quanta ≤ 1000000 }
    ensures value { result ≡ class_opens (allowed_by rates.now) units quanta class }
    ensures few { result ≤ 1003660000000 }
{
    let slots = class.slots() as u64;
    let alone = quanta * allowed_by(rates, class, units).div_ceil(slots);
    let begun = quanta * (slots - 1);
    let together = (allowed_by(rates, class, quanta * units) + begun) / slots;
    alone.min(together)
}

/// The class of this number.
fn class_at(number: usize) -> Class
    requires { number < 20 }
    ensures { result ≡ get_or class_sizes number 0 }
{
    Class::all()[number]
}

/// The most pages that so many intervals of so many units open in a row.
#[tactic(auto, using(crate::proofs::RateLemmas::sum_more, crate::proofs::RateLemmas::sum_all))]
pub(crate) fn opens_at_rate(rates: &Rates, units: u64, quanta: u64) -> u64
    requires units { units ≤ 1003660 }
    requires quanta { quanta ≤ 1000000 }
    ensures value { result ≡ opens_at_rate (allowed_by rates.now) units quanta }
    ensures few { result ≤ 20073200000000 }
{
    let mut opens = 0;
    for number in 0..CLASSES {
        opens += class_opens(rates, units, quanta, class_at(number));
    }
    opens
}
