//! Quanta that leave the mutator a share of each stretch of a length or longer.
//!
//! `greatest_quantum_for` has the greatest quantum whose floor is at least a share of all these windows for one EVERY,
//! and `greatest_quantum` for any. `least_every_for` has the least EVERY for a quantum. There is none exactly if no
//! configuration meets that.
//!
//! Two windows decide of all: that of the length itself, and the first from there on that ends with a whole quantum.
//! Each number is found by halving, since the floor never rises with the quantum and never falls with EVERY.
ghost use Rattle.std.specs.Prelude.{◌*◌, ◌^◌, ◌<◌, ◌≤◌, ◌↔◌, IfSome, IsTrue, MatchOption};
ghost use Rattle.mh_size_counts.specs.Choices.{HasNone, IsGreatestQuantum, IsLeastEvery};
ghost use Rattle.mh_size_counts.specs.Targets.{IsMetBy, Meets, MeetsAfter, MeetsWith};
ghost use Rattle.mh_model.specs.Limits.{least_quantum};

use mh_model::limits::{LEAST_QUANTUM, MOST_EVERY, MOST_QUANTUM};
use mh_orders::target_options::Target;
use mh_report::floor::floor;

/// So many units are a share of a window.
fn is_share(percent: u32, window: u128, units: u128) -> bool
    requires window { window < 2 ^ 65 }
    requires units { units < 2 ^ 65 }
    ensures { IsTrue result ↔ (percent * window ≤ 100 * units) }
{
    u128::from(percent) * window <= 100 * units
}

/// A quantum of at most so many units after so many of the mutator leaves it the share.
fn is_met(target: &Target, every: u32, quantum: u32) -> bool
    requires some { 1 ≤ every }
    requires every { every ≤ 1000000 }
    requires least { least_quantum ≤ quantum }
    requires most { quantum ≤ 1000000 }
    ensures { IsTrue result ↔ IsMetBy target.now every quantum }
{
    let Target { percent, window } = *target;
    let m = u64::from(every);
    let k = u64::from(quantum);
    let rounds = window.saturating_sub(k).div_ceil(m + k);
    let next = u128::from(rounds) * u128::from(m + k) + u128::from(k);
    is_share(percent, u128::from(window), u128::from(floor(m, k, window)))
        && is_share(percent, next, u128::from(rounds) * u128::from(m))
}

/// The greatest quantum that leaves the mutator the share, if one is run after each so many of its units.
pub fn greatest_quantum_for(target: &Target, every: u32) -> Option<u32>
    requires some { 1 ≤ every }
    requires few { every ≤ 1000000 }
    ensures greatest { MatchOption result (HasNone (MeetsAfter target.now every)) (IsGreatestQuantum (MeetsAfter target.now every)) }
    ensures within { IfSome result (λ quantum. (least_quantum ≤ quantum) × (quantum ≤ 1000000)) }
{
    if !is_met(target, every, LEAST_QUANTUM) {
        return None;
    }
    let mut met = LEAST_QUANTUM;
    let mut unmet = MOST_QUANTUM + 1;
    while unmet - met > 1 {
        let middle = met + (unmet - met) / 2;
        if is_met(target, every, middle) {
            met = middle;
        } else {
            unmet = middle;
        }
    }
    Some(met)
}

/// The greatest quantum that leaves the mutator the share, however rarely one is run.
#[tactic(auto, using(crate::proofs::QuantumLemmas::greatest_of_any))]
pub fn greatest_quantum(target: &Target) -> Option<u32>
    ensures greatest { MatchOption result (HasNone (Meets target.now)) (IsGreatestQuantum (Meets target.now)) }
    ensures within { IfSome result (λ quantum. (least_quantum ≤ quantum) × (quantum ≤ 1000000)) }
{
    greatest_quantum_for(target, MOST_EVERY)
}

/// The least number of units of the mutator after which a quantum may be run that leaves it the share.
pub fn least_every_for(target: &Target, quantum: u32) -> Option<u32>
    requires least { least_quantum ≤ quantum }
    requires most { quantum ≤ 1000000 }
    ensures { MatchOption result (HasNone (MeetsWith target.now quantum)) (IsLeastEvery (MeetsWith target.now quantum)) }
{
    if !is_met(target, MOST_EVERY, quantum) {
        return None;
    }
    let mut unmet = 0;
    let mut met = MOST_EVERY;
    while met - unmet > 1 {
        let middle = unmet + (met - unmet) / 2;
        if is_met(target, middle, quantum) {
            met = middle;
        } else {
            unmet = middle;
        }
    }
    Some(met)
}
