//! Orders against the times of their commands.
//!
//! A command is late if it had ended before one began that comes before it. The greatest beginning so far says that at
//! once, so the whole order is gone through once.
ghost use Rattle.std.specs.Prelude.{◌<◌, ℕ, length, take, IfSome, IfNone};
ghost use Rattle.mh_judge_log.specs.Times.{IsLateAfter, KeepsTime};

use crate::timed::Timed;

/// The place of the first command that is late.
#[tactic(auto, using(crate::proofs::LateLemmas::late_after))]
pub(crate) fn first_late(order: &[Timed]) -> Option<usize>
    ensures within { IfSome result (λ place. place < length order.now) }
    ensures before { IfSome result (λ place. KeepsTime (take place order.now)) }
    ensures late { IfSome result (λ place. (earlier : ℕ) × IsLateAfter order.now earlier place) }
    ensures none { IfNone result (KeepsTime order.now) }
{
    let mut greatest = 0;
    for (place, timed) in order.iter().enumerate() {
        if timed.end < greatest {
            return Some(place);
        }
        greatest = greatest.max(timed.begin);
    }
    None
}

/// The place of the first command after which one is late.
pub(crate) fn begun_after(order: &[Timed], late: usize) -> usize
    requires { (earlier : ℕ) × IsLateAfter order.now earlier late }
    ensures { IsLateAfter order.now result late }
{
    let end = order[late].end;
    match order[..late].iter().position(|timed| timed.begin > end) {
        Some(earlier) => earlier,
        None => unreachable!(),
    }
}
