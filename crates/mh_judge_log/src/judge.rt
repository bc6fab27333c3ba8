//! Orders of a log that are judged: against the times, and by what their sessions see.
//!
//! Only the commands before the first late one are shown to the judge of sessions. So the first bad entry is the first
//! of them that its session may not see, and else the late one.
ghost use Rattle.std.specs.Prelude.{◌≢◌, ◌≤◌, [], Bool, length, take, IfOk, IfSome, IfNone, OnErr};
ghost use Rattle.mh_judge.specs.Following.{IsBadEntry};
ghost use Rattle.mh_judge_sessions.specs.Full.{lawful_by, wrong_by};
ghost use Rattle.mh_judge_log.specs.{Auxiliary.IsOrderExplained, Judgements.verdict_of};
ghost use Rattle.mh_judge_log.specs.{Orders.{IsLegalOrder, entries_of}, Times.KeepsTime};
ghost use Rattle.mh_model.specs.{declared.config.Rules.Rules, HistoryTexts.IsJudged};

use crate::fault::OrderFault;
use crate::judgement::LogJudgement;
use crate::late::{begun_after, first_late};
use crate::timed::Timed;
use mh_judge::bad_entry::BadEntry;
use mh_judge::following::Follower;
use mh_judge::judgement::Judgement;
use mh_judge_sessions::watch::Watch;
use mh_model::config::Rules;
use mh_model::history::{Entry, Version};
use mh_model::memory::NoMemory;
use std::alloc::Global;

/// How many commands come before the first late one, and the judgement if sessions may see these.
fn judge_times(order: &[Timed]) -> (usize, LogJudgement)
    ensures within { result.0 ≤ length order.now }
    ensures keeps { KeepsTime (take result.0 order.now) }
    ensures judged { (may_be_full : Bool) (rules : Rules) → lawful_by may_be_full rules (entries_of (take result.0 order.now))
        → IsJudged (IsLegalOrder may_be_full rules) order.now (verdict_of result.1) × IsOrderExplained may_be_full rules order.now result.1 }
{
    match first_late(order) {
        Some(place) => {
            let before = begun_after(order, place);
            let judgement = Judgement::FirstBad {
                number: place as u64 + 1,
                fault: OrderFault::Late(before as u64 + 1),
            };
            (place, judgement)
        }
        None => {
            let count = order.len();
            (count, Judgement::Legal(count as u64))
        }
    }
}

/// Follows the commands of an order, up to the first that its session may not see.
fn follow_order(
    alloc: Global,
    may_be_full: bool,
    rules: Rules,
    order: &[Timed],
) -> Result<Option<BadEntry>, NoMemory>
    ensures right { IfOk result (λ found. IfNone found (lawful_by may_be_full rules (entries_of order.now))) }
    ensures wrong { IfOk result (λ found. IfSome found (IsBadEntry (lawful_by may_be_full rules) (wrong_by may_be_full rules) (entries_of order.now))) }
    ensures memory { OnErr result (order.now ≢ []) }
{
    let mut watch = Watch::open(alloc, Version::One, may_be_full, rules);
    for timed in order {
        let reply = timed.entry.reply.copy()?;
        let entry = Entry {
            event: timed.entry.event,
            reply,
        };
        if let Some(bad) = watch.follow(entry)? {
            return Ok(Some(bad));
        }
    }
    Ok(None)
}

/// The judgement on an order, of which each command is followed once.
#[tactic(auto, using(crate::proofs::JudgedLemmas::some_order))]
pub(crate) fn judge_order(
    alloc: Global,
    may_be_full: bool,
    rules: Rules,
    order: &[Timed],
) -> Result<LogJudgement, NoMemory>
    ensures verdict { IfOk result (λ judgement. IsJudged (IsLegalOrder may_be_full rules) order.now (verdict_of judgement)) }
    ensures explained { IfOk result (IsOrderExplained may_be_full rules order.now) }
    ensures memory { OnErr result (order.now ≢ []) }
{
    let (kept, judgement) = judge_times(order);
    match follow_order(alloc, may_be_full, rules, &order[..kept])? {
        Some(BadEntry { number, fault }) => Ok(Judgement::FirstBad {
            number,
            fault: OrderFault::Unseen(fault),
        }),
        None => Ok(judgement),
    }
}
