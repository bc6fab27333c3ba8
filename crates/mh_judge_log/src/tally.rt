//! What was looked through of the order of a log: how many entries, and how many of them are full. A log whose entries are
//! all full says little of a collector.
ghost use Rattle.std.specs.Prelude.{◌≡◌};
ghost use Rattle.mh_judge_log.specs.{Orders.entries_of, Tallies.counts_of};
ghost use Rattle.mh_judge_sessions.specs.Full.{looked_through};

use crate::timed::Timed;
use mh_judge_sessions::tally::is_full;
use mh_model::history::Verdict;

/// What was looked through of an order, up to its first bad entry, and with it.
#[derive(Clone, Copy, Debug, PartialEq, Eq)]
pub struct OrderCounts {
    /// All entries.
    pub entries: u64,
    /// Those in which a session was answered `heap full`.
    pub full: u64,
}

/// The commands that a verdict needs: up to the first bad one, or all.
fn looked_through(verdict: Verdict, order: &[Timed]) -> &[Timed]
    ensures { entries_of result.now ≡ looked_through verdict (entries_of order.now) }
{
    match verdict {
        Verdict::FirstBad(number) if number < order.len() as u64 => &order[..number as usize],
        _ => order,
    }
}

/// What was looked through of an order for a verdict.
pub(crate) fn counts_beside(verdict: Verdict, order: &[Timed]) -> OrderCounts
    ensures { result ≡ counts_of (looked_through verdict (entries_of order.now)) }
{
    let seen = looked_through(verdict, order);
    OrderCounts {
        entries: seen.len() as u64,
        full: seen.iter().filter(|timed| is_full(&timed.entry)).count() as u64,
    }
}
