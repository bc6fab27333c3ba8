//! Replies and the items of dumps, shown as numbers. All of a reply is in its numbers but the items of a dump, which
//! are asked for one by one.
ghost use Rattle.std.specs.Prelude.{◌≡◌, ◌∷◌, []};
ghost use Rattle.mh_embed.specs.Numbers.{IsItemShownBy, IsShownBy, padded};
ghost use Rattle.mh_model.specs.declared.reply.Reply.TheVariants as reply;
ghost use Rattle.mh_embed.specs.Numbers as numbers;

use crate::numbers::{ItemNumbers, ReplyNumbers};
use mh_model::dump::DumpItem;
use mh_model::reply::{Refusal, Reply};
use mh_model::report::Report;
use mh_model::stat::Stat;

fn refusal_number(refusal: Refusal) -> u64
    ensures { result ≡ numbers.refusal_number refusal }
{
    match refusal {
        Refusal::BadSlot => 1,
        Refusal::Null => 2,
        Refusal::NoField => 3,
        Refusal::TooLarge => 4,
        Refusal::HeapFull => 5,
        Refusal::Ended => 6,
        Refusal::TooManySessions => 7,
    }
}

/// 1 and the number, or two zeros.
fn option_values(number: Option<u64>) -> (u64, u64)
    ensures { numbers.option_values number ≡ result.0 ∷ result.1 ∷ [] }
{
    match number {
        Some(number) => (1, number),
        None => (0, 0),
    }
}

fn with_two(kind: u32, first: u64, second: u64) -> ReplyNumbers
    ensures kind { result.kind ≡ kind }
    ensures numbers { result.numbers ≡ padded (first ∷ second ∷ []) }
{
    ReplyNumbers {
        kind,
        numbers: [first, second, 0, 0, 0, 0, 0, 0, 0],
    }
}

fn with_one(kind: u32, first: u64) -> ReplyNumbers
    ensures kind { result.kind ≡ kind }
    ensures numbers { result.numbers ≡ padded (first ∷ []) }
{
    with_two(kind, first, 0)
}

fn with_none(kind: u32) -> ReplyNumbers
    ensures kind { result.kind ≡ kind }
    ensures numbers { result.numbers ≡ padded [] }
{
    with_one(kind, 0)
}

fn stat_numbers(stat: Stat) -> ReplyNumbers
    ensures { IsShownBy (reply.Stat stat) result }
{
    let phase = stat.phase.number();
    ReplyNumbers {
        kind: 8,
        numbers: [
            stat.free, stat.live, stat.old, phase, stat.cycle, 0, 0, 0, 0,
        ],
    }
}

fn report_numbers(report: Report) -> ReplyNumbers
    ensures { IsShownBy (reply.Report report) result }
{
    let Report {
        mutator,
        collector,
        quanta,
        greatest,
        window,
        least,
        floor,
    } = report;
    let (has_least, least) = option_values(least);
    let (has_floor, floor) = option_values(floor);
    ReplyNumbers {
        kind: 10,
        numbers: [
            mutator, collector, quanta, greatest, window, has_least, least, has_floor, floor,
        ],
    }
}

/// The numbers of a reply, in the order of its text. Of a dump it is how many items it has.
pub fn reply_numbers(reply: &Reply) -> ReplyNumbers
    ensures { IsShownBy reply.now result }
{
    match reply {
        Reply::Done => with_none(1),
        Reply::Number(number) => with_one(2, *number),
        Reply::Yes => with_none(3),
        Reply::No => with_none(4),
        Reply::Shape(shape) => with_two(5, u64::from(shape.references), u64::from(shape.numbers)),
        Reply::Refused(refusal) => with_one(6, refusal_number(*refusal)),
        Reply::Spent { units, phase } => with_two(7, units.0, phase.number()),
        Reply::Stat(stat) => stat_numbers(*stat),
        Reply::Dump(dump) => with_one(9, dump.items().len() as u64),
        Reply::Report(report) => report_numbers(*report),
        Reply::Left(quanta) => with_one(11, *quanta),
    }
}

/// The numbers of an item, in the order of its text; a page's flag is 1 or 0.
pub fn item_numbers(item: DumpItem) -> ItemNumbers
    ensures { IsItemShownBy item result }
{
    match item {
        DumpItem::Page {
            page,
            class_size,
            is_flagged,
        } => ItemNumbers {
            kind: 1,
            numbers: [page, class_size, u64::from(is_flagged)],
        },
        DumpItem::Block { slot, birth, part } => ItemNumbers {
            kind: 2,
            numbers: [slot, birth, part],
        },
        DumpItem::Forwarder {
            slot,
            to_page,
            to_slot,
        } => ItemNumbers {
            kind: 3,
            numbers: [slot, to_page, to_slot],
        },
    }
}
