//! Whether two replies are equal. They are found equal exactly when they are. It is a function of its own, since
//! `Reply` has no `==`.
ghost use Rattle.std.specs.Prelude.{◌≡◌, ◌↔◌, IsTrue};

use mh_model::dump::Dump;
use mh_model::reply::Reply;

/// Whether two dumps have the same items.
fn is_same_dump(left: &Dump, right: &Dump) -> bool
    ensures { IsTrue result ↔ (left.now ≡ right.now) }
{
    left.items() == right.items()
}

/// Whether two replies are the same reply.
pub fn is_same(left: &Reply, right: &Reply) -> bool
    ensures { IsTrue result ↔ (left.now ≡ right.now) }
{
    match left {
        Reply::Done => matches!(right, Reply::Done),
        Reply::Number(number) => matches!(right, Reply::Number(other) if number == other),
        Reply::Yes => matches!(right, Reply::Yes),
        Reply::No => matches!(right, Reply::No),
        Reply::Shape(shape) => matches!(right, Reply::Shape(other) if shape == other),
        Reply::Refused(refusal) => matches!(right, Reply::Refused(other) if refusal == other),
        Reply::Spent { units, phase } => {
            matches!(right, Reply::Spent { units: spent, phase: after } if units == spent && phase == after)
        }
        Reply::Stat(stat) => matches!(right, Reply::Stat(other) if stat == other),
        Reply::Dump(dump) => matches!(right, Reply::Dump(other) if is_same_dump(dump, other)),
        Reply::Report(report) => matches!(right, Reply::Report(other) if report == other),
        Reply::Left(quanta) => matches!(right, Reply::Left(other) if quanta == other),
    }
}
