//! The order of a log's commands. Each line names a session, whose first command that is left comes next.
ghost use Rattle.std.specs.Prelude.{◌≡◌, ◌≢◌, ◌<◌, [], length, IfOk, IfErr, IfSome, IfNone, IsErrOf};
ghost use Rattle.mh_judge_log.specs.{Auxiliary.{command_before, order_left}, Logs.taken_by};
ghost use Rattle.mh_model.specs.Script.{BadLine, Means};
ghost use Rattle.mh_text.specs.TextErrors.{Refuses};

use crate::pending::Pending;
use crate::timed::Timed;
use mh_history::event::session_of;
use mh_history::lines::RefusedLine;
use mh_text::pieces::Lines;
use mh_text::text_error::TextError;
use std::alloc::Global;

/// Takes the command that a line of an order names.
fn take_named(left: &mut Pending, line: &[u8]) -> Option<Timed>
    ensures some { IfSome result (λ timed. taken_by line.now left.old ≡ Some (record { command = timed; others = left.new })) }
    ensures none { IfNone result (taken_by line.now left.old ≡ None) }
{
    left.take_first(session_of(line)?)
}

/// Takes the command that the next line of an order names, none after the last.
#[tactic(auto, using(crate::proofs::OrderLemmas::line_takes, crate::proofs::OrderLemmas::line_bad, crate::proofs::OrderLemmas::took_some, crate::proofs::OrderLemmas::order_ended, crate::proofs::OrderLemmas::order_unended))]
fn next_command(left: &mut Pending, lines: &mut Lines<'_>) -> Result<Option<Timed>, RefusedLine>
    ensures taken { IfOk result (λ next. IfSome next (λ timed. order_left left.old lines.old ≡ command_before timed (order_left left.new lines.new))) }
    ensures some { IfOk result (λ next. IfSome next (λ timed. left.old ≢ [])) }
    ensures fewer { IfOk result (λ next. IfSome next (λ timed. length lines.new.lines < length lines.old.lines)) }
    ensures end { IfOk result (λ next. IfNone next (order_left left.old lines.old ≡ Means [])) }
    ensures line { IfErr result (λ refused. order_left left.old lines.old ≡ BadLine refused.0) }
{
    let Some((number, line)) = lines.next_line() else {
        return if lines.is_empty() && left.is_empty() {
            Ok(None)
        } else {
            Err(RefusedLine(lines.number()))
        };
    };
    match take_named(left, line) {
        Some(timed) => Ok(Some(timed)),
        None => Err(RefusedLine(number)),
    }
}

/// Reads an order of the commands that are left.
pub(crate) fn read_order(
    alloc: Global,
    mut left: Pending,
    mut lines: Lines<'_>,
) -> Result<Vec<Timed>, TextError>
    ensures order { IfOk result (λ order. order_left left lines.entry ≡ Means order.items) }
    ensures some { IfOk result (λ order. order.items ≢ [] → left ≢ []) }
    ensures line { IfErr result (Refuses (order_left left lines.entry)) }
    ensures memory { IsErrOf result TextError.NoMemory → left ≢ [] }
{
    let mut order = Vec::new(alloc);
    while let Some(timed) = next_command(&mut left, &mut lines)? {
        order.push(timed)?;
    }
    Ok(order)
}
