//! Logs with an order, read up to their first bad line.
//!
//! A text is one with these commands in this order exactly when the definition says so. Otherwise its first bad line is
//! named. Memory is refused only for a text that begins with a command.
ghost use Rattle.std.specs.Prelude.{◌≡◌, ◌≢◌, ◌<◌, List, [], ◌∷◌, ◌++◌, length, IfOk, IfErr, IfSome, IfNone, IsErrOf};
ghost use Rattle.mh_judge_log.specs.{declared.timed.Timed.Timed, Beginnings.BeginsWithCommand};
ghost use Rattle.mh_judge_log.specs.{Auxiliary.{HasCommand, left_in, log_left, order_left}, Logs.ordered_reading};
ghost use Rattle.mh_model.specs.Script.{BadLine, Means};
ghost use Rattle.mh_text.specs.TextErrors.{Refuses};

use crate::order::read_order;
use crate::pending::Pending;
use crate::timed::{Timed, timed_in};
use mh_history::lines::RefusedLine;
use mh_history::record::RECORD_BYTES;
use mh_text::pieces::Lines;
use mh_text::text_error::TextError;
use mh_text::word::is_word;
use std::alloc::Global;

/// The lines of a log after its first line, not read yet.
#[tactic(auto, using(crate::proofs::LogLemmas::log_long, crate::proofs::LogLemmas::log_empty, crate::proofs::LogLemmas::log_wrong, crate::proofs::LogLemmas::log_first, crate::proofs::LogLemmas::begins_with_command))]
fn log_lines(text: &[u8]) -> Result<Lines<'_>, RefusedLine>
    ensures lines { IfOk result (λ lines. ordered_reading text.now ≡ log_left [] lines) }
    ensures begins { IfOk result (λ lines. HasCommand lines → BeginsWithCommand text.now) }
    ensures line { IfErr result (λ refused. ordered_reading text.now ≡ BadLine refused.0) }
{
    if text.len() > RECORD_BYTES {
        return Err(RefusedLine(0));
    }
    let mut lines = Lines::new(text);
    let Some((_, line)) = lines.next_line() else {
        return Err(RefusedLine(1));
    };
    if !is_word(line, b"log 1") {
        return Err(RefusedLine(1));
    }
    Ok(lines)
}

/// Reads the next line of a log as a command, none at the line `order 1`.
#[tactic(auto, using(crate::proofs::LogLemmas::command_taken, crate::proofs::LogLemmas::command_bad, crate::proofs::LogLemmas::order_begun, crate::proofs::LogLemmas::log_ended, crate::proofs::LogLemmas::line_command))]
fn next_timed(alloc: Global, lines: &mut Lines<'_>) -> Result<Option<Timed>, TextError>
    ensures taken { IfOk result (λ next. IfSome next (λ timed.
        (log : List Timed) → log_left log lines.old ≡ log_left (log ++ timed ∷ []) lines.new)) }
    ensures command { IfOk result (λ next. IfSome next (λ timed. HasCommand lines.old)) }
    ensures fewer { IfOk result (λ next. IfSome next (λ timed. length lines.new.lines < length lines.old.lines)) }
    ensures end { IfOk result (λ next. IfNone next ((log : List Timed) → log_left log lines.old ≡ order_left log lines.new)) }
    ensures line { IfErr result (λ error. (log : List Timed) → Refuses (log_left log lines.old) error) }
    ensures memory { IsErrOf result TextError.NoMemory → HasCommand lines.old }
{
    let Some((number, line)) = lines.next_line() else {
        return Err(TextError::Line(lines.number()));
    };
    if is_word(line, b"order 1") {
        return Ok(None);
    }
    match timed_in(alloc, line)? {
        Some(timed) => Ok(Some(timed)),
        None => Err(TextError::Line(number)),
    }
}

/// Reads the commands of a log, and the line `order 1` after them. Each has a slot.
fn read_log(alloc: Global, lines: &mut Lines<'_>) -> Result<Vec<Option<Timed>>, TextError>
    ensures log { IfOk result (λ slots. log_left [] lines.old ≡ order_left (left_in slots.items) lines.new) }
    ensures command { IfOk result (λ slots. left_in slots.items ≢ [] → HasCommand lines.old) }
    ensures line { IfErr result (Refuses (log_left [] lines.old)) }
    ensures memory { IsErrOf result TextError.NoMemory → HasCommand lines.old }
{
    let mut slots = Vec::new(alloc);
    while let Some(timed) = next_timed(alloc, lines)? {
        slots.push(Some(timed))?;
    }
    Ok(slots)
}

/// Reads the commands of a log, in the order that follows it.
pub fn parse_ordered(alloc: Global, text: &[u8]) -> Result<Vec<Timed>, TextError>
    ensures order { IfOk result (λ order. ordered_reading text.now ≡ Means order.items) }
    ensures some { IfOk result (λ order. order.items ≢ [] → BeginsWithCommand text.now) }
    ensures line { IfErr result (Refuses (ordered_reading text.now)) }
    ensures memory { IsErrOf result TextError.NoMemory → BeginsWithCommand text.now }
{
    let mut lines = log_lines(text)?;
    let slots = read_log(alloc, &mut lines)?;
    read_order(alloc, Pending::new(slots), lines)
}
