//! Histories of version 1. A text is one with these entries exactly when the grammar says so. Otherwise its first bad
//! line is named. Out of memory is answered only if the text begins with an entry (`memory`). `history_lines` gives the
//! lines after the first to those who keep no entry.
ghost use Rattle.std.specs.Prelude.{◌≡◌, IfOk, IfErr, IsErrOf};
ghost use Rattle.mh_model.specs.{HistoryTexts.history_reading, Script.{BadLine, Means}};
ghost use Rattle.mh_text.specs.TextErrors.{Refuses};
ghost use Rattle.mh_history.specs.Beginnings.{BeginsWithEntry, HasEntry, entries_left, line_as_entry};

use crate::lines::{RefusedLine, entries_from};
use mh_model::history::Entry;
use mh_text::pieces::Lines;
use mh_text::text_error::TextError;
use mh_text::word::is_word;
use std::alloc::Global;

/// The most bytes that a history of version 1 has.
pub const HISTORY_BYTES: usize = 1_073_741_824;

/// The lines of a history of version 1 after its first line, not read yet. It takes no memory.
#[tactic(auto, using(crate::proofs::HistoryLemmas::history_long, crate::proofs::HistoryLemmas::history_empty, crate::proofs::HistoryLemmas::history_wrong, crate::proofs::HistoryLemmas::history_first, crate::proofs::HistoryLemmas::begins_with_entry))]
pub fn history_lines(text: &[u8]) -> Result<Lines<'_>, RefusedLine>
    ensures lines { IfOk result (λ lines. history_reading text.now ≡ entries_left line_as_entry lines) }
    ensures begins { IfOk result (λ lines. HasEntry line_as_entry lines → BeginsWithEntry text.now) }
    ensures line { IfErr result (λ refused. history_reading text.now ≡ BadLine refused.0) }
{
    if text.len() > HISTORY_BYTES {
        return Err(RefusedLine(0));
    }
    let mut lines = Lines::new(text);
    let Some((_, line)) = lines.next_line() else {
        return Err(RefusedLine(1));
    };
    if !is_word(line, b"history 1") {
        return Err(RefusedLine(1));
    }
    Ok(lines)
}

/// Reads a history of version 1, up to its first bad line. It takes memory for entries alone, so a text that is refused before
/// its first entry is never answered with `NoMemory`.
pub fn parse_history(alloc: Global, text: &[u8]) -> Result<Vec<Entry>, TextError>
    ensures entries { IfOk result (λ entries. history_reading text.now ≡ Means entries.items) }
    ensures line { IfErr result (Refuses (history_reading text.now)) }
    ensures memory { IsErrOf result TextError.NoMemory → BeginsWithEntry text.now }
{
    entries_from(alloc, history_lines(text)?)
}
