//! Why a history of either version is refused at its first bad line. The reason is true of that line; one
//! that is about bytes is the first in a fixed order.
ghost use Rattle.std.specs.Prelude.{◌≡◌};
ghost use Rattle.mh_reasons.specs.HistoryReasons.{IsHistoryReason, IsRefusedAt, most_bytes};

use crate::entry::entry_line_reason;
use crate::header::first_line_reason;
use crate::history_reason::HistoryReason;
use mh_history::history::HISTORY_BYTES;
use mh_history::record::RECORD_BYTES;
use mh_model::history::Version;
use mh_text::pieces::Lines;

/// Why a history of this version is refused with this line, its first bad one. It takes no memory.
pub fn history_reason(version: Version, text: &[u8], line: u64) -> HistoryReason
    requires { IsRefusedAt version text.now line }
    ensures { IsHistoryReason version text.now line result }
{
    if text.len() > most_bytes(version) {
        return HistoryReason::TooLong(version);
    }
    if text.is_empty() {
        return HistoryReason::Empty;
    }
    let mut lines = Lines::new(text);
    let Some((_, first)) = lines.next_line() else {
        return HistoryReason::NoNewline;
    };
    if line == 1 {
        return HistoryReason::Line(first_line_reason(version, first));
    }
    while let Some((number, bytes)) = lines.next_line() {
        if number == line {
            return HistoryReason::Line(entry_line_reason(version, bytes));
        }
    }
    HistoryReason::NoNewline
}

/// The most bytes that a history of this version has.
fn most_bytes(version: Version) -> usize
    ensures { result ≡ most_bytes version }
{
    match version {
        Version::One => HISTORY_BYTES,
        Version::Two => RECORD_BYTES,
    }
}
