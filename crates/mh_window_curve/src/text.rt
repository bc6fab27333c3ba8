//! The curves of texts that are no scripts: histories of version 2, and logs of pauses.
//!
//! The curve of a history is that of the units of its entries in order, whatever they reply, under its own configuration.
//! The curve of a log is that of its lines. Either is written exactly. A text is refused for a reason that is true of
//! its bad line. One of 2 ^ 62 units or more is refused with line 0, as one of too many bytes is: no trace is that
//! long. A failed source, and out of memory, leave nothing written. A failed sink leaves a prefix. A device failed
//! exactly when it is blamed. Memory is refused only for bytes that the source gave, or for a text that begins with an
//! entry or a line, or is a history or a log.
//!
//! Nothing is replayed: it is there for other collectors, whose quanta and phases are their own.
ghost use Rattle.std.specs.Prelude.{◌≡◌};
ghost use Rattle.mh_window_curve.specs.{Auxiliary.IsBadLine, Runs.{EndsSo, IsDrawing, IsTextOutput}};

use crate::drawing::{Drawing, drawn};
use crate::end::CurveEnd;
use crate::kind::TextKind;
use mh_history::record::RECORD_BYTES;
use mh_model::history::{Verdict, Version};
use mh_orders::curve::CurveOptions;
use mh_reasons::history::history_reason;
use mh_script::fault::ScriptFault;
use mh_script::task::{Task, done_with};
use mh_script::texts::write_verdict;
use mh_text::device::DeviceFailed;
use mh_text::sink::Sink;
use mh_text::source::Source;
use mh_text::stream::write_text;
use mh_window_pauses::reasons::pause_reason;
use std::alloc::Global;

/// How the curve of a text ends that is refused with this line.
fn refused(kind: TextKind, options: CurveOptions, text: &[u8], line: u64) -> CurveEnd
    requires { IsBadLine kind text.now line }
    ensures { EndsSo kind options.promises text.now result }
{
    match kind {
        TextKind::History => CurveEnd::HistoryRefused {
            line,
            reason: history_reason(Version::Two, text, line),
        },
        TextKind::Pauses => CurveEnd::LogRefused {
            line,
            reason: pause_reason(text, line),
        },
    }
}

/// The drawing of the curve of a text.
#[derive(Clone, Copy)]
struct Draw {
    kind: TextKind,
    options: CurveOptions,
}

impl Task for Draw {
    type Done = CurveEnd;

    ghost most = { 2147483648 };

    ghost does = { λ old text ended written new. IsTextOutput old.kind old.options text ended written };

    fn most_bytes() -> usize {
        RECORD_BYTES
    }

    fn perform<W: Sink>(
        &mut self,
        alloc: Global,
        text: &[u8],
        sink: &mut W,
    ) -> Result<CurveEnd, ScriptFault> {
        match drawn(alloc, self.kind, self.options, text)? {
            Drawing::Curve(curve, judgement) => match write_text(sink, curve.as_bytes()) {
                Ok(()) => Ok(CurveEnd::Drawn(judgement)),
                Err(DeviceFailed) => Err(ScriptFault::Write),
            },
            Drawing::Refused(line) => match write_verdict(Verdict::Refused(line), sink) {
                Ok(()) => Ok(refused(self.kind, self.options, text, line)),
                Err(DeviceFailed) => Err(ScriptFault::Write),
            },
            Drawing::TooLong => match write_verdict(Verdict::Refused(0), sink) {
                Ok(()) => Ok(CurveEnd::HistoryTooLong),
                Err(DeviceFailed) => Err(ScriptFault::Write),
            },
        }
    }
}

/// Reads a whole text, and then writes the curve of its units. Of a text that is refused it writes the one line that names
/// the first bad line, for which it takes no memory. What of these promises isn't so stands in the result.
pub fn draw_text<S: Source, W: Sink>(
    alloc: Global,
    kind: TextKind,
    options: CurveOptions,
    source: &mut S,
    sink: &mut W,
) -> Result<CurveEnd, ScriptFault>
    ensures { IsDrawing kind options (S.device source.old) (S.device source.new) (W.device sink.old) (W.device sink.new) result }
{
    done_with(alloc, &mut Draw { kind, options }, source, sink)
}
