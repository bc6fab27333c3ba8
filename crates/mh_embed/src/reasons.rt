//! Why a line is no event, as `metroheap live` says it: the text of a reason that is true of the line.
ghost use Rattle.std.specs.{Prelude.{◌≡◌, IfOk}, String.string_bytes};
ghost use Rattle.mh_embed.specs.Endings.{ReasonEnds};
ghost use Rattle.mh_reasons.specs.Texts.{line_reason_text};

use crate::replied::give;
use crate::status::Status;
use mh_model::memory::NoMemory;
use mh_reasons::line::line_reason;
use mh_reasons::reason::LineReason;
use mh_text::line::{Line, line_of};
use std::alloc::Global;
use std::fmt::Write;

fn text_of(alloc: Global, reason: &LineReason) -> Result<String, NoMemory>
    ensures { IfOk result (λ text. string_bytes text ≡ line_reason_text reason.now) }
{
    let mut text = String::new(alloc);
    write!(text, "{reason}")?;
    Ok(text)
}

/// Copies why a line is no event to the start of the buffer, if it fits.
pub fn reason(alloc: Global, line: &[u8], out: &mut [u8], written: &mut usize) -> Status
    ensures { ReasonEnds line.now out.old out.new written.new result }
{
    *written = 0;
    match line_of(line) {
        Line::Blank => Status::Blank,
        Line::Asks(_) | Line::Calls(_, _) => Status::NoItem,
        Line::Wrong => {
            let reason = line_reason(true, line);
            let Ok(text) = text_of(alloc, &reason) else {
                return Status::NoText;
            };
            give(text.as_bytes(), out, written)
        }
    }
}
