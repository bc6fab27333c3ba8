//! Why a script is refused at its first bad line. The reason is true of that line; one that is about bytes is the first
//! in a fixed order.
ghost use Rattle.std.specs.Prelude.{◌≡◌};
ghost use Rattle.mh_model.specs.Script.{BadLine, reading};
ghost use Rattle.mh_reasons.specs.Reasons.{IsReason};

use crate::line::line_reason;
use crate::reason::ScriptReason;
use mh_text::line::is_blank;
use mh_text::pieces::Lines;
use mh_text::script::SCRIPT_BYTES;

/// Why a script is refused with this line, its first bad one. It takes no memory.
pub fn script_reason(text: &[u8], line: u64) -> ScriptReason
    requires { reading text.now ≡ BadLine line }
    ensures { IsReason text.now line result }
{
    if text.len() > SCRIPT_BYTES {
        return ScriptReason::TooLong;
    }
    let mut lines = Lines::new(text);
    let mut configured = false;
    while let Some((number, bytes)) = lines.next_line() {
        if number == line {
            return ScriptReason::Line(line_reason(configured, bytes));
        }
        configured = configured || !is_blank(bytes);
    }
    if lines.is_empty() {
        ScriptReason::NoConfiguration
    } else {
        ScriptReason::NoNewline
    }
}
