//! How a run of a script ended that no fault cut short. A refused script has its first bad line, and the reason for
//! which that line is outside the grammar.
ghost use Rattle.std.specs.Prelude.{◌≡◌};
ghost use Rattle.mh_model.specs.Script.{BadLine, reading};
ghost use Rattle.mh_reasons.specs.Reasons.{IsReason};

use mh_reasons::reason::ScriptReason;
use mh_reasons::script::script_reason;

/// How a run of a script ended.
#[derive(Debug, Drop)]
pub enum End {
    Done,
    Refused(LineRefusal),
}

/// Where and why a script is refused.
#[derive(Debug, Drop)]
pub struct LineRefusal {
    /// The script's first bad line, counted from 1; 0 if the script is too long.
    pub line: u64,
    pub reason: ScriptReason,
}

impl LineRefusal {
    /// The refusal of a text whose first bad line this is. It takes no memory.
    pub fn of(text: &[u8], line: u64) -> LineRefusal
        requires { reading text.now ≡ BadLine line }
        ensures line { result.line ≡ line }
        ensures reason { IsReason text.now line result.reason }
    {
        LineRefusal {
            line,
            reason: script_reason(text, line),
        }
    }
}
