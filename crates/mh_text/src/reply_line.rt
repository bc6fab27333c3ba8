//! The lines of replies, added to a text. Each is exactly the model's. Short replies are put together from words and
//! digits, and the long ones by `ReplyText`.
ghost use Rattle.std.specs.{Prelude.{◌≡◌, ◌++◌, [], ◌∷◌, codes, decimal, OnOk}, String.string_bytes};
ghost use Rattle.mh_model.specs.{Bytes.line_text, Replies.{phase_word, reply_text}};
ghost use Rattle.mh_text.specs.ReplyWords.{spaced};
ghost use Rattle.mh_model.specs.declared.reply.Reply.TheVariants as reply;

use crate::reply_text::ReplyText;
use itoa::Buffer;
use mh_model::cycle::Phase;
use mh_model::memory::NoMemory;
use mh_model::reply::{Refusal, Reply};
use std::fmt::Write;

/// Adds the line of a reply to a text. After an error the text may end with a part of the line.
#[inline(always)]
pub fn push_reply_line(text: &mut String, reply: &Reply) -> Result<(), NoMemory>
    ensures { OnOk result (string_bytes text.new ≡ string_bytes text.old ++ line_text (reply_text reply.now)) }
{
    match reply {
        Reply::Done => text.push_str("ok\n")?,
        Reply::Yes => text.push_str("yes\n")?,
        Reply::No => text.push_str("no\n")?,
        Reply::Number(number) => push_number(text, "number ", *number, "\n")?,
        Reply::Shape(shape) => {
            push_number(text, "shape ", u64::from(shape.references), " ")?;
            push_number(text, "", u64::from(shape.numbers), "\n")?;
        }
        Reply::Refused(refusal) => text.push_str(refusal_line(*refusal))?,
        Reply::Spent { units, phase } => {
            push_number(text, "spent ", units.0, phase_end(*phase))?;
        }
        Reply::Left(quanta) => push_number(text, "left ", *quanta, "\n")?,
        Reply::Stat(_) | Reply::Dump(_) | Reply::Report(_) => {
            let line = ReplyText(reply);
            writeln!(text, "{line}")?;
        }
    }
    Ok(())
}

/// Adds a number with what stands before and after it.
fn push_number(text: &mut String, before: &str, number: u64, after: &str) -> Result<(), NoMemory>
    ensures { OnOk result (string_bytes text.new ≡ string_bytes text.old ++ (before.now ++ (decimal number ++ after.now))) }
{
    text.push_str(before)?;
    text.push_str(Buffer::new().format(number))?;
    text.push_str(after)?;
    Ok(())
}

fn refusal_line(refusal: Refusal) -> &'static str
    ensures { result.now ≡ line_text (reply_text (reply.Refused refusal)) }
{
    match refusal {
        Refusal::BadSlot => "refused 1 bad slot\n",
        Refusal::Null => "refused 2 null\n",
        Refusal::NoField => "refused 3 no field\n",
        Refusal::TooLarge => "refused 4 too large\n",
        Refusal::HeapFull => "refused 5 heap full\n",
        Refusal::Ended => "refused 6 ended\n",
        Refusal::TooManySessions => "refused 7 too many sessions\n",
    }
}

/// What stands after the units of a quantum.
fn phase_end(phase: Phase) -> &'static str
    ensures { result.now ≡ line_text (spaced (codes "phase" ∷ phase_word phase ∷ [])) }
{
    match phase {
        Phase::Idle => " phase idle\n",
        Phase::Roots => " phase roots\n",
        Phase::Mark => " phase mark\n",
        Phase::Sweep => " phase sweep\n",
        Phase::Defrag => " phase defrag\n",
    }
}
