//! Texts that are written whole, and by lines through a buffer. The line of a verdict, also that of a refused script,
//! takes no memory.
ghost use Rattle.std.specs.{Prelude.{◌≡◌, [], OnOk, OnErr}, String.string_bytes};
ghost use Rattle.mh_model.specs.{Bytes.line_text, HistoryTexts.verdict_text};
ghost use Rattle.mh_script.specs.Texts.{TakesIn};
ghost use Rattle.mh_text.specs.Devices.{FailsAt, IsWrite};

use arrayvec::ArrayString;
use itoa::Buffer;
use mh_model::history::Verdict;
use mh_text::device::DeviceFailed;
use mh_text::sink::Sink;
use mh_text::stream::write_text;

/// How many bytes wait before they are written.
const BUFFER: usize = 65_536;

/// The most bytes of the line of a verdict.
const VERDICT_BYTES: usize = 64;

fn verdict_line(verdict: Verdict) -> ArrayString<VERDICT_BYTES>
    ensures { result.bytes ≡ line_text (verdict_text verdict) }
{
    let (words, number) = match verdict {
        Verdict::Refused(line) => ("refused 10 line ", line),
        Verdict::Legal(count) => ("legal ", count),
        Verdict::FirstBad(number) => ("first bad ", number),
    };
    let mut text = ArrayString::new();
    text.push_str(words);
    text.push_str(Buffer::new().format(number));
    text.push_str("\n");
    text
}

/// Writes the line of a verdict. It takes no memory.
pub fn write_verdict<W: Sink>(verdict: Verdict, sink: &mut W) -> Result<(), DeviceFailed>
    ensures { IsWrite (W.device sink.old) (W.device sink.new) (line_text (verdict_text verdict)) result }
{
    let text = verdict_line(verdict);
    write_text(sink, text.as_str().as_bytes())
}

/// Writes the text that waits, and empties it.
pub fn flush<W: Sink>(sink: &mut W, text: &mut String) -> Result<(), DeviceFailed>
    ensures written { IsWrite (W.device sink.old) (W.device sink.new) (string_bytes text.old) result }
    ensures empty { OnOk result (string_bytes text.new ≡ []) }
{
    match write_text(sink, text.as_bytes()) {
        Ok(()) => {
            text.clear();
            Ok(())
        }
        Err(failed) => Err(failed),
    }
}

/// Writes the text that waits if it has filled its buffer.
pub fn flush_full<W: Sink>(sink: &mut W, text: &mut String) -> Result<(), DeviceFailed>
    ensures kept { OnOk result (TakesIn (W.device sink.old) (W.device sink.new) (string_bytes text.new) (string_bytes text.old)) }
    ensures failed { OnErr result (FailsAt (W.device sink.old) (W.device sink.new) (string_bytes text.old)) }
{
    if text.len() < BUFFER {
        return Ok(());
    }
    flush(sink, text)
}
