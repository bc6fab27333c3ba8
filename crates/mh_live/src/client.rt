//! Who sends lines, and may wait for the answers to what was sent before it sends more.
ghost use Rattle.std.specs.{Prelude.{◌≡◌, ◌<◌, ◌≤◌, Option, None, length, take, IfOk, OnErr}, Io.KnownBytes.IsAtEnd};
ghost use Rattle.mh_text.specs.Devices.{Device, FailsAtOnce, Gives};
ghost use Rattle.mh_live.specs.Talks.{Talk, IsPrompt, Sends};

use mh_text::device::DeviceFailed;
use mh_text::sink::Sink;
use mh_text::source::Source;

/// A source of lines, which is read on only when each whole line that it gave is answered.
pub trait Client {
    // What is known of the device.
    ghost device: { Self → Device };

    // What was sent so far, if that is known.
    ghost talk: { Self → Option Talk };

    /// Puts the next bytes at the start of `buffer`, and returns their number, which is 0 only at the end. The answers to
    /// what was read before stand in `answers`.
    fn read<W: Sink>(&mut self, buffer: &mut [u8], answers: &W) -> Result<usize, DeviceFailed>
        requires some { 0 < length buffer.old }
        requires prompt { IsPrompt (talk self.old) (W.device answers.now).bytes }
        ensures within { IfOk result (λ count. count ≤ length buffer.new) }
        ensures read { IfOk result (λ count. Gives (device self.old) (device self.new) (take count buffer.new)) }
        ensures sent { IfOk result (λ count. Sends (talk self.old) (talk self.new) (take count buffer.new)) }
        ensures end { IfOk result (λ count. count ≡ 0 → IsAtEnd (device self.new).bytes) }
        ensures failed { OnErr result (FailsAtOnce (device self.old) (device self.new)) };
}

/// Any source can be a client that doesn't say what it sent.
impl<S: Source> Client for S {
    ghost device = { λ source. S.device source };

    ghost talk = { λ source. None };

    fn read<W: Sink>(&mut self, buffer: &mut [u8], answers: &W) -> Result<usize, DeviceFailed> {
        let _ = answers;
        self.read(buffer)
    }
}
