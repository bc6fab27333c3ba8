//! Where bytes go. What was interrupted is tried again, 2^64 - 1 times at most, and is no failure of a device before
//! that. A write of 0 bytes is one. Contracts speak of the bytes that were written only if they are known, as over
//! memory.
ghost use Rattle.std.specs.{Prelude.{◌≡◌, ◌≢◌, ◌≤◌, ◌<◌, length, take, IfOk, IfErr, OnErr}, Io.WritesAtMost};
ghost use Rattle.std.specs.{Io.KnownBytes.WriteAppends, IoError.error_kind};
ghost use Rattle.mh_text.specs.Devices.{Device, FailsAtOnce, Takes};

use crate::device::DeviceFailed;
use std::io;
use std::io::{ErrorKind, Write};

/// Where bytes go.
pub trait Sink {
    // What is known of the device.
    ghost device: { Self → Device };

    /// Writes some of the first bytes of `bytes`, at least one, and returns their number.
    fn write(&mut self, bytes: &[u8]) -> Result<usize, DeviceFailed>
        requires { 0 < length bytes.now }
        ensures progress { IfOk result (λ count. 0 < count) }
        ensures within { IfOk result (λ count. count ≤ length bytes.now) }
        ensures wrote { IfOk result (λ count. Takes (device self.old) (device self.new) (take count bytes.now)) }
        ensures failed { OnErr result (FailsAtOnce (device self.old) (device self.new)) };
}

/// A writer of std as a sink. A write that is interrupted is tried again, and a write of 0 bytes counts as a failure.
#[derive(Drop)]
pub struct StdSink<W> {
    pub writer: W,
    pub failures: u64,
}

impl<W: Write> StdSink<W> {
    pub fn new(writer: W) -> StdSink<W>
        ensures writer { result.writer ≡ writer }
        ensures fresh { result.failures ≡ 0 }
    {
        StdSink {
            writer,
            failures: 0,
        }
    }
}

impl<W: Write> Sink for StdSink<W> {
    ghost device = { λ sink. record { bytes = W.contents sink.writer; failures = sink.failures } };

    fn write(&mut self, bytes: &[u8]) -> Result<usize, DeviceFailed> {
        match write_retrying(&mut self.writer, bytes) {
            Ok(count) if count > 0 => Ok(count),
            _ => {
                self.failures = self.failures.wrapping_add(1);
                Err(DeviceFailed)
            }
        }
    }
}

/// One write, tried again if it is interrupted.
fn write_retrying<W: Write>(writer: &mut W, bytes: &[u8]) -> io::Result<usize>
    ensures bound { WritesAtMost result bytes.now }
    ensures bytes { WriteAppends (W.contents writer.old) (W.contents writer.new) result bytes.now }
    ensures retried { IfErr result (λ error. error_kind error ≢ ErrorKind.Interrupted) }
{
    for _ in 0..u64::MAX {
        match writer.write(bytes) {
            Ok(count) => return Ok(count),
            Err(error) if error.kind() != ErrorKind::Interrupted => return Err(error),
            Err(_) => {}
        }
    }
    Err(io::Error::new(ErrorKind::TimedOut, "interrupted each time"))
}
