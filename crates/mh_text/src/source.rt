//! Where bytes come from. What was interrupted is tried again, 2^64 - 1 times at most, and is no failure of a device
//! before that. Contracts speak of the bytes that are left only if they are known, as over memory.
ghost use Rattle.std.specs.{Prelude.{◌≡◌, ◌≢◌, ◌≤◌, ◌<◌, length, take, IfOk, IfErr, OnErr}, Io.ReadsAtMost};
ghost use Rattle.std.specs.{Io.KnownBytes.{IsAtEnd, ReadConsumes}, IoError.error_kind};
ghost use Rattle.mh_text.specs.Devices.{Device, FailsAtOnce, Gives};

use crate::device::DeviceFailed;
use std::io;
use std::io::{ErrorKind, Read};

/// Where bytes come from.
pub trait Source {
    // What is known of the device.
    ghost device: { Self → Device };

    /// Puts the next bytes at the start of `buffer`, and returns their number, which is 0 only at the end.
    fn read(&mut self, buffer: &mut [u8]) -> Result<usize, DeviceFailed>
        requires { 0 < length buffer.old }
        ensures within { IfOk result (λ count. count ≤ length buffer.new) }
        ensures read { IfOk result (λ count. Gives (device self.old) (device self.new) (take count buffer.new)) }
        ensures end { IfOk result (λ count. count ≡ 0 → IsAtEnd (device self.new).bytes) }
        ensures failed { OnErr result (FailsAtOnce (device self.old) (device self.new)) };
}

/// A reader of std as a source. A read that is interrupted is tried again.
#[derive(Drop)]
pub struct StdSource<R> {
    pub reader: R,
    pub failures: u64,
}

impl<R: Read> StdSource<R> {
    pub fn new(reader: R) -> StdSource<R>
        ensures reader { result.reader ≡ reader }
        ensures fresh { result.failures ≡ 0 }
    {
        StdSource {
            reader,
            failures: 0,
        }
    }
}

impl<R: Read> Source for StdSource<R> {
    ghost device = { λ source. record { bytes = R.remaining source.reader; failures = source.failures } };

    fn read(&mut self, buffer: &mut [u8]) -> Result<usize, DeviceFailed> {
        match read_retrying(&mut self.reader, buffer) {
            Ok(count) => Ok(count),
            Err(_) => {
                self.failures = self.failures.wrapping_add(1);
                Err(DeviceFailed)
            }
        }
    }
}

/// One read, tried again if it is interrupted.
fn read_retrying<R: Read>(reader: &mut R, buffer: &mut [u8]) -> io::Result<usize>
    ensures bound { ReadsAtMost result buffer.new }
    ensures bytes { ReadConsumes (R.remaining reader.old) (R.remaining reader.new) result buffer.new }
    ensures retried { IfErr result (λ error. error_kind error ≢ ErrorKind.Interrupted) }
{
    for _ in 0..u64::MAX {
        match reader.read(buffer) {
            Ok(count) => return Ok(count),
            Err(error) if error.kind() != ErrorKind::Interrupted => return Err(error),
            Err(_) => {}
        }
    }
    Err(io::Error::new(ErrorKind::TimedOut, "interrupted each time"))
}
