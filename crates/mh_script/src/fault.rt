//! Why a script was not run to its end, and why lines were not all written. A run can meet a source or a sink that
//! failed, refused memory, and a full history, so its error names these and no more.
use mh_machine::machine::Stop;
use mh_model::memory::NoMemory;
use mh_text::device::DeviceFailed;
use mh_text::stream::ReadError;
use thiserror::Error;

/// The line that says that the source failed.
pub const READ_FAILED: &str = "metroheap: read failed\n";

pub const WRITE_FAILED: &str = "metroheap: write failed\n";

pub const NO_MEMORY: &str = "metroheap: no memory\n";

pub const HISTORY_FULL: &str = "metroheap: history full\n";

/// Why a script was not run to its end. Its text is the line that the program writes.
#[derive(Clone, Copy, Debug, PartialEq, Eq, Error)]
pub enum ScriptFault {
    #[error("{}", READ_FAILED)]
    Read,
    #[error("{}", WRITE_FAILED)]
    Write,
    #[error("{}", NO_MEMORY)]
    NoMemory,
    /// More events than a history has room for; those that it has were answered.
    #[error("{}", HISTORY_FULL)]
    HistoryFull,
}

impl From<NoMemory> for ScriptFault {
    ghost use Rattle.std.specs.Prelude.{◌≡◌};
    ghost use Rattle.mh_script.specs.declared.fault.ScriptFault.TheVariants.{NoMemory};

    ghost from_gives = { λ _ fault. fault ≡ NoMemory };

    fn from(_error: NoMemory) -> ScriptFault {
        ScriptFault::NoMemory
    }
}

impl From<ReadError> for ScriptFault {
    ghost use Rattle.mh_script.specs.Texts.{IsReadFault};

    ghost from_gives = { IsReadFault };

    fn from(error: ReadError) -> ScriptFault {
        match error {
            ReadError::Device => ScriptFault::Read,
            ReadError::NoMemory => ScriptFault::NoMemory,
        }
    }
}

impl From<Stop> for ScriptFault {
    ghost use Rattle.mh_script.specs.Texts.{IsStopFault};

    ghost from_gives = { IsStopFault };

    fn from(stop: Stop) -> ScriptFault {
        match stop {
            Stop::HistoryFull => ScriptFault::HistoryFull,
            Stop::NoMemory => ScriptFault::NoMemory,
        }
    }
}

/// Why lines were not all written.
#[derive(Clone, Copy, Debug, PartialEq, Eq)]
pub enum WriteError {
    Device,
    NoMemory,
}

impl From<DeviceFailed> for WriteError {
    ghost use Rattle.std.specs.Prelude.{◌≡◌};
    ghost use Rattle.mh_script.specs.declared.fault.WriteError.TheVariants.{Device};

    ghost from_gives = { λ _ error. error ≡ Device };

    fn from(_error: DeviceFailed) -> WriteError {
        WriteError::Device
    }
}

impl From<NoMemory> for WriteError {
    ghost use Rattle.std.specs.Prelude.{◌≡◌};
    ghost use Rattle.mh_script.specs.declared.fault.WriteError.TheVariants.{NoMemory};

    ghost from_gives = { λ _ error. error ≡ NoMemory };

    fn from(_error: NoMemory) -> WriteError {
        WriteError::NoMemory
    }
}

impl From<WriteError> for ScriptFault {
    ghost use Rattle.mh_script.specs.Texts.{IsWriteFault};

    ghost from_gives = { IsWriteFault };

    fn from(error: WriteError) -> ScriptFault {
        match error {
            WriteError::Device => ScriptFault::Write,
            WriteError::NoMemory => ScriptFault::NoMemory,
        }
    }
}
