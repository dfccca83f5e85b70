//! Why no trace was written, with its line and its code.

ghost use Rattle.std.specs.Prelude.{◌≡◌};
ghost use Rattle.rept_simlog.specs.Recording.Process.{number_of_stop};

use crate::recording::logs::LogRefusal;
use thiserror::Error;

/// Why no trace was written, or only a part of it.
#[derive(Clone, Copy, Debug, Error)]
pub enum RecordError {
    /// The words aren't one name.
    #[error("usage: rept_record EXE < LOG > TRACE")]
    Usage,
    /// The executable couldn't be loaded.
    #[error("the executable can't be loaded")]
    LoadFault,
    /// No file has this name.
    #[error("no such executable")]
    NoFile,
    /// The executable has more than 64 MiB.
    #[error("the executable is too large")]
    TooLarge,
    /// Standard input failed.
    #[error("the log can't be read")]
    InputFault,
    /// The log has more than 256 MiB.
    #[error("the log is too large: take its last 65537 lines")]
    TooMuchInput,
    /// The log isn't that of a run of the executable, or no memory was left for its trace.
    #[error("{0}")]
    Refused(LogRefusal),
    /// Standard output failed.
    #[error("the trace can't be written")]
    OutputFault,
    /// No memory was left.
    #[error("out of memory")]
    OutOfMemory,
}

impl RecordError {
    /// The exit status.
    pub fn number(self) -> u8
        ensures { result ≡ number_of_stop self }
    {
        match self {
            RecordError::Refused(LogRefusal::OneHart(crate::SimLogRefusal::OutOfMemory))
            | RecordError::Refused(LogRefusal::Qemu(crate::SimLogRefusal::OutOfMemory))
            | RecordError::Refused(
                LogRefusal::SeveralHarts(crate::hartlog::HartLogRefusal::OutOfMemory),
            )
            | RecordError::OutOfMemory => 11,
            RecordError::Refused(_) => 1,
            RecordError::Usage => 2,
            RecordError::LoadFault => 3,
            RecordError::NoFile => 4,
            RecordError::TooLarge => 5,
            RecordError::InputFault => 9,
            RecordError::OutputFault => 10,
            RecordError::TooMuchInput => 12,
        }
    }
}
