//! How a call ends.

ghost use Rattle.std.specs.Prelude.{◌≡◌};
ghost use Rattle.rept_opening.specs.Status.{number_of_status};

/// How a call of the program ends.
#[derive(Clone, Copy)]
pub enum ExitStatus {
    /// The input was read to its end, or to `quit`, and all answers were written.
    Ok,
    /// No execution fits the files.
    Inconsistent,
    /// The words have no meaning.
    Usage,
    /// A file can't be loaded.
    LoadFault,
    /// A file is missing.
    NoFile,
    /// A file is over its limit.
    TooLarge,
    /// The executable is refused.
    Executable,
    /// The core file is refused.
    Core,
    /// The trace is refused, or tells no run.
    Trace,
    /// The input can't be read.
    InputFault,
    /// The output can't be written.
    OutputFault,
    /// Memory ran out.
    OutOfMemory,
    /// The input has more than 1,048,576 bytes.
    TooMuchInput,
}

impl ExitStatus {
    /// The number with which the process ends.
    pub fn number(self) -> u8
        ensures { result ≡ number_of_status self }
    {
        match self {
            ExitStatus::Ok => 0,
            ExitStatus::Inconsistent => 1,
            ExitStatus::Usage => 2,
            ExitStatus::LoadFault => 3,
            ExitStatus::NoFile => 4,
            ExitStatus::TooLarge => 5,
            ExitStatus::Executable => 6,
            ExitStatus::Core => 7,
            ExitStatus::Trace => 8,
            ExitStatus::InputFault => 9,
            ExitStatus::OutputFault => 10,
            ExitStatus::OutOfMemory => 11,
            ExitStatus::TooMuchInput => 12,
        }
    }
}
