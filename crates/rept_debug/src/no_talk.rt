//! Why no dialog is held.

ghost use Rattle.std.specs.Prelude.{◌≡◌};
ghost use Rattle.rept_debug.specs.Debugged.{IsLoadFault, status_of_no_talk};

use rept_opening::{ExitStatus, Refusal};
use std::alloc::Global;

/// Why no dialog is held.
#[derive(Drop)]
pub enum GdbError {
    /// a refusal of a session
    Refused(Refusal),
    /// the load of the mapped file of this name failed
    LoadFault(String),
}

impl GdbError {
    /// The status that goes with it.
    pub fn status(&self) -> ExitStatus
        ensures { result ≡ status_of_no_talk self.now }
    {
        match self {
            GdbError::Refused(refusal) => refusal.status(),
            GdbError::LoadFault(_) => ExitStatus::LoadFault,
        }
    }
}

/// That the load of a name failed. Where there is no memory to keep the name, that is told.
pub fn load_fault(alloc: Global, name: &str) -> GdbError
    ensures { IsLoadFault name.now result }
{
    match String::from_str(alloc, name) {
        Ok(name) => GdbError::LoadFault(name),
        Err(_) => GdbError::Refused(Refusal::OutOfMemory),
    }
}
