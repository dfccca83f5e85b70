//! What an executable and the core file of its crash say: the registers, the bytes of memory that
//! are known, and the words of code. Nothing is copied.
#![tactic(auto)]

mod code;
mod dump;
mod executable;
mod fault;
mod files;
mod notes;
mod search;
mod status;
mod stretch;
mod threads;

pub use code::Code;
pub use dump::Dump;
pub use fault::CoreFault;
pub use status::Status;
