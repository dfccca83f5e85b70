//! Traces from a plain log of executed addresses, as a simulator writes it.
#![tactic(auto)]

mod address;
mod entry;
pub mod hartlog;
mod lines;
mod log;
mod program;
mod recorder;
pub mod recording;
pub mod refusal;
mod walk;

pub use address::address_of;
pub use hartlog::{HartLogRefusal, names_harts};
pub use lines::LogEntry;
pub use log::{Log, LogFault, last_entries, read_log};
pub use program::LoggedProgram;
pub use recorder::record;
pub use recording::{LogRefusal, RecordError, answer, record_input, run};
pub use refusal::SimLogRefusal;
