//! A crash that is opened for a debugger: the files, the run and the report of a session, and a
//! dialog in its place.
#![tactic(auto)]

mod begin;
mod debugging;
pub mod dialog;
mod files;
mod mapped;
mod no_talk;
mod notice;
mod process;
mod talk;
mod telling;

pub use begin::{RunFrom, begin_analysis, begin_run};
pub use debugging::debug;
pub use dialog::{Dialog, SessionEnd, converse, take_turn};
pub use no_talk::GdbError;
pub use process::{answer, run};
pub use talk::GdbSession;
