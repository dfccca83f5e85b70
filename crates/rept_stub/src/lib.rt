//! The answers to a debugger that speaks GDB's remote serial protocol, over what an analysis found
//! out.
#![tactic(auto)]

pub mod answers;
mod console;
mod cursors;
mod description;
pub mod early;
pub mod files;
pub mod loading;
mod monitoring;
mod pieces;
mod signal;
mod threads;

pub use answers::{PacketReply, Setting, Stand, answer_packet, start};
pub use cursors::Cursors;
pub use early::early_answer;
pub use files::{ProcessFiles, ProgramImages};
pub use loading::{files_of, mapped_files};
pub use pieces::push_digits;
pub use signal::debugger_signal;
