//! The program that writes the trace of a log of executed addresses, apart from its `main`.

mod logs;
mod process;
mod qemu;
mod stop;
mod work;

pub use logs::LogRefusal;
pub use process::{answer, record_input};
pub use stop::RecordError;
pub use work::run;
