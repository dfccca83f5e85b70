//! The requests of a debugger: what a packet of GDB's remote serial protocol asks for.

mod named;
mod names;
mod numbers;
mod parser;
pub mod request;

pub use parser::parse;
pub use request::{CodeRange, GdbRequest, Movement, TargetObject, ThreadName, WatchKind};
