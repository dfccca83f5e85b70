//! The outside of the program: named files, bytes that come in, bytes that go out. Each is a trait,
//! with ports in memory and ports over the system.
#![tactic(auto)]

pub mod arguments;
pub mod file_store;
pub mod host;
pub mod lines;
pub mod sink;
pub mod source;
pub mod traits;

pub use arguments::{Unreadable, words_of};
pub use file_store::{InfallibleFileStore, MemoryFileStore};
pub use host::{DiskFileStore, StdSink, StdSource};
pub use lines::{BoundedLines, Line, LineFault};
pub use sink::{MemSink, write_all};
pub use source::{InfallibleSource, MemSource};
pub use traits::{Failed, FileStore, LoadFault, OutOfMemory, Sink, Source};
