//! A crash that is opened: its words and files, the run that its trace tells, the report of that,
//! and what is asked of it.
#![tactic(auto)]

mod analysis;
mod answering;
mod areas;
mod beyond;
mod dumping;
mod listed;
mod load;
mod path;
mod path_line;
mod premises;
mod refusal;
mod running;
mod status;
mod taken;
mod telling;
mod texts;
pub mod words;

pub use answering::{Asking, Circumstances, open_report};
pub use dumping::{CrashImages, crash_images, read_dump};
pub use listed::{ListStop, ListedFiles, images_in, load_listed};
pub use load::{CoreFiles, CrashFiles, LoadedRequest, OpenOptions, load_files};
pub use refusal::{FileKind, Refusal};
pub use running::{analysed_run, run_for, trace_run};
pub use status::ExitStatus;
pub use telling::{deliver, tell, tell_failed, tell_no_memory};
pub use words::{CoreNames, Domain, FileNames, Request, meaning};
