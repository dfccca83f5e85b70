//! The files that a crashed process had mapped, as its core file lists them, and images of these
//! files. Nothing of a core file is copied.
#![tactic(auto)]

mod entry;
mod fault;
mod images;
pub mod mapfiles;
pub mod mapped;
mod maps;
mod names;
pub mod notes;

pub use entry::{Entry, MappedRange};
pub use fault::MapFault;
pub use images::Images;
pub use mapfiles::{LoadStop, asked_names, bounds_hold, images_of, load_names, load_within};
pub use mapped::Mapped;
pub use maps::Maps;
pub use names::Names;
pub use notes::{FoundNotes, Note, NotePastEnd, find_notes, find_nth, find_short};
