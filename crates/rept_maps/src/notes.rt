//! The notes of a core file: those of one type that are named `CORE`. Nothing is copied, and no
//! memory is taken.

mod ahead;
mod fault;
mod note;
mod notes;
mod nth;

pub use fault::NotePastEnd;
pub use note::{FoundNotes, Note};
pub use notes::{find_notes, find_short};
pub use nth::find_nth;
