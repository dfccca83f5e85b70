//! Why a core file's list of mapped files is refused.

use thiserror::Error;

/// Why a core file's list of mapped files is refused. All notes are looked at first; the other
/// faults come where all are whole, in the order of this list.
#[derive(Clone, Copy, Debug, PartialEq, Eq, Error)]
pub enum MapFault {
    /// The file does not hold a note segment, or a note segment does not hold a note. The offset in
    /// the file is given.
    #[error("a note at {0} past the end")]
    NotePastEnd(u64),
    /// There is no file note.
    #[error("no list of mapped files")]
    NoMap,
    /// The first file note, whose offset in the file is given, doesn't hold all its entries and
    /// names, or an entry ends before its start, or a name isn't UTF-8.
    #[error("a damaged list of mapped files at {0}")]
    BadMap(u64),
    /// There are more than 4,096 entries. Their count is given.
    #[error("{0} mapped files")]
    TooManyMaps(u32),
}
