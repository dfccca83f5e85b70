//! Why a core file's notes are refused.

use thiserror::Error;

/// Why a core file's notes are refused. Note segments are gone through in table order, and the
/// notes of each in turn; the first that is not whole is the fault. The other faults come where all
/// notes are whole, in the order of this list: `SeveralThreads` where one thread is asked for, the
/// last two where several are.
#[derive(Clone, Copy, Debug, PartialEq, Eq, Error)]
pub enum CoreFault {
    /// The file does not hold a note segment, or a note segment does not hold a note. The offset in
    /// the file is given.
    #[error("a note at {0} past the end")]
    NotePastEnd(u64),
    /// There is no register note.
    #[error("no register note")]
    NoStatus,
    /// There is more than one register note, as several threads have. Their count is given.
    #[error("{0} register notes")]
    SeveralThreads(u64),
    /// The descriptor of the register note has fewer than 204 bytes. Their count is given.
    #[error("a register note of {0} bytes")]
    ShortStatus(u64),
    /// Of several threads: there are more than 1,024 register notes. Their count is given.
    #[error("{0} threads, over 1024")]
    TooManyThreads(u64),
    /// Of several threads: a later register note has the process of this one too. The process is
    /// given.
    #[error("two register notes of process {0}")]
    SameThread(u32),
}
