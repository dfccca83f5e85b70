//! Who may write, and when a thread rests.

/// What may write memory, with the times between which it does.
#[derive(Clone, Copy)]
pub struct TimedWriter {
    /// The thread.
    pub thread: u32,
    /// The time before which it doesn't begin to write.
    pub begin: u64,
    /// The time after which it doesn't write any more; the greatest one where none is known.
    pub end: u64,
}

/// Two times between which a thread rests.
#[derive(Clone, Copy)]
pub struct Rest {
    /// The thread.
    pub thread: u32,
    /// The first time.
    pub from: u64,
    /// The last time, where one is known.
    pub to: Option<u64>,
}
