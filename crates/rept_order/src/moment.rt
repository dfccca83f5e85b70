//! The moments of a run, and who may write between them.

/// A moment of a run.
#[derive(Clone, Copy)]
pub enum Moment {
    /// Before a row; before the entry of a call.
    Before {
        /// The thread.
        thread: u32,
        /// The row's number in the thread.
        step: u32,
    },
    /// After a row; after the return of a call.
    After {
        /// The thread.
        thread: u32,
        /// The row's number in the thread.
        step: u32,
    },
    /// After all rows.
    End,
}

/// Who may write memory.
#[derive(Clone, Copy)]
pub enum Act {
    /// A row.
    Row {
        /// The thread.
        thread: u32,
        /// The row's number in the thread.
        step: u32,
    },
    /// What isn't told of the begin.
    Untraced,
}
