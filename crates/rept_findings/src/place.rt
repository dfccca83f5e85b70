//! Where in a run of threads something stands, as a session names it.

/// A point of a thread. A thread of n steps has the points 0 to n; step i leads from point i to
/// point i + 1.
#[derive(Clone, Copy)]
pub struct ThreadPoint {
    /// the thread, from 0 on, in the order of the core file's register notes
    pub thread: u32,
    /// the point, from 0 before the thread's first step to the count of its steps after the last
    /// one
    pub point: u32,
}

/// When a byte has a value: at a moment of a thread, or after all steps of all threads.
#[derive(Clone, Copy, Debug, PartialEq, Eq)]
pub enum Place {
    /// The moment at this point of the thread: before the step of this number.
    Point(u32),
    /// The moment after this step of the thread, which is another one than that before its next
    /// step: another thread may write between them.
    After(u32),
    /// The end, after all steps of all threads.
    End,
}

/// A place of a thread. The end is named as thread 0's.
#[derive(Clone, Copy, Debug, PartialEq, Eq)]
pub struct ThreadPlace {
    /// the thread, from 0 on
    pub thread: u32,
    /// the place
    pub place: Place,
}
