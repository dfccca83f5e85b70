//! The two latest ends of the first so many writers.

ghost use Rattle.std.specs.Prelude.{◌≡◌, IfOk};
ghost use Rattle.rept_order.specs.Crossing.Latest.{later_of, latest_none, latest_with, latest_known, latest_reaches, AreLatest};

use crate::crossing::writer::TimedWriter;
use std::alloc::{AllocError as OutOfMemory, Global};

/// The greatest end of the writers up to one, whose thread that writer's is, and the greatest one
/// of the other threads.
#[derive(Clone, Copy)]
pub struct Latest {
    /// The thread.
    pub thread: u32,
    /// The greatest end.
    pub end: Option<u64>,
    /// The greatest end of other threads.
    pub other: Option<u64>,
}

/// The later one.
fn later(end: Option<u64>, time: u64) -> Option<u64>
    ensures { result ≡ later_of end time }
{
    match end {
        Some(known) if known > time => Some(known),
        _ => Some(time),
    }
}

impl Latest {
    /// Of no writers.
    pub fn none() -> Latest
        ensures { result ≡ latest_none }
    {
        Latest {
            thread: 0,
            end: None,
            other: None,
        }
    }

    /// With one writer more.
    pub fn with(self, writer: TimedWriter) -> Latest
        ensures { result ≡ latest_with self writer }
    {
        match self.end {
            None => Latest {
                thread: writer.thread,
                end: Some(writer.end),
                other: None,
            },
            Some(end) => self.with_known(end, writer),
        }
    }

    /// With one writer more, where there is one already.
    fn with_known(self, end: u64, writer: TimedWriter) -> Latest
        ensures { result ≡ latest_known self end writer }
    {
        if writer.thread == self.thread {
            Latest {
                thread: self.thread,
                end: later(self.end, writer.end),
                other: self.other,
            }
        } else if writer.end <= end {
            Latest {
                thread: self.thread,
                end: self.end,
                other: later(self.other, writer.end),
            }
        } else {
            Latest {
                thread: writer.thread,
                end: Some(writer.end),
                other: self.end,
            }
        }
    }

    /// Whether a writer of another thread doesn't end before the time.
    pub fn reaches(self, thread: u32, from: u64) -> bool
        ensures { result ≡ latest_reaches self thread from }
    {
        let end = if thread == self.thread {
            self.other
        } else {
            self.end
        };
        match end {
            Some(end) => from <= end,
            None => false,
        }
    }
}

/// Of each count of writers from the first one on.
pub fn latest_of_each(alloc: Global, list: &[TimedWriter]) -> Result<Vec<Latest>, OutOfMemory>
    ensures { IfOk result (λ v. AreLatest list.now v.items) }
{
    let mut latest = Vec::new(alloc);
    let mut known = Latest::none();
    latest.push(known)?;
    for writer in list {
        known = known.with(*writer);
        latest.push(known)?;
    }
    Ok(latest)
}
