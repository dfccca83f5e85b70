//! The cursors of all threads.

ghost use Rattle.std.specs.Prelude.{◌≡◌, ℕ, ◌<◌, List, get_or, length, set, IfOk};
ghost use Rattle.rept_stub.specs.Standing.{last_points};

use rept_findings::Findings;
use rept_word::OutOfMemory;
use std::alloc::Global;
use std::marker::Model;

/// The point of each thread's cursor, in the order of the threads.
#[derive(Drop)]
pub struct Cursors {
    points: Vec<u32>,
}

impl Model for Cursors {
    ghost use Rattle.std.specs.Prelude.{ℕ, List};

    ghost Value = { List ℕ };

    ghost view = { λ c. c.points.items };
}

impl Cursors {
    /// The last points of all threads. The only refusal is out of memory.
    pub fn new<F: Findings>(alloc: Global, findings: &F) -> Result<Cursors, OutOfMemory>
        ensures { IfOk result (λ cursors. cursors ≡ last_points (F.shown findings.now)) }
    {
        let mut points = Vec::new(alloc);
        for thread in 0..findings.threads() {
            points.push(findings.rows(thread).len() as u32)?;
        }
        Ok(Cursors { points })
    }

    /// The point of a thread's cursor.
    pub fn point_of(&self, thread: u32) -> u32
        requires { thread < length self.now }
        ensures { result ≡ get_or self.now thread 0 }
    {
        self.points[thread as usize]
    }

    /// Puts the cursor of a thread to a point.
    pub fn put(&mut self, thread: u32, point: u32)
        requires { thread < length self.old }
        ensures { self.new ≡ set self.old thread point }
    {
        self.points[thread as usize] = point;
    }
}
