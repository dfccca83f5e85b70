//! Calls on a list of rows that may write, one after another.

ghost use Rattle.std.specs.Prelude.{◌≤◌};

use crate::accesses::part;
use rept_alias::CallAccess;
use rept_writing::{StoreIndex, Writing};
use std::alloc::{AllocError, Global};
use test_kit::Numbers;

/// How many rows there may be.
const ROOM: usize = 6;

/// A list of rows that may write, with room for six.
#[derive(Drop)]
pub struct Rows {
    writings: StoreIndex,
    ghost room: { 6 ≤ writings.room },
}

/// What a row may write that stands at a number in time, itself has another number, and may act
/// between any two below 100.
fn written(at: u32, access: CallAccess) -> Writing {
    Writing {
        row: 40u32.wrapping_sub(at),
        at,
        from: 0,
        to: 100,
        is_call: false,
        access,
    }
}

impl Rows {
    /// No row, and room for so many bytes of rows that may write few.
    pub fn new(alloc: Global, bytes: u32) -> Result<Rows, AllocError> {
        let writings = StoreIndex::new(alloc, ROOM, bytes as usize)?;
        Ok(Rows { writings })
    }

    /// What is found in the list; or after a change how many rows there are, how many were
    /// replaced, and whether so many were that it is worth the time to put all in order again.
    pub fn answer(
        &mut self,
        alloc: Global,
        asked: &str,
        n: &Numbers,
    ) -> Result<String, AllocError> {
        match self.change(alloc, asked, n)? {
            None => self.found(alloc, asked, n),
            Some(done) => format!(in alloc;
                "{} rows, {done} replaced, worn {}",
                self.writings.len(),
                self.writings.is_worn()
            ),
        }
    }

    /// Changes the list, and answers how many rows were replaced, if it was asked to.
    fn change(
        &mut self,
        alloc: Global,
        asked: &str,
        n: &Numbers,
    ) -> Result<Option<u32>, AllocError> {
        match asked {
            "rows-new" => *self = Rows::new(alloc, n.word(0))?,
            "rows-add" => self.add(n),
            "rows-fall" => self.add_acting(n),
            "rows-replace" => return Ok(Some(self.replace(n))),
            "rows-index" => self.writings.index(),
            "rows-clear" => self.writings.clear(),
            _ => return Ok(None),
        }
        Ok(Some(0))
    }

    /// The first row that may write an address, from an index on or between two; the first one that
    /// may act between two numbers besides; and since and until which numbers none may act that may
    /// write it.
    fn found(&self, alloc: Global, asked: &str, n: &Numbers) -> Result<String, AllocError> {
        let (k, a) = (n.word(0), n.word(1));
        match asked {
            "rows-below" => format!(in alloc;
                "{} of {}",
                self.writings.past_hit(0, k, a),
                self.writings.before(k)
            ),
            "rows-from" => format!(in alloc;
                "{:?}",
                self.writings.next_hit(k as usize, usize::MAX, a)
            ),
            "rows-between" => {
                let low = (k as usize).min(self.writings.len());
                let next = self.writings.next_hit(low, a as usize, n.word(2));
                let past = self.writings.past_hit(low, n.word(3), n.word(2));
                format!(in alloc; "{next:?}, {past}")
            }
            "rows-meet" => format!(in alloc;
                "{:?}",
                self.writings
                    .next_meeting(k as usize, a, n.word(2), n.word(3))
            ),
            _ => format!(in alloc;
                "{}, {}",
                self.writings.free_since(k, a),
                self.writings.free_until(k, a)
            ),
        }
    }

    /// Adds a row that may act between two numbers, and of which it is said whether it is a call.
    fn add_acting(&mut self, n: &Numbers) {
        if self.writings.len() < ROOM {
            let (first, second) = (part(n, 4), part(n, 6));
            let mut writing = written(n.word(0), CallAccess { first, second });
            writing.from = n.word(1);
            writing.to = n.word(2);
            writing.is_call = n.word(3) == 1;
            self.writings.add(writing);
        }
    }

    fn add(&mut self, n: &Numbers) {
        if self.writings.len() < ROOM {
            let (first, second) = (part(n, 1), part(n, 3));
            self.writings
                .add(written(n.word(0), CallAccess { first, second }));
        }
    }

    /// Puts a row in the place of one, so many times, and answers how often that was done.
    fn replace(&mut self, n: &Numbers) -> u32 {
        let (first, second) = (part(n, 3), part(n, 5));
        let writing = written(n.word(2), CallAccess { first, second });
        let k = n.word(1) as usize;
        let mut done = 0u32;
        for _ in 0..n.word(0) {
            if k < self.writings.len() && self.writings.replace(k, writing) {
                done = done.wrapping_add(1);
            }
        }
        done
    }
}
