//! Which rows may let one conclude something new.

ghost use Rattle.std.specs.Prelude.{◌≤◌};

use std::alloc::{AllocError as OutOfMemory, Global};

/// From where on a row looks at bytes, and how many times something had been learnt of bytes when
/// it was looked at last.
#[derive(Clone, Copy)]
struct Look {
    start: Option<u32>,
    time: u32,
}

/// That of a row at which nothing looked yet.
const NEVER: Look = Look {
    start: None,
    time: 0,
};

/// The word of a number's bit in a list of bits.
fn word_of(words: &[u64], number: u32) -> u64 {
    let k = number as usize / 64;
    if k < words.len() { words[k] } else { 0 }
}

/// A number's bit alone.
fn bit_of(number: u32) -> u64 {
    1u64.wrapping_shl(number)
}

/// Of each row, by the number of the moment before it, whether something that it looks at was
/// learnt since it was looked at last, and whether bytes may tell something more of it, each by a
/// bit, so that a pass finds the next row of which one of them holds without a look at those
/// between; from where on it looks at bytes, and when that was. It only saves work: no clause says
/// what it keeps.
#[derive(Drop)]
pub struct StepWorklist {
    marked: Vec<u64>,
    open: Vec<u64>,
    /// beside which something was learnt by no row
    late: Vec<u64>,
    words: u32,
    looks: Vec<Look>,
}

impl StepWorklist {
    /// No row was looked at yet, of those before moments up to a number.
    pub fn new(alloc: Global, end: u32) -> Result<StepWorklist, OutOfMemory> {
        let words = end / 64 + 1;
        let marked = vec![in alloc; u64::MAX; words as usize]?;
        let open = vec![in alloc; u64::MAX; words as usize]?;
        let late = vec![in alloc; 0; words as usize]?;
        let looks = vec![in alloc; NEVER; end as usize + 1]?;
        Ok(StepWorklist {
            marked,
            open,
            late,
            words,
            looks,
        })
    }

    /// Whether a row is to be looked at.
    pub fn has(&self, number: u32) -> bool {
        word_of(self.marked.as_slice(), number) & bit_of(number) != 0
    }

    /// Whether bytes tell nothing more of a row: it looks at none, or all that it looks at is known
    /// and was inferred.
    pub fn is_plain(&self, number: u32) -> bool {
        word_of(self.open.as_slice(), number) & bit_of(number) == 0
    }

    /// Keeps that they tell nothing more.
    pub fn note_plain(&mut self, number: u32) {
        let k = number as usize / 64;
        if k < self.open.len() {
            self.open[k] = self.open[k] & !bit_of(number);
        }
    }

    /// Keeps that a row is to be looked at.
    pub fn mark(&mut self, number: u32) {
        let k = number as usize / 64;
        if k < self.marked.len() {
            self.marked[k] = self.marked[k] | bit_of(number);
        }
    }

    /// Keeps that something was learnt beside a row by no row.
    pub fn mark_late(&mut self, number: u32) {
        let k = number as usize / 64;
        if k < self.late.len() {
            self.late[k] = self.late[k] | bit_of(number);
        }
    }

    /// Keeps that the row was looked at since.
    fn unmark_late(&mut self, number: u32) {
        let k = number as usize / 64;
        if k < self.late.len() {
            self.late[k] = self.late[k] & !bit_of(number);
        }
    }

    /// Keeps that it is not.
    fn unmark(&mut self, number: u32) {
        let k = number as usize / 64;
        if k < self.marked.len() {
            self.marked[k] = self.marked[k] & !bit_of(number);
        }
    }

    /// Keeps that there is no row before a moment.
    pub fn note_none(&mut self, number: u32) {
        self.unmark(number);
        self.note_plain(number);
    }

    /// The rows of a word that may tell something.
    fn word(&self, k: u32) -> u64 {
        let k = k as usize;
        let marked = self.marked.as_slice();
        let open = self.open.as_slice();
        if k < marked.len() && k < open.len() {
            marked[k] | open[k]
        } else {
            0
        }
    }

    /// Those, and those beside which something was learnt by no row.
    fn late_word(&self, k: u32) -> u64 {
        let late = self.late.as_slice();
        if (k as usize) < late.len() {
            self.word(k) | late[k as usize]
        } else {
            0
        }
    }

    /// The first number from one on before which a row may tell something, or one beyond all.
    pub fn next(&self, number: u32) -> u32
        ensures { number ≤ result }
    {
        if self.has(number) {
            return number;
        }
        let rest = self.word(number / 64).wrapping_shr(number);
        if rest != 0 {
            return number.saturating_add(rest.trailing_zeros());
        }
        number.max(self.first_from(number / 64 + 1))
    }

    /// The first of them from a word on.
    fn first_from(&self, first: u32) -> u32 {
        for k in first..self.words {
            let word = self.word(k);
            if word != 0 {
                return k.wrapping_mul(64).wrapping_add(word.trailing_zeros());
            }
        }
        u32::MAX
    }

    /// The number after the last one below one before which a row may tell something; 0 where there
    /// is none.
    pub fn end_below(&self, end: u32) -> u32
        ensures { result ≤ end }
    {
        let last = end.saturating_sub(1);
        if self.has(last) {
            return end;
        }
        let rest = self.word(last / 64).wrapping_shl(63u32.wrapping_sub(last));
        if rest != 0 {
            return end.saturating_sub(rest.leading_zeros());
        }
        end.min(self.end_before(last / 64))
    }

    /// The number after the last one below one before which a row may tell something, or beside
    /// which something was learnt by no row since the row was looked at; 0 where there is none.
    pub fn late_end_below(&self, end: u32) -> u32
        ensures { result ≤ end }
    {
        let last = end.saturating_sub(1);
        let rest = self
            .late_word(last / 64)
            .wrapping_shl(63u32.wrapping_sub(last));
        if rest != 0 {
            return end.saturating_sub(rest.leading_zeros());
        }
        end.min(self.late_end_before(last / 64))
    }

    /// The end of those before a word.
    fn late_end_before(&self, last: u32) -> u32 {
        for k in (0..last).rev() {
            let word = self.late_word(k);
            if word != 0 {
                return k
                    .wrapping_add(1)
                    .wrapping_mul(64)
                    .wrapping_sub(word.leading_zeros());
            }
        }
        0
    }

    /// The end of those before a word.
    fn end_before(&self, last: u32) -> u32 {
        for k in (0..last).rev() {
            let word = self.word(k);
            if word != 0 {
                return k
                    .wrapping_add(1)
                    .wrapping_mul(64)
                    .wrapping_sub(word.leading_zeros());
            }
        }
        0
    }

    /// What is kept of a look at a row.
    fn look(&self, number: u32) -> Look {
        let looks = self.looks.as_slice();
        let k = number as usize;
        if k < looks.len() { looks[k] } else { NEVER }
    }

    /// The address of the first byte that a row looks at, if it was kept.
    pub fn start(&self, number: u32) -> Option<u32> {
        self.look(number).start
    }

    /// Keeps it.
    pub fn note_start(&mut self, number: u32, start: u32) {
        let k = number as usize;
        if k < self.looks.len() {
            self.looks[k].start = Some(start);
        }
    }

    /// How many times something had been learnt of bytes when a row was looked at last.
    pub fn time(&self, number: u32) -> u32 {
        self.look(number).time
    }

    /// Keeps when a row was looked at.
    fn note_time(&mut self, number: u32, time: u32) {
        let k = number as usize;
        if k < self.looks.len() {
            self.looks[k].time = time;
        }
    }

    /// Keeps that a row was looked at when something had been learnt of bytes so many times, and
    /// whether that told something new: then it is to be looked at again.
    pub fn note(&mut self, number: u32, has_news: bool, time: u32) {
        self.note_time(number, time);
        self.unmark_late(number);
        if has_news {
            self.mark(number);
        } else {
            self.unmark(number);
        }
    }
}
