//! The numbers of a line.

use rept_word::number_in;

/// How many numbers of a line can be told apart.
const ROOM: usize = 20;

/// The numbers of a line in their order.
#[derive(Clone, Copy)]
pub struct Numbers {
    count: usize,
    words: [Option<u32>; ROOM],
}

/// What a word of a line says.
enum Word {
    Number(u32),
    Nothing,
    Text,
}

/// The word as a number: decimal digits, or `0x` and hexadecimal ones, and what is below zero
/// modulo 2^32. `none`, `unknown` and `each` stand in the place of a number.
fn read(word: &str) -> Word {
    if word == "none" || word == "unknown" || word == "each" {
        return Word::Nothing;
    }
    match word.strip_prefix('-') {
        Some(digits) => number_or_text(digits, true),
        None => number_or_text(word, false),
    }
}

fn number_or_text(digits: &str, below_zero: bool) -> Word {
    match number_in(digits.as_bytes()) {
        None => Word::Text,
        Some(n) if below_zero => Word::Number(n.wrapping_neg()),
        Some(n) => Word::Number(n),
    }
}

impl Numbers {
    /// No number.
    pub fn new() -> Numbers {
        Numbers {
            count: 0,
            words: [None; ROOM],
        }
    }

    /// Takes the next word of a line.
    pub fn take(&mut self, word: &str) {
        match read(word) {
            Word::Number(n) => self.put(Some(n)),
            Word::Nothing => self.put(None),
            Word::Text => {}
        }
    }

    fn put(&mut self, number: Option<u32>) {
        if self.count < ROOM {
            self.words[self.count] = number;
        }
        self.count = self.count.wrapping_add(1);
    }

    /// How many numbers the line has, with those that are none.
    pub fn count(&self) -> usize {
        self.count
    }

    /// The number at a place, if it is one.
    pub fn known(&self, k: usize) -> Option<u32> {
        if k < ROOM { self.words[k] } else { None }
    }

    /// The number at a place, 0 where there is none.
    pub fn word(&self, k: usize) -> u32 {
        self.known(k).unwrap_or(0)
    }

    /// The number at a place, with its sign.
    pub fn signed(&self, k: usize) -> i32 {
        i32::from_ne_bytes(self.word(k).to_ne_bytes())
    }

    /// The lowest byte of the number at a place.
    pub fn byte(&self, k: usize) -> u8 {
        (self.word(k) % 256) as u8
    }
}
