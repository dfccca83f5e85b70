//! A view of three registers and four bytes.

ghost use Rattle.std.specs.Prelude.{◌≡◌};
ghost use Rattle.rept_reason.specs.Facts.{flat};
ghost use Rattle.rept_rules.specs.Sample.{as_word, register_before, register_after, sample_byte, range_by};

use rept_isa::Reg;
use rept_partial::{Flat, Partial, Range};
use rept_reason::{RowView, When};

/// What is known of x5 and x6 before a row, of x7 after it, and of the word at 0x20000 before and
/// after it.
#[derive(Clone, Copy)]
pub struct Sample {
    pub first: Option<u32>,
    pub second: Option<u32>,
    pub outcome: Option<u32>,
    pub before: Option<u32>,
    pub after: Option<u32>,
}

/// What is known of a word.
fn shown_word(x: Option<u32>) -> Flat
    ensures { result ≡ flat (as_word x) }
{
    match x {
        None => Flat::Unknown,
        Some(v) => Flat::Known(v),
    }
}

fn shown_before(first: Option<u32>, second: Option<u32>, number: u8) -> Flat
    ensures { result ≡ flat (register_before first second number) }
{
    if number == 0 {
        Flat::Known(0)
    } else if number == 5 {
        shown_word(first)
    } else if number == 6 {
        shown_word(second)
    } else {
        Flat::Unknown
    }
}

fn shown_after(outcome: Option<u32>, number: u8) -> Flat
    ensures { result ≡ flat (register_after outcome number) }
{
    if number == 0 {
        Flat::Known(0)
    } else if number == 7 {
        shown_word(outcome)
    } else {
        Flat::Unknown
    }
}

/// Byte `k` of a word.
fn shown_byte(word: Option<u32>, a: u32) -> Option<u8>
    ensures { result ≡ sample_byte word a }
{
    match word {
        None => None,
        Some(w) => {
            if a >= 0x2_0000 && a < 0x2_0004 {
                Some(((w >> (8 * (a - 0x2_0000))) % 256) as u8)
            } else {
                None
            }
        }
    }
}

fn shown_range(x: Flat) -> Range
    ensures { result ≡ range_by x }
{
    match x {
        Flat::Unknown => Range::unknown(),
        Flat::Known(v) => Range::exact(v),
    }
}

impl RowView for Sample {
    ghost use Rattle.rept_rules.specs.Sample.{shown, shown_lawful};

    ghost seen = { λ v. shown (record { first = v.first; second = v.second; outcome = v.outcome; before = v.before; after = v.after }) };

    ghost lawful = { λ v. shown_lawful (record { first = v.first; second = v.second; outcome = v.outcome; before = v.before; after = v.after }) };

    fn reg(&self, when: When, r: Reg) -> Flat {
        match when {
            When::Before => shown_before(self.first, self.second, r.number()),
            When::After => shown_after(self.outcome, r.number()),
        }
    }

    fn byte(&self, when: When, a: u32) -> Option<u8> {
        match when {
            When::Before => shown_byte(self.before, a),
            When::After => shown_byte(self.after, a),
        }
    }

    fn range(&self, when: When, r: Reg) -> Range {
        shown_range(self.reg(when, r))
    }
}
