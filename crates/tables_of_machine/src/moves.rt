//! What instructions make of sets of values.

use crate::bits::{bits_at, show_bits, show_both};
use crate::rules;
use crate::shown::{range_at, set};
use rept_isa::{StepRow, decode};
use rept_known::{Bits, Both};
use rept_partial::{Partial, Range};
use rept_span::Transfer;
use std::alloc::{AllocError, Global};
use test_kit::Numbers;

/// The row of the word at an address, where the next one is at `next`.
pub fn row_of(word: u32, at: u32, next: u32) -> Option<StepRow> {
    match decode(word) {
        None => None,
        Some(instr) => Some(StepRow {
            at,
            instr,
            next,
            call: word == 0x73,
            short: false,
        }),
    }
}

/// The cases of a row, whose word, address and next address are the first three numbers.
pub fn answer(alloc: Global, asked: &str, n: &Numbers) -> Result<String, AllocError> {
    match row_of(n.word(0), n.word(1), n.word(2)) {
        None => String::from_str(alloc, "no case"),
        Some(row) => about(alloc, asked, n, &row),
    }
}

fn about(alloc: Global, asked: &str, n: &Numbers, row: &StepRow) -> Result<String, AllocError> {
    match asked {
        "apply" => set(
            alloc,
            Some(Range::apply(&row.instr, row.at, range_at(n, 3), range_at(n, 5))),
        ),
        "narrow" => left(alloc, Range::narrow(row, range_at(n, 3), range_at(n, 5))),
        "jump" => set(
            alloc,
            first(Range::narrow(row, range_at(n, 3), Range::unknown())),
        ),
        "applybits" => show_bits(
            alloc,
            Some(Bits::apply(&row.instr, row.at, bits_at(n, 3), bits_at(n, 5))),
        ),
        "narrowbits" => show_bits(
            alloc,
            second(Bits::narrow(row, bits_at(n, 3), bits_at(n, 5))),
        ),
        "applyboth" => show_both(
            alloc,
            Some(Both::apply(&row.instr, row.at, Both::unknown(), Both::unknown())),
        ),
        _ => rules::answer(alloc, asked, n, row),
    }
}

fn first(left: Option<(Range, Range)>) -> Option<Range> {
    match left {
        None => None,
        Some((first, _)) => Some(first),
    }
}

fn second(left: Option<(Bits, Bits)>) -> Option<Bits> {
    match left {
        None => None,
        Some((_, second)) => Some(second),
    }
}

/// What is left of two ranges.
fn left(alloc: Global, left: Option<(Range, Range)>) -> Result<String, AllocError> {
    format!(in alloc; "{left:?}")
}
