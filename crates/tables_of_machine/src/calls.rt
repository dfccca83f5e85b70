//! Which bytes system calls may change.

ghost use Rattle.std.specs.Prelude.{◌≡◌, ℕ, ◌+◌, ◌<◌, slice_index};
ghost use Rattle.rept_machine.specs.Calls.{may_change};

use crate::accesses::Ends;
use crate::shown::range_at;
use rept_havoc::havoc;
use rept_partial::{Flat, Partial, Range};
use std::alloc::{AllocError, Global};
use test_kit::Numbers;

/// A call: its number, which is in x17, its arguments, in x10 to x15, and its answer.
#[derive(Clone, Copy)]
struct Call {
    number: u32,
    args: [u32; 6],
    answer: u32,
}

/// Where the program's own memory ends in all cases.
const IMAGE_END: u64 = 0x1_8000;

/// Whether the call may change the byte at the address, by the machine's table of calls.
fn changes(call: &Call, a: u32) -> bool
    ensures { (register : ℕ → ℕ) → register 17 ≡ call.now.number →
        ((k : ℕ) → k < 6 → register (10 + k) ≡ slice_index call.now.args k) →
        result ≡ may_change 98304 register call.now.answer a }
{
    let args = [
        Range::new(call.args[0], call.args[0]),
        Range::new(call.args[1], call.args[1]),
        Range::new(call.args[2], call.args[2]),
        Range::new(call.args[3], call.args[3]),
        Range::new(call.args[4], call.args[4]),
        Range::new(call.args[5], call.args[5]),
    ];
    let answer = Range::new(call.answer, call.answer);
    havoc(Flat::Known(call.number), &args, answer, IMAGE_END).may_hit(a)
}

/// Whether each of the addresses after the call's number, its six arguments and its answer may be
/// changed.
pub fn changed(alloc: Global, n: &Numbers) -> Result<String, AllocError> {
    let args = [
        n.word(1),
        n.word(2),
        n.word(3),
        n.word(4),
        n.word(5),
        n.word(6),
    ];
    let call = Call {
        number: n.word(0),
        args,
        answer: n.word(7),
    };
    let mut text = String::new(alloc);
    for k in 8..n.count() {
        let word = if changes(&call, n.word(k)) {
            " yes"
        } else {
            " no"
        };
        text.push_str(word)?;
    }
    Ok(text)
}

/// The bytes of a call of which the bounds of its six arguments and of its answer are known. An end
/// of the program's own memory that is none is 2^32.
pub fn reached(alloc: Global, n: &Numbers) -> Result<String, AllocError> {
    let args = [
        range_at(n, 1),
        range_at(n, 3),
        range_at(n, 5),
        range_at(n, 7),
        range_at(n, 9),
        range_at(n, 11),
    ];
    let image_end = match n.known(15) {
        None => 0x1_0000_0000,
        Some(end) => u64::from(end),
    };
    let changed = havoc(Flat::of(n.known(0)), &args, range_at(n, 13), image_end);
    format!(in alloc; "{} and {}", Ends(changed.first), Ends(changed.second))
}
