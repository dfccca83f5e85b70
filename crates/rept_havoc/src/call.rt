//! The bytes of a call, by its number.

ghost use Rattle.std.specs.Prelude.{◌≡◌, ℕ, ◌+◌, ◌<◌, ◌^◌, true, Option};
ghost use Rattle.rept_partial.specs.declared.range.Range.{Range};
ghost use Rattle.rept_partial.specs.declared.flat.Flat.{Flat};
ghost use Rattle.rept_alias.specs.Accesses.{call_hits};
ghost use Rattle.rept_machine.specs.Calls.{may_change};
ghost use Rattle.rept_havoc.specs.Havoc.{every_byte, interval, grown, mapped, was_read_over, counted_over, part_over, changed_by, changed, argument, MeetsArguments, AreExact, IsNumber, AreArgumentsWithin, NumberWithin, RangeWithin, Lies, IsExact};

use rept_alias::{Access, CallAccess};
use rept_machine::{ByteCount, CallEffect, call_of};
use rept_partial::{Flat, Partial, Range};

/// The least answer of a call that is an error: -4095.
const LEAST_ERROR: u32 = 0xffff_f001;

/// The answer EFAULT: -14.
const BAD_ADDRESS: u32 = 0xffff_fff2;

/// The bytes that a system call may change (Linux on 32-bit RISC-V), from what is known of its
/// number in x17 (a7), of its arguments in x10 to x15 (a0 to a5), and of its answer, which is in
/// x10 after it. `image_end` is the address after the last byte of the program's own memory, where
/// the heap begins. Each interval of bytes goes from the lowest base to the last byte that the
/// highest base and length reach; one that passes the end of the address space is every byte. A
/// call of a number that is unknown, or of one that isn't listed, may change every byte.
pub fn havoc(number: Flat, args: &[Range; 6], answered: Range, image_end: u64) -> CallAccess
    ensures value { result ≡ changed number (argument args.now) answered image_end }
    ensures covers { (register : ℕ → ℕ) (answer a : ℕ) → IsNumber number (register 17) → MeetsArguments (argument args.now) register → Lies answer answered → may_change image_end register answer a ≡ true → call_hits result a ≡ true }
    ensures exact { (register : ℕ → ℕ) (answer a : ℕ) → number ≡ Flat.Known (register 17) → AreExact (argument args.now) register → IsExact answered answer → a < 2 ^ 32 → call_hits result a ≡ may_change image_end register answer a }
    ensures monotone { (wider_number : Flat) (wider : ℕ → Range) (wider_answer : Range) (a : ℕ) → NumberWithin number wider_number → AreArgumentsWithin (argument args.now) wider → RangeWithin answered wider_answer → call_hits result a ≡ true → call_hits (changed wider_number wider wider_answer image_end) a ≡ true }
{
    match number {
        Flat::Unknown => every_byte(),
        Flat::Known(call) => changed_by(call, args, answered, image_end),
    }
}

/// The bytes of the call of a known number.
fn changed_by(call: u32, args: &[Range; 6], answered: Range, image_end: u64) -> CallAccess
    ensures { result ≡ changed_by call (argument args.now) answered image_end }
{
    match call_of(call) {
        None => every_byte(),
        Some(row) => CallAccess {
            first: part_over(row.first, args, answered, image_end),
            second: part_over(row.second, args, answered, image_end),
        },
    }
}

/// One part of the bytes of a call, if there is one.
fn part_over(
    part: Option<CallEffect>,
    args: &[Range; 6],
    answered: Range,
    image_end: u64,
) -> Option<Access>
    ensures { result ≡ part_over image_end (argument args.now) answered part }
{
    match part? {
        CallEffect::Area { base, count } => {
            interval(argument(args, base), counted_over(args, count))
        }
        CallEffect::Read { base, most } => {
            was_read_over(argument(args, base), argument(args, most), answered)
        }
        CallEffect::Heap => grown(image_end, answered),
        CallEffect::Mapping { length } => mapped(answered, argument(args, length)),
    }
}

/// The range of an argument register; every value of a register that is none.
fn argument(args: &[Range; 6], register: u8) -> Range
    ensures { result ≡ argument args.now register }
{
    match args.get(usize::from(register.saturating_sub(10))) {
        Some(range) => *range,
        None => Range::new(0, u32::MAX),
    }
}

/// The most bytes, over the ranges of argument registers.
fn counted_over(args: &[Range; 6], count: ByteCount) -> u64
    ensures value { result ≡ counted_over (argument args.now) count }
{
    match count {
        ByteCount::Fixed(bytes) => u64::from(bytes),
        ByteCount::Register(r) => u64::from(argument(args, r).hi()),
        ByteCount::Pages(r) => u64::from(argument(args, r).hi()) + 4095,
        ByteCount::Records { count, bytes, most } => {
            let records = argument(args, count).hi();
            if records <= most {
                u64::from(records) * u64::from(bytes)
            } else {
                1 << 33
            }
        }
    }
}

/// The bytes of a read, over the ranges of its address, of the most bytes and of its answer.
fn was_read_over(base: Range, most: Range, answered: Range) -> Option<Access>
    ensures { result ≡ was_read_over base most answered }
{
    if answered.hi() < LEAST_ERROR {
        interval(base, u64::from(most.hi().min(answered.hi())))
    } else if answered.lo() >= LEAST_ERROR
        && (BAD_ADDRESS < answered.lo() || answered.hi() < BAD_ADDRESS)
    {
        None
    } else {
        interval(base, u64::from(most.hi()))
    }
}

fn every_byte() -> CallAccess
    ensures { result ≡ every_byte }
{
    CallAccess {
        first: Some(Access {
            all: true,
            lo: 0,
            hi: u32::MAX,
        }),
        second: None,
    }
}

/// The bytes from a base in a range on, this many.
fn interval(base: Range, size: u64) -> Option<Access>
    ensures { result ≡ interval base size }
{
    if size == 0 {
        return None;
    }
    let end = u64::from(base.hi()).saturating_add(size);
    if end <= 0x1_0000_0000 {
        Some(Access {
            all: false,
            lo: base.lo(),
            hi: (end - 1) as u32,
        })
    } else {
        Some(Access {
            all: true,
            lo: 0,
            hi: u32::MAX,
        })
    }
}

/// The heap, whose end is the answer of brk.
fn grown(image_end: u64, answered: Range) -> Option<Access>
    ensures { result ≡ grown image_end answered }
{
    if image_end < u64::from(answered.hi()) {
        Some(Access {
            all: false,
            lo: image_end as u32,
            hi: answered.hi() - 1,
        })
    } else {
        None
    }
}

/// Whole pages from the answer of mmap2 on, unless that is an error whatever it is.
fn mapped(answered: Range, length: Range) -> Option<Access>
    ensures { result ≡ mapped answered length }
{
    if answered.lo() >= LEAST_ERROR {
        None
    } else {
        interval(answered, u64::from(length.hi()) + 4095)
    }
}
