//! What the slices of one thread must keep.

ghost use Rattle.std.specs.Prelude.{◌≡◌, ◌<◌, suc, length, slice_get};
ghost use Rattle.rept_steps.specs.Course.{slice_of};
ghost use Rattle.rept_steps.specs.Tested.{takes, begins_from, in_time, keeps_to, ends_after};

use crate::slice::Slice;

/// Whether they take so many rows one after the other, each once.
pub fn take_rows(slices: &[Slice], rows: u32) -> bool
    ensures { result ≡ takes 0 slices.now rows }
{
    let mut from: u64 = 0;
    for slice in slices {
        if from > u64::from(rows) {
            return false;
        }
        if u64::from(slice.first) != from {
            return false;
        }
        from += u64::from(slice.count);
    }
    from == u64::from(rows)
}

/// Whether the slice of a number, if there is one, doesn't begin before a time.
fn begins_from(slices: &[Slice], number: usize, time: u64) -> bool
    ensures { result ≡ begins_from time (slice_get slices.now number) }
{
    match slices.get(number) {
        Some(slice) => time <= slice.begin,
        None => true,
    }
}

/// Whether the slice of a number begins no later than it ends, and ends no later than the next one
/// begins.
fn in_time(slices: &[Slice], number: usize) -> bool
    requires { number < length slices.now }
    ensures { result ≡ in_time (slice_get slices.now number) (slice_get slices.now (suc number)) }
{
    let slice = slices[number];
    let next = begins_from(slices, number + 1, slice.end);
    slice.begin <= slice.end && next
}

/// Whether each slice does.
pub fn keep_time(slices: &[Slice]) -> bool
    ensures { result ≡ keeps_to slices.now (length slices.now) }
{
    let mut kept = true;
    for number in 0..slices.len() {
        let here = in_time(slices, number);
        kept = kept && here;
    }
    kept
}

/// The slice that a row is in: the first one that reaches past it.
fn slice_holding(slices: &[Slice], step: u32) -> Option<Slice>
    ensures { result ≡ slice_of slices.now step }
{
    for slice in slices {
        if u64::from(step) < u64::from(slice.first) + u64::from(slice.count) {
            return Some(*slice);
        }
    }
    None
}

/// Whether the row of this number is the last one of its slice, if it is in one.
pub fn ends_slice(slices: &[Slice], step: u32) -> bool
    ensures { result ≡ ends_after (slice_of slices.now step) step }
{
    match slice_holding(slices, step) {
        Some(slice) => u64::from(slice.first) + u64::from(slice.count) == u64::from(step) + 1,
        None => true,
    }
}
