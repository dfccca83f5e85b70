//! The first and the last event of a row, and the slices in which they happen.

ghost use Rattle.std.specs.Prelude.{◌≡◌, ◌≤◌, ◌+◌, ℕ, length, slice_get};
ghost use Rattle.rept_steps.specs.Course.{slice_of, slice_after, TakeRows};
ghost use Rattle.rept_order.specs.Reaching.{reaches_at};

use rept_steps::Slice;

/// A row's first event, or its last one.
#[derive(Clone, Copy)]
pub struct Edge {
    /// The thread.
    pub thread: u32,
    /// The row's number in the thread.
    pub step: u32,
    /// Whether it is the last event.
    pub last: bool,
}

/// Whether the slice of this number reaches past the row. All do that aren't there.
fn reaches(slices: &[Slice], number: usize, step: u32) -> bool
    ensures { result ≡ reaches_at slices.now number step }
{
    match slices.get(number) {
        Some(slice) => u64::from(step) < u64::from(slice.first) + u64::from(slice.count),
        None => true,
    }
}

/// The number of the slice that a row is in, found by halves; past the last row, the count of
/// slices.
fn slice_number(slices: &[Slice], step: u32) -> usize
    requires { (n : ℕ) × TakeRows 0 slices.now n }
    ensures few { result ≤ length slices.now }
    ensures here { slice_of slices.now step ≡ slice_get slices.now result }
    ensures after { slice_after slices.now step ≡ slice_get slices.now (result + 1) }
{
    let mut low = 0;
    let mut high = slices.len();
    while low < high {
        let middle = low + (high - low) / 2;
        if reaches(slices, middle, step) {
            high = middle;
        } else {
            low = middle + 1;
        }
    }
    low
}

/// The slice that a row is in: the first one that reaches past it.
pub fn slice_holding(slices: &[Slice], step: u32) -> Option<Slice>
    requires { (n : ℕ) × TakeRows 0 slices.now n }
    ensures { result ≡ slice_of slices.now step }
{
    match slices.get(slice_number(slices, step)) {
        Some(slice) => Some(*slice),
        None => None,
    }
}

/// The slice that follows it.
pub fn slice_following(slices: &[Slice], step: u32) -> Option<Slice>
    requires { (n : ℕ) × TakeRows 0 slices.now n }
    ensures { result ≡ slice_after slices.now step }
{
    match slices.get(slice_number(slices, step) + 1) {
        Some(slice) => Some(*slice),
        None => None,
    }
}
