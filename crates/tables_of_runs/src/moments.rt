//! Which moments are next to one another, and over which of them a byte is carried.

ghost use Rattle.std.specs.Prelude.{◌≡◌, true, IsSome};
ghost use Rattle.std.specs.List.{All};
ghost use Rattle.rept_moments.specs.Courses.{seen_in};

use rept_extents::Ways;
use std::alloc::{AllocError, Global};
use test_kit::Numbers;

/// Whether a number is next to another one, looked for up to itself and from itself on, and whether
/// the other one comes before it, looked for from the other one on.
pub fn next(alloc: Global, ways: &Ways<'_>, m: u32, w: u32) -> Result<String, AllocError> {
    if m > ways.course().end() {
        return String::from_str(alloc, "past the end");
    }
    let up_to = ways.next_to(m, w) == Some(w);
    let found = ways.next_from(m, w) == Some(w);
    let back = ways.previous_from(w, m) == Some(m);
    format!(in alloc; "{up_to} {found} {back}")
}

/// Whether each of them is a row.
fn are_rows(ways: &Ways<'_>, rows: &[u32]) -> bool
    ensures { result ≡ true → All (λ i. IsSome ((seen_in ways.now).legs.row i)) rows.now }
{
    for row in rows {
        if ways.course().row(*row).is_none() {
            return false;
        }
    }
    true
}

/// The numbers of a line after the first two.
fn rest(alloc: Global, n: &Numbers) -> Result<Vec<u32>, AllocError> {
    let mut rows = Vec::new(alloc);
    for k in 2..n.count() {
        rows.push(n.word(k))?;
    }
    Ok(rows)
}

/// Whether one of the rows may act between two numbers, of which the latter is next to the former.
fn may_act_any(ways: &Ways<'_>, rows: &[u32], m: u32, w: u32) -> bool
    requires rows { All (λ i. IsSome ((seen_in ways.now).legs.row i)) rows.now }
    requires next { (seen_in ways.now).moments.next m w ≡ true }
{
    for row in rows {
        if ways.course().may_act(*row, m, w) {
            return true;
        }
    }
    false
}

/// Whether a byte that these rows may write is carried from a number to another one, and from that
/// one back.
pub fn carried(alloc: Global, ways: &Ways<'_>, n: &Numbers) -> Result<String, AllocError> {
    let (m, w) = (n.word(0), n.word(1));
    let rows = rest(alloc, n)?;
    if m > ways.course().end() || !are_rows(ways, rows.as_slice()) {
        return String::from_str(alloc, "no such moment or row");
    }
    match ways.next_from(m, w) {
        Some(next) if next == w => {
            let untraced = ways.course().is_untraced_between(m, w);
            let onward = !untraced && !may_act_any(ways, rows.as_slice(), m, w);
            let back = onward && ways.previous_from(w, m) == Some(m);
            format!(in alloc; "{onward} {back}")
        }
        _ => String::from_str(alloc, "false false"),
    }
}
