//! Accesses at both ends of the address space.

use crate::shown::{range_at, yes};
use rept_alias::{Access, CallAccess, access};
use std::alloc::{AllocError, Global};
use std::fmt;
use test_kit::Numbers;

/// The first and the last byte of an access, or that it may be any, or that there is none.
#[derive(Clone, Copy)]
pub struct Ends(pub Option<Access>);

impl fmt::Display for Ends {
    fn fmt<W: fmt::Write>(&self, f: &mut fmt::Formatter<W>) -> fmt::Result {
        match self.0 {
            None => write!(f, "none"),
            Some(part) if part.all => write!(f, "every byte"),
            Some(part) => write!(f, "{:#x} to {:#x}", part.lo, part.hi),
        }
    }
}

/// The access of bases, an offset and a width, and whether it may touch an address.
pub fn reached(alloc: Global, n: &Numbers) -> Result<String, AllocError> {
    let width = n.byte(3);
    if width == 1 || width == 2 || width == 4 {
        let part = access(range_at(n, 0), n.signed(2), width);
        let hit = yes(part.may_hit(n.word(4)));
        return format!(in alloc; "{}, {hit}", Ends(Some(part)));
    }
    String::from_str(alloc, "no case")
}

/// The addresses from one number of a line to the next one.
pub fn part(n: &Numbers, k: usize) -> Option<Access> {
    match (n.known(k), n.known(k.wrapping_add(1))) {
        (Some(lo), Some(hi)) => Some(Access { all: false, lo, hi }),
        _ => None,
    }
}

/// Whether two parts have an address.
fn has(first: Option<Access>, second: Option<Access>, a: u32) -> &'static str {
    yes(CallAccess { first, second }.may_hit(a))
}

/// Whether a part has the address, as the first part alone and as the second one beside 20, which
/// they have then.
pub fn parts(alloc: Global, part: Option<Access>, a: u32) -> Result<String, AllocError> {
    let beside = Some(Access {
        all: false,
        lo: 20,
        hi: 20,
    });
    format!(in alloc;
        "{} {} {}",
        has(part, None, a),
        has(beside, part, a),
        has(beside, part, 20)
    )
}
