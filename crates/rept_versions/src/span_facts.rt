//! Byte facts as spans: points of one address that stand side by side and have one value take one
//! place together.

ghost use Rattle.std.specs.Prelude.{◌≡◌, ℕ, ◌+◌, ◌*◌, ◌<◌, ◌≤◌, Bool, true, IfOk, IsSome, Some, length, slice_get};

use crate::facts::{ByteFacts, Carried, Learnt, ValueStretch};
use crate::keys::{key, point_of};
use crate::line::{Put, SpanLine, Spread};
use crate::tracked::Tracked;
use std::alloc::{AllocError as OutOfMemory, Global};
use std::marker::Model;

/// How many places a point there are at least: of several threads a value may be known in many
/// slices and not between them.
const MORE: usize = 16;

/// Byte facts as spans of points with one value. All memory is taken by `make`.
#[derive(Drop)]
pub struct SpanFacts {
    line: SpanLine,
    row: Tracked,
}

impl Model for SpanFacts {
    ghost use Rattle.std.specs.Prelude.{◌<◌};
    ghost use Rattle.rept_versions.specs.Line.{AreSpansJoined};
    ghost use Rattle.rept_versions.specs.OnLine.{LineParts};

    ghost Value = { LineParts };

    ghost view = { λ s. record { line = s.line; row = s.row } };

    ghost invariant = { λ s. record { joined : AreSpansJoined s.line.spans; few : s.line.room < 4294967296 } };
}

impl ByteFacts for SpanFacts {
    ghost use Rattle.rept_versions.specs.OnLine.{store};
    ghost use Rattle.std.specs.Prelude.{true};

    const JOINS: bool = true;

    ghost JOINS = { true };

    ghost store = { λ s. store s };

    fn make(alloc: Global, points: u32, access_bytes: u32) -> Result<Self, OutOfMemory> {
        let slices = MORE * points.min(66_560) as usize;
        let line = SpanLine::new(alloc, (2 * access_bytes as usize + 1).max(slices))?;
        let row = Tracked::new(alloc, access_bytes as usize)?;
        Ok(SpanFacts { line, row })
    }

    fn known(&self, point: u32, a: u32) -> Option<u8> {
        self.line.value_at(key(point, a))
    }

    fn learn(&mut self, point: u32, a: u32, value: u8) -> Result<Learnt, OutOfMemory> {
        match self.line.put(key(point, a), value) {
            Put::Old => Ok(Learnt::Old),
            Put::New => Ok(Learnt::New),
            Put::Clash(w) => Ok(Learnt::Clash(w, value)),
            Put::Full => Err(OutOfMemory),
        }
    }

    fn carry(&mut self, a: u32, from: u32, to: u32) -> Result<Carried, OutOfMemory> {
        match self.line.carry(key(from, a), key(to, a)) {
            Spread::Same => return Ok(Carried::Same),
            Spread::More => return Ok(Carried::More),
            Spread::Stop(k, v, w) => return Ok(Carried::Stop(point_of(k, a), v, w)),
        }
    }

    fn spare(&self) -> u32 {
        self.line.spare() as u32
    }

    fn track(&mut self, a: u32) -> Result<(), OutOfMemory> {
        self.row.add(a)
    }

    fn count(&self) -> usize {
        self.row.count()
    }

    fn address(&self, k: usize) -> u32 {
        self.row.at(k)
    }

    fn next_stretch(&self, a: u32, point: u32) -> Option<ValueStretch> {
        match self.line.next_from(key(point, a)) {
            None => None,
            Some(s) => {
                if key(4294967295, a) < s.low {
                    return None;
                }
                let first = if s.low < key(0, a) {
                    0
                } else {
                    point_of(s.low, a)
                };
                let last = if key(4294967295, a) < s.high {
                    4294967295
                } else {
                    point_of(s.high, a)
                };
                Some(ValueStretch {
                    first,
                    last,
                    value: s.value,
                })
            }
        }
    }
}
