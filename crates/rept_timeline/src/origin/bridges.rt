//! Between which moments a byte is carried.

ghost use Rattle.rept_timeline.specs.Paths.{timeline, lawful};
ghost use Rattle.std.specs.Prelude.{◌≡◌, ◌<◌, ◌≤◌, true};
ghost use Rattle.rept_report.specs.Spots.{passage};
ghost use Rattle.rept_report.specs.Origin.Bridges.{spares, carries_over, leads_by, carries_by, IsLeastFrom};

use crate::RunPaths;
use crate::origin::lesser::lesser;
use rept_report::{Direction, Net, Sources};

/// The moments of a run, of which two are linked where a byte is carried from one to the other.
#[derive(Drop)]
pub struct Bridges<'f, S: Sources> {
    /// the rows and moments
    pub paths: &'f RunPaths<'f>,
    /// the byte
    pub sources: &'f S,
    ghost told: { (timeline paths.now).legs.count ≤ (S.byte sources.now).rows },
}

impl<'f, S: Sources> Bridges<'f, S> {
    /// Whether no row that may act between a moment and a next one may write the byte.
    fn is_spared(&self, number: u32, next: u32) -> bool
        requires { (timeline self.now.paths.now).moments.next number next ≡ true }
        ensures { result ≡ spares (timeline self.now.paths.now).moments (S.byte self.now.sources.now).may (passage (S.byte self.now.sources.now).address number next) (timeline self.now.paths.now).legs.count }
    {
        let count = self.paths.last_point();
        let mut least = 0;
        while least < count {
            let Some(row) = self.paths.acting_from(number, next, least) else {
                return true;
            };
            if self.sources.may_write(row) {
                return false;
            }
            least = row + 1;
        }
        true
    }

    /// Whether the byte is carried from a moment to a next one.
    fn is_carried(&self, number: u32, next: u32) -> bool
        requires { (timeline self.now.paths.now).moments.next number next ≡ true }
        ensures { result ≡ carries_over (timeline self.now.paths.now) (S.byte self.now.sources.now) number next }
    {
        if self.paths.is_untraced_between(number, next) {
            return false;
        }
        self.is_spared(number, next)
    }

    /// The least number from `least` on from which a step this way leads to this one, if there is
    /// one.
    fn step_from(&self, way: Direction, number: u32, least: u32) -> Option<u32>
        requires { number ≤ (timeline self.now.paths.now).moments.end }
        ensures { IsLeastFrom (λ w. leads_by (timeline self.now.paths.now) number (record { from = w; way = way })) least result }
    {
        match way {
            Direction::Onward => self.paths.former_from(number, least),
            Direction::Back => self.paths.next_from(number, least),
        }
    }

    /// Whether the byte is carried to this moment by the step this way from another one.
    fn is_carried_by(&self, way: Direction, number: u32, from: u32) -> bool
        requires { leads_by (timeline self.now.paths.now) number (record { from = from; way = way }) ≡ true }
        ensures { result ≡ carries_by (timeline self.now.paths.now) (S.byte self.now.sources.now) number (record { from = from; way = way }) }
    {
        match way {
            Direction::Onward => self.is_carried(from, number),
            Direction::Back => self.is_carried(number, from),
        }
    }

    /// The least number from `least` on from which the byte is carried this way to this one, if
    /// there is one.
    pub fn beside_from(&self, way: Direction, number: u32, least: u32) -> Option<u32>
        requires { number ≤ (timeline self.now.paths.now).moments.end }
        ensures { IsLeastFrom (λ w. carries_by (timeline self.now.paths.now) (S.byte self.now.sources.now) number (record { from = w; way = way })) least result }
    {
        let end = self.paths.end();
        let mut from = least;
        while from <= end {
            let Some(beside) = self.step_from(way, number, from) else {
                return None;
            };
            if self.is_carried_by(way, number, beside) {
                return Some(beside);
            }
            from = beside + 1;
        }
        None
    }
}

impl<'f, S: Sources> Net for Bridges<'f, S> {
    ghost use Rattle.rept_timeline.specs.Paths.{timeline, lawful};
    ghost use Rattle.rept_report.specs.Origin.Bridges.{links_over, linked_inside};

    ghost links = { λ b. links_over (timeline b.paths.now) (S.byte b.sources.now) };

    ghost inside = { λ b. linked_inside (timeline b.paths.now) (lawful b.paths.now) (S.byte b.sources.now) };

    fn last(&self) -> u32 {
        self.paths.end()
    }

    fn value(&self, number: u32) -> Option<u8> {
        self.sources.source(number)
    }

    fn next_linked(&self, number: u32, least: u32) -> Option<u32> {
        lesser(
            self.beside_from(Direction::Onward, number, least),
            self.beside_from(Direction::Back, number, least),
        )
    }
}
