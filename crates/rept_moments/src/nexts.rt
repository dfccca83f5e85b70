//! By which time a moment must be able to come to be next to one, and numbers of moments that are
//! added to others.

ghost use Rattle.std.specs.Prelude.{◌≡◌, [], ◌∷◌, IfSome, IsSome, OnOk};
ghost use Rattle.rept_order.specs.Legs.{leg_row};
ghost use Rattle.rept_moments.specs.Begins.{sooner_end};
ghost use Rattle.rept_order.specs.Crossing.Writers.{not_past};
ghost use Rattle.rept_moments.specs.Nexts.{end_with, AddsOthers, Member};

use crate::points::Points;
use crate::side::PointSide;
use std::alloc::AllocError as OutOfMemory;

/// Whether a moment is later than one, and by which time one must be able to come to be next to it:
/// the least end of the slices of the later ones, where one is known.
#[derive(Clone, Copy)]
pub struct Later {
    /// Whether there is one.
    pub some: bool,
    /// The time.
    pub last: Option<u64>,
}

/// Whether a time isn't after another one, where that is known.
pub fn is_not_past(last: Option<u64>, time: u64) -> bool
    ensures { result ≡ not_past last time }
{
    match last {
        Some(last) => time <= last,
        None => true,
    }
}

/// The sooner one, where none is none known.
pub fn sooner(one: Option<u64>, other: Option<u64>) -> Option<u64>
    ensures { result ≡ sooner_end one other }
{
    match one {
        Some(known) => match other {
            Some(time) if known > time => Some(time),
            _ => Some(known),
        },
        None => other,
    }
}

/// With one more moment.
pub fn with_end(points: &Points<'_>, first: Option<PointSide>, later: Later) -> Later
    requires { IfSome first (λ s. IsSome (leg_row points.now s.point)) }
    ensures { result ≡ end_with points.now first later }
{
    match first {
        Some(side) => Later {
            some: true,
            last: sooner(later.last, points.end(side)),
        },
        None => later,
    }
}

/// Adds a number, if it isn't the one that is left out.
pub fn add_other(list: &mut Vec<u32>, own: u32, number: u32) -> Result<(), OutOfMemory>
    ensures { OnOk result (AddsOthers own (Member (number ∷ [])) list.old.items list.new.items) }
{
    if number != own {
        list.push(number)?;
    }
    Ok(())
}
