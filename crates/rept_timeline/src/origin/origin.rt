//! The nearest moment from which a byte is carried to another one, and the way there.

ghost use Rattle.rept_timeline.specs.Paths.{timeline};
ghost use Rattle.std.specs.Prelude.{◌≡◌, ◌<◌, ◌≤◌, true, Some, IfOk};
ghost use Rattle.rept_report.specs.Nearest.Nets.{IsNearest};
ghost use Rattle.rept_report.specs.Origin.Bridges.{links_over, carries_by, is_nearer, IsLinkBeside, IsNearerAmong};

use crate::RunPaths;
use crate::origin::bridges::Bridges;
use rept_report::nearest::nearest;
use rept_report::{Carriage, Direction, NearestValue, Net, Sources};
use std::alloc::{AllocError as OutOfMemory, Global};

/// Of the moments from which the byte is carried to this one, from one to a next one and on or
/// back, the nearest at which it is known by itself. `None` comes exactly where there is none.
/// `OutOfMemory` says that room for one number each can't be had.
pub fn nearest_origin<S: Sources>(
    alloc: Global,
    paths: &RunPaths<'_>,
    sources: &S,
    number: u32,
) -> Result<Option<NearestValue>, OutOfMemory>
    requires told { (timeline paths.now).legs.count ≤ (S.byte sources.now).rows }
    requires inside { number ≤ (timeline paths.now).moments.end }
    ensures { IfOk result (λ found. IsNearest (links_over (timeline paths.now) (S.byte sources.now)) number found) }
{
    nearest(alloc, &Bridges { paths, sources }, number)
}

/// Whether something was found, fewer links away.
fn is_nearer(found: Option<NearestValue>, links: u32) -> bool
    ensures { result ≡ is_nearer found links }
{
    match found {
        None => false,
        Some(there) => there.links < links,
    }
}

/// The least number from which the byte is carried this way to this one and which is fewer links
/// away from such a moment, if there is one.
fn nearer_by<S: Sources>(
    alloc: Global,
    bridges: &Bridges<'_, S>,
    number: u32,
    links: u32,
    way: Direction,
) -> Result<Option<u32>, OutOfMemory>
    requires { number ≤ (timeline bridges.now.paths.now).moments.end }
    ensures { IfOk result (λ from. IsNearerAmong (λ w. carries_by (timeline bridges.now.paths.now) (S.byte bridges.now.sources.now) number (record { from = w; way = way })) (links_over (timeline bridges.now.paths.now) (S.byte bridges.now.sources.now)) links from) }
{
    let end = bridges.last();
    let mut least = 0;
    while least <= end {
        let Some(from) = bridges.beside_from(way, number, least) else {
            return Ok(None);
        };
        let there = nearest(alloc, bridges, from)?;
        if is_nearer(there, links) {
            return Ok(Some(from));
        }
        least = from + 1;
    }
    Ok(None)
}

/// The step by which the byte is carried to this moment from one that is one step nearer to such a
/// moment, where the nearest is so many steps away, and not none: from the least later one back, or
/// where none is nearer, from the least earlier one on.
pub fn nearer<S: Sources>(
    alloc: Global,
    paths: &RunPaths<'_>,
    sources: &S,
    number: u32,
    found: NearestValue,
) -> Result<Carriage, OutOfMemory>
    requires told { (timeline paths.now).legs.count ≤ (S.byte sources.now).rows }
    requires inside { number ≤ (timeline paths.now).moments.end }
    requires nearest { IsNearest (links_over (timeline paths.now) (S.byte sources.now)) number (Some found) }
    requires far { 0 < found.links }
    ensures carries { IfOk result (λ step. carries_by (timeline paths.now) (S.byte sources.now) number step ≡ true) }
    ensures nearer { IfOk result (λ step. IsLinkBeside (links_over (timeline paths.now) (S.byte sources.now)) number found.links step.from) }
{
    let bridges = Bridges { paths, sources };
    let later = nearer_by(alloc, &bridges, number, found.links, Direction::Back)?;
    match later {
        Some(from) => Ok(Carriage {
            from,
            way: Direction::Back,
        }),
        None => {
            let earlier = nearer_by(alloc, &bridges, number, found.links, Direction::Onward)?;
            Ok(Carriage {
                from: earlier.unwrap(),
                way: Direction::Onward,
            })
        }
    }
}
