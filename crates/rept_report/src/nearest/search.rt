//! The search for the nearest number that has a value.

ghost use Rattle.std.specs.Prelude.{◌≡◌, ◌+◌, ◌<◌, ◌≤◌, IfOk};
ghost use Rattle.rept_report.specs.Nearest.Nets.{IsNearest};
ghost use Rattle.rept_report.specs.Nearest.Reached.{AreWithin, IsBall, IsAmong, HasValue, ReachesMore, GrowsBeside, GrowsFrom};

use crate::nearest::found::NearestValue;
use crate::nearest::net::Net;
use crate::nearest::reach::Reach;
use std::alloc::{AllocError as OutOfMemory, Global};

/// The first number from index `start` on that has a value: it is so many links away.
fn value_among<N: Net>(net: &N, reach: &Reach, start: usize, links: u32) -> Option<NearestValue>
    requires { AreWithin (N.links net.now) reach.now.list }
    ensures { HasValue (N.links net.now) reach.now.list start links result }
{
    let end = reach.len();
    for k in start..end {
        let number = reach.at(k);
        if let Some(value) = net.value(number) {
            return Some(NearestValue {
                number,
                value,
                links,
            });
        }
    }
    None
}

/// Adds all numbers to which this one is linked.
fn add_links<N: Net>(net: &N, reach: &mut Reach, number: u32)
    requires number { number ≤ (N.links net.now).last }
    requires few { (N.links net.now).last < 4294967295 }
    requires bound { (N.links net.now).last < reach.old.bound }
    ensures { GrowsFrom (N.links net.now) reach.old reach.new number }
{
    let last = net.last();
    let mut least = 0;
    while least <= last {
        let Some(linked) = net.next_linked(number, least) else {
            return;
        };
        reach.add(linked);
        least = linked + 1;
    }
}

/// Adds all numbers to which those from index `start` on are linked.
fn add_beside<N: Net>(net: &N, reach: &mut Reach, start: usize)
    requires within { AreWithin (N.links net.now) reach.old.list }
    requires few { (N.links net.now).last < 4294967295 }
    requires bound { (N.links net.now).last < reach.old.bound }
    ensures { GrowsBeside (N.links net.now) reach.old reach.new start }
{
    let end = reach.len();
    for k in start..end {
        let number = reach.at(k);
        add_links(net, reach, number);
    }
}

/// The nearest number with a value, from the only one that was reached.
fn search<N: Net>(net: &N, reach: &mut Reach, from: u32) -> Option<NearestValue>
    requires few { (N.links net.now).last < 4294967295 }
    requires bound { reach.old.bound ≡ (N.links net.now).last + 1 }
    requires ball { IsBall (N.links net.now) from reach.old.list 0 0 }
    ensures { IsNearest (N.links net.now) from result }
{
    let mut start = 0;
    let mut links = 0;
    while start < reach.len() {
        let end = reach.len();
        let found = value_among(net, reach, start, links);
        if found.is_some() {
            return found;
        }
        add_beside(net, reach, start);
        start = end;
        links += 1;
    }
    None
}

/// The nearest number with a value, by links from this one: none with a value is fewer links away.
/// `None` comes exactly where no links lead to one. It takes room for one number each, and
/// `OutOfMemory` says that this can't be had. This project's own.
pub fn nearest<N: Net>(
    alloc: Global,
    net: &N,
    from: u32,
) -> Result<Option<NearestValue>, OutOfMemory>
    requires few { (N.links net.now).last < 4294967295 }
    requires from { from ≤ (N.links net.now).last }
    ensures { IfOk result (λ found. IsNearest (N.links net.now) from found) }
{
    let mut reach = Reach::new(alloc, net.last())?;
    reach.add(from);
    Ok(search(net, &mut reach, from))
}
