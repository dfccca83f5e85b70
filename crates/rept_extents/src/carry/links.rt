//! Which numbers are next to each, and to which ones each is next.

ghost use Rattle.std.specs.Prelude.{◌≡◌, ◌≤◌, ◌<◌, [], length, IfOk, OnOk};
ghost use Rattle.std.specs.List.{All, Contains};
ghost use Rattle.rept_report.specs.Moments.{AreMoments};
ghost use Rattle.rept_report.specs.Timeline.{IsLeastFrom, IsGreatestTo};
ghost use Rattle.rept_moments.specs.Courses.{seen_in};
ghost use Rattle.rept_extents.specs.Carry.Links.{listed, HasNoLinks, AddsAt, AreNone, AreRoomFor, AreLinks, AddsPairs, IsPair, IsPairOf, IsNextOf};

use crate::carry::rising::Rising;
use rept_moments::NumberedRun;
use std::alloc::{AllocError as OutOfMemory, Global};

/// The numbers next to each number, and those to which each is next.
#[derive(Drop)]
pub struct Links {
    /// The numbers next to each.
    pub onward: Vec<Rising>,
    /// The numbers to which each is next.
    pub back: Vec<Rising>,
}

/// Lists of this number, all of them empty.
fn empty(alloc: Global, count: usize) -> Result<Vec<Rising>, OutOfMemory>
    ensures { IfOk result (λ v. HasNoLinks count v.items) }
{
    let mut lists = Vec::new(alloc);
    for _list in 0..count {
        lists.push(Rising::none(alloc))?;
    }
    Ok(lists)
}

/// Adds a number to the list of another one.
fn add_at(lists: &mut Vec<Rising>, at: u32, number: u32) -> Result<(), OutOfMemory>
    requires { at < length lists.old.items }
    ensures count { length lists.new.items ≡ length lists.old.items }
    ensures adds { OnOk result (AddsAt at number lists.old.items lists.new.items) }
{
    let list = &mut lists[at as usize];
    list.add(number)?;
    Ok(())
}

/// The least number from one on in the list of another one.
fn least_at(lists: &[Rising], at: u32, least: u32) -> Option<u32>
    ensures { IsLeastFrom (Contains (listed lists.now at)) least result }
{
    match lists.get(at as usize) {
        Some(list) => list.from(least),
        None => None,
    }
}

/// The greatest number up to one in the list of another one.
fn greatest_at(lists: &[Rising], at: u32, most: u32) -> Option<u32>
    ensures { IsGreatestTo (Contains (listed lists.now at)) most result }
{
    match lists.get(at as usize) {
        Some(list) => list.to(most),
        None => None,
    }
}

/// Links among so many numbers, of which there are none.
fn unlinked(alloc: Global, count: usize) -> Result<Links, OutOfMemory>
    ensures { IfOk result (AreNone count) }
{
    let onward = empty(alloc, count)?;
    let back = empty(alloc, count)?;
    Ok(Links { onward, back })
}

impl Links {
    /// No links among no numbers. It takes no memory.
    pub fn none(alloc: Global) -> Links {
        Links {
            onward: Vec::new(alloc),
            back: Vec::new(alloc),
        }
    }

    /// Links a number to another one.
    fn add(&mut self, from: u32, to: u32) -> Result<(), OutOfMemory>
        requires from { from < length self.old.onward.items }
        requires to { to < length self.old.back.items }
        ensures onward { length self.new.onward.items ≡ length self.old.onward.items }
        ensures back { length self.new.back.items ≡ length self.old.back.items }
        ensures adds { OnOk result (AddsPairs (IsPair from to) self.old self.new) }
    {
        add_at(&mut self.onward, from, to)?;
        add_at(&mut self.back, to, from)?;
        Ok(())
    }

    /// Links a number to others.
    fn add_all(&mut self, from: u32, list: &[u32]) -> Result<(), OutOfMemory>
        requires from { from < length self.old.onward.items }
        requires to { All (λ to. to < length self.old.back.items) list.now }
        ensures onward { length self.new.onward.items ≡ length self.old.onward.items }
        ensures back { length self.new.back.items ≡ length self.old.back.items }
        ensures adds { OnOk result (AddsPairs (IsPairOf from list.now) self.old self.new) }
    {
        for to in list {
            self.add(from, *to)?;
        }
        Ok(())
    }

    /// Links a number to those next to it, by a list that is lent.
    fn add_nexts(
        &mut self,
        course: &NumberedRun<'_>,
        from: u32,
        list: &mut Vec<u32>,
    ) -> Result<(), OutOfMemory>
        requires inside { from ≤ (seen_in course.now).moments.end }
        requires laws { AreMoments (seen_in course.now).legs (seen_in course.now).moments }
        requires room { AreRoomFor (seen_in course.now).moments self.old }
        ensures room { OnOk result (AreRoomFor (seen_in course.now).moments self.new) }
        ensures adds { OnOk result (AddsPairs (IsNextOf (seen_in course.now).moments from) self.old self.new) }
    {
        list.clear();
        course.add_nexts(from, list)?;
        self.add_all(from, list.as_slice())?;
        Ok(())
    }

    /// The links of a course. It takes memory for two lists a number and for two entries a link.
    pub fn new(alloc: Global, course: &NumberedRun<'_>) -> Result<Links, OutOfMemory>
        requires laws { AreMoments (seen_in course.now).legs (seen_in course.now).moments }
        ensures { IfOk result (AreLinks (seen_in course.now).moments) }
    {
        let end = course.end();
        let mut links = unlinked(alloc, end as usize + 1)?;
        let mut list = Vec::new(alloc);
        for from in 0..end {
            links.add_nexts(course, from, &mut list)?;
        }
        links.add_nexts(course, end, &mut list)?;
        Ok(links)
    }

    /// The least number from one on that is next to a number.
    pub fn next_from(&self, number: u32, least: u32) -> Option<u32>
        ensures { IsLeastFrom (Contains (listed self.now.onward.items number)) least result }
    {
        least_at(self.onward.as_slice(), number, least)
    }

    /// The greatest number up to one that is next to a number.
    pub fn next_to(&self, number: u32, most: u32) -> Option<u32>
        ensures { IsGreatestTo (Contains (listed self.now.onward.items number)) most result }
    {
        greatest_at(self.onward.as_slice(), number, most)
    }

    /// The least number from one on to which a number is next.
    pub fn previous_from(&self, number: u32, least: u32) -> Option<u32>
        ensures { IsLeastFrom (Contains (listed self.now.back.items number)) least result }
    {
        least_at(self.back.as_slice(), number, least)
    }

    /// The greatest number up to one to which a number is next.
    pub fn previous_to(&self, number: u32, most: u32) -> Option<u32>
        ensures { IsGreatestTo (Contains (listed self.now.back.items number)) most result }
    {
        greatest_at(self.back.as_slice(), number, most)
    }
}
