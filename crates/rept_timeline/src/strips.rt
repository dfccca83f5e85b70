//! Strips: numbers of a line one after the other, between which the same may act.

ghost use Rattle.std.specs.Prelude.{◌≡◌, ◌≤◌, ◌<◌, ◌+◌, ℕ, [], true, false, length, IfOk, IfSome, IsSome, Some, None, slice_get};
ghost use Rattle.rept_report.specs.Timeline.{IsJoined, MayActToo, IsCut, IsStrip};
ghost use Rattle.rept_moments.specs.Several.{seen_of};
ghost use Rattle.rept_moments.specs.Between.{IsOwnBetween};
ghost use Rattle.rept_extents.specs.Timelines.{as_timeline};
ghost use Rattle.rept_timeline.specs.Listed.{AreStoring, AreLinesOf};
ghost use Rattle.rept_timeline.specs.Strips.{AreTwo, DoRowsStay, IsCrossing, IsHint, IsOfOtherThread, IsOtherActing, IsOwnQuiet, IsPart, IsLonger, IsSteady, IsStill, AreStripsBelow, AreManyStrips};

use crate::opening::{last_of, rest_from};
use crate::storing::Storing;
use rept_extents::Lines;
use rept_moments::Many;
use rept_report::paths::Strip;
use std::alloc::{AllocError as OutOfMemory, Global};
use std::marker::Model;

/// The strip of each number. Contracts see a list.
#[derive(Drop)]
pub struct Strips {
    list: Vec<Strip>,
}

impl Model for Strips {
    ghost use Rattle.std.specs.Prelude.{List};
    ghost use Rattle.rept_report.specs.declared.paths.Strip.{Strip};

    ghost Value = { List Strip };

    ghost view = { λ s. s.list.items };
}

/// What was found at a number before, with which a search begins.
#[derive(Clone, Copy)]
pub struct Hint {
    /// A row that might act there.
    pub row: Option<u32>,
    /// The number, where no row might act there but those before which it lies.
    pub still: Option<u32>,
}

/// What is between a number and the one after it.
#[derive(Clone, Copy)]
pub struct Crossing {
    /// Whether more may act than a row before which the number lies.
    pub is_crossed: bool,
    /// What was found there, or before.
    pub hint: Hint,
}

/// Whether a row may act between a number and the one after it, and the number doesn't lie before
/// it.
fn does_may_act(many: &Many<'_>, number: u32, row: u32) -> bool
    requires inside { number < (seen_of many.now).moments.end }
    requires next { (seen_of many.now).moments.next number (number + 1) ≡ true }
    requires row { IsSome ((seen_of many.now).legs.row row) }
    ensures { result ≡ true → IsOfOtherThread (as_timeline (seen_of many.now)) number row }
{
    // for the proof alone
    let _end = many.end();
    if many.before(row) == number {
        return false;
    }
    many.may_act(row, number, number + 1)
}

/// The row that might act before, if it may act here too.
fn acting_again(many: &Many<'_>, number: u32, hint: Hint) -> Option<u32>
    requires inside { number < (seen_of many.now).moments.end }
    requires next { (seen_of many.now).moments.next number (number + 1) ≡ true }
    requires hint { IsHint many.now hint }
    ensures { IfSome result (λ i. IsOfOtherThread (as_timeline (seen_of many.now)) number i) }
{
    match hint.row {
        Some(row) => {
            if does_may_act(many, number, row) {
                Some(row)
            } else {
                None
            }
        }
        None => None,
    }
}

/// Whether by the times no other row may act here, as none did at another number.
fn is_still_too(storing: &Storing, many: &Many<'_>, number: u32, still: u32) -> bool
    requires listed { ∥ AreStoring many.now storing.now ∥₁ }
    requires inside { number < (seen_of many.now).moments.end }
    requires next { (seen_of many.now).moments.next number (number + 1) ≡ true }
    requires apart { IsOwnBetween many.now number (number + 1) None }
    requires still { IsStill many.now still }
    ensures { result ≡ true → IsStill many.now number }
{
    // for the proof alone
    let _end = many.end();
    if !many.are_together(still, number) {
        return false;
    }
    if !many.are_together(number, number + 1) {
        return false;
    }
    many.are_together(still, still + 1)
}

/// Whether by the times no other row may act here, as none did at the number of the hint, where it
/// names one.
fn is_still(storing: &Storing, many: &Many<'_>, number: u32, hint: Hint) -> bool
    requires listed { ∥ AreStoring many.now storing.now ∥₁ }
    requires inside { number < (seen_of many.now).moments.end }
    requires next { (seen_of many.now).moments.next number (number + 1) ≡ true }
    requires apart { IsOwnBetween many.now number (number + 1) None }
    requires hint { IsHint many.now hint }
    ensures { result ≡ true → IsStill many.now number }
{
    match hint.still {
        Some(still) => is_still_too(storing, many, number, still),
        None => false,
    }
}

/// The first row that may act between a number and the one after it, but for those before which the
/// number lies.
fn first_other(storing: &Storing, many: &Many<'_>, number: u32) -> Option<u32>
    requires listed { ∥ AreStoring many.now storing.now ∥₁ }
    requires inside { number < (seen_of many.now).moments.end }
    requires next { (seen_of many.now).moments.next number (number + 1) ≡ true }
    requires apart { IsOwnBetween many.now number (number + 1) None }
    ensures { IsOtherActing many.now number result }
{
    // for the proof alone
    let _end = many.end();
    let _last = many.last_point();
    let mut from = 0;
    loop {
        let row = match rest_from(storing, many, number, number + 1, from) {
            Some(row) => row,
            None => return None,
        };
        if many.before(row) != number {
            return Some(row);
        }
        from = row + 1;
    }
}

/// One of those rows.
fn other_acting(storing: &Storing, many: &Many<'_>, number: u32, hint: Hint) -> Option<u32>
    requires listed { ∥ AreStoring many.now storing.now ∥₁ }
    requires inside { number < (seen_of many.now).moments.end }
    requires next { (seen_of many.now).moments.next number (number + 1) ≡ true }
    requires apart { IsOwnBetween many.now number (number + 1) None }
    requires hint { IsHint many.now hint }
    ensures { IsOtherActing many.now number result }
{
    match acting_again(many, number, hint) {
        Some(row) => Some(row),
        None => {
            if is_still(storing, many, number, hint) {
                return None;
            }
            first_other(storing, many, number)
        }
    }
}

/// What is between a number and the one after it, where these aren't the moments of one row, and
/// all that writes is told.
fn row_crossing(storing: &Storing, many: &Many<'_>, number: u32, hint: Hint) -> Crossing
    requires listed { ∥ AreStoring many.now storing.now ∥₁ }
    requires inside { number < (seen_of many.now).moments.end }
    requires next { (seen_of many.now).moments.next number (number + 1) ≡ true }
    requires apart { IsOwnBetween many.now number (number + 1) None }
    requires light { (seen_of many.now).moments.untraced number (number + 1) ≡ false }
    requires hint { IsHint many.now hint }
    ensures { IsCrossing many.now number result }
{
    match other_acting(storing, many, number, hint) {
        Some(row) => Crossing {
            is_crossed: true,
            hint: Hint {
                row: Some(row),
                still: None,
            },
        },
        None => Crossing {
            is_crossed: false,
            hint: Hint {
                row: None,
                still: Some(number),
            },
        },
    }
}

/// What is between a number and the one after it.
fn crossing_at(storing: &Storing, many: &Many<'_>, number: u32, hint: Hint) -> Crossing
    requires listed { ∥ AreStoring many.now storing.now ∥₁ }
    requires inside { number < (seen_of many.now).moments.end }
    requires next { (seen_of many.now).moments.next number (number + 1) ≡ true }
    requires hint { IsHint many.now hint }
    ensures { IsCrossing many.now number result }
{
    // for the proof alone
    let _end = many.end();
    match many.row_between(number, number + 1) {
        Some(_own) => Crossing {
            is_crossed: false,
            hint,
        },
        None => {
            if many.is_untraced_between(number, number + 1) {
                return Crossing {
                    is_crossed: true,
                    hint,
                };
            }
            row_crossing(storing, many, number, hint)
        }
    }
}

/// Whether the row before which a number lies, if it lies before one, writes memory.
fn does_own_store(many: &Many<'_>, number: u32) -> bool
    ensures { result ≡ false → IsOwnQuiet many.now number }
{
    match many.row_at(number) {
        Some(row) => many.stores(row),
        None => false,
    }
}

/// Whether by the times all rows that may act at the pause stay until a later number.
fn is_steady(many: &Many<'_>, pause: u32, number: u32) -> bool
    requires two { AreTwo many.now pause number }
    ensures { result ≡ true → IsSteady many.now pause number }
{
    // for the proof alone
    let _end = many.end();
    if does_own_store(many, pause) {
        return false;
    }
    if !many.are_together(pause, number) {
        return false;
    }
    many.are_together(pause, pause + 1)
}

/// Whether no row that may act at the pause lies wholly before a later number.
fn do_rows_stay(storing: &Storing, many: &Many<'_>, pause: u32, number: u32) -> bool
    requires listed { ∥ AreStoring many.now storing.now ∥₁ }
    requires two { AreTwo many.now pause number }
    ensures yes { result ≡ true → DoRowsStay (as_timeline (seen_of many.now)) pause number }
    ensures no { result ≡ false → MayActToo (as_timeline (seen_of many.now)) pause number → ⊥ }
{
    // for the proof alone
    let _end = many.end();
    if is_steady(many, pause, number) {
        return true;
    }
    let mut from = 0;
    loop {
        let row = match rest_from(storing, many, pause, pause + 1, from) {
            Some(row) => row,
            None => return true,
        };
        if many.is_past(row, number) {
            return false;
        }
        from = last_of(many, row);
    }
}

/// Whether writers that aren't told may act between a later number and the one after it, if they do
/// at the pause.
fn does_untraced_stay(many: &Many<'_>, pause: u32, number: u32) -> bool
    requires two { AreTwo many.now pause number }
    ensures yes { result ≡ true → (seen_of many.now).moments.untraced pause (pause + 1) ≡ true → (seen_of many.now).moments.untraced number (number + 1) ≡ true }
    ensures no { result ≡ false → MayActToo (as_timeline (seen_of many.now)) pause number → ⊥ }
{
    // for the proof alone
    let _end = many.end();
    if many.is_untraced_between(pause, pause + 1) {
        many.is_untraced_between(number, number + 1)
    } else {
        true
    }
}

/// Whether all that may act at the pause may act between a later number and the one after it.
fn stays(storing: &Storing, many: &Many<'_>, pause: u32, number: u32) -> bool
    requires listed { ∥ AreStoring many.now storing.now ∥₁ }
    requires two { AreTwo many.now pause number }
    ensures yes { result ≡ true → MayActToo (as_timeline (seen_of many.now)) pause number }
    ensures no { result ≡ false → MayActToo (as_timeline (seen_of many.now)) pause number → ⊥ }
{
    if !does_untraced_stay(many, pause, number) {
        return false;
    }
    do_rows_stay(storing, many, pause, number)
}

/// Whether all that may act at the pause, if there is one, may act between a later number and the
/// one after it.
fn stays_if(storing: &Storing, many: &Many<'_>, pause: Option<u32>, number: u32) -> bool
    requires listed { ∥ AreStoring many.now storing.now ∥₁ }
    requires two { (p : ℕ) → pause ≡ Some p → AreTwo many.now p number }
    ensures yes { result ≡ true → (p : ℕ) → pause ≡ Some p → MayActToo (as_timeline (seen_of many.now)) p number }
    ensures no { result ≡ false → IsCut (as_timeline (seen_of many.now)) pause number }
{
    match pause {
        None => true,
        Some(pause) => stays(storing, many, pause, number),
    }
}

/// A part of a strip with one number more, if it goes on.
fn longer(storing: &Storing, many: &Many<'_>, strip: Strip, crossing: Crossing) -> Option<Strip>
    requires listed { ∥ AreStoring many.now storing.now ∥₁ }
    requires part { IsPart many.now strip }
    requires inside { strip.last < (seen_of many.now).moments.end }
    requires joined { IsJoined (seen_of many.now).moments strip.last }
    requires crossing { IsCrossing many.now strip.last crossing }
    ensures { IsLonger many.now strip result }
{
    // for the proof alone
    let _end = many.end();
    let last = strip.last;
    if !crossing.is_crossed {
        return Some(Strip {
            first: strip.first,
            last: last + 1,
            pause: strip.pause,
        });
    }
    if !stays_if(storing, many, strip.pause, last) {
        return None;
    }
    Some(Strip {
        first: strip.first,
        last: last + 1,
        pause: Some(last),
    })
}

/// The last number of the line that a number is in.
fn line_end(many: &Many<'_>, lines: &Lines, number: u32) -> u32
    requires lined { AreLinesOf (seen_of many.now).moments lines.now }
    requires inside { number ≤ (seen_of many.now).moments.end }
    ensures from { number ≤ result }
    ensures inside { result ≤ (seen_of many.now).moments.end }
    ensures joined { (k : ℕ) → number ≤ k → k < result → IsJoined (seen_of many.now).moments k }
    ensures ends { IsJoined (seen_of many.now).moments result → ⊥ }
{
    // for the proof alone
    let _end = many.end();
    lines.line(number).last
}

/// The strip that begins at a number.
fn strip_from(storing: &Storing, many: &Many<'_>, lines: &Lines, first: u32) -> Strip
    requires listed { ∥ AreStoring many.now storing.now ∥₁ }
    requires lined { AreLinesOf (seen_of many.now).moments lines.now }
    requires inside { first ≤ (seen_of many.now).moments.end }
    ensures { IsStrip (as_timeline (seen_of many.now)) first result }
{
    let last = line_end(many, lines, first);
    let mut strip = Strip {
        first,
        last: first,
        pause: None,
    };
    let mut hint = Hint {
        row: None,
        still: None,
    };
    while strip.last < last {
        let next = crossing_at(storing, many, strip.last, hint);
        hint = next.hint;
        match longer(storing, many, strip, next) {
            Some(more) => strip = more,
            None => return strip,
        }
    }
    strip
}

/// The strip of the number after one, from the strip of that.
fn strip_after(
    storing: &Storing,
    many: &Many<'_>,
    lines: &Lines,
    strip: Strip,
    number: u32,
) -> Strip
    requires listed { ∥ AreStoring many.now storing.now ∥₁ }
    requires lined { AreLinesOf (seen_of many.now).moments lines.now }
    requires inside { number < (seen_of many.now).moments.end }
    requires strip { IsStrip (as_timeline (seen_of many.now)) number strip }
    ensures { IsStrip (as_timeline (seen_of many.now)) (number + 1) result }
{
    // for the proof alone
    let _end = many.end();
    if number < strip.last {
        strip
    } else {
        strip_from(storing, many, lines, number + 1)
    }
}

impl Strips {
    /// No strips. It takes no memory.
    pub fn none(alloc: Global) -> Strips
        ensures { result ≡ [] }
    {
        Strips {
            list: Vec::new(alloc),
        }
    }

    /// Those of several threads. It takes memory for one entry a number.
    pub fn new(
        alloc: Global,
        storing: &Storing,
        many: &Many<'_>,
        lines: &Lines,
    ) -> Result<Strips, OutOfMemory>
        requires listed { ∥ AreStoring many.now storing.now ∥₁ }
        requires lined { AreLinesOf (seen_of many.now).moments lines.now }
        ensures { IfOk result (λ s. AreManyStrips many.now s) }
    {
        let mut list = Vec::new(alloc);
        let mut strip = strip_from(storing, many, lines, 0);
        for number in 0..many.end() {
            list.push(strip)?;
            strip = strip_after(storing, many, lines, strip, number);
        }
        list.push(strip)?;
        Ok(Strips { list })
    }

    /// The strip of a number.
    pub fn strip(&self, number: u32) -> Strip
        requires { number < length self.now }
        ensures { slice_get self.now number ≡ Some result }
    {
        self.list[number as usize]
    }
}
