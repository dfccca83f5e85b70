//! The points of a thread at which something holds.

ghost use Rattle.std.specs.Prelude.{◌≡◌, ◌++◌, codes, length, nat_lt, reverse, IfOk, OnOk};
ghost use Rattle.std.specs.Fmt.{decimal};
ghost use Rattle.std.specs.List.{find};
ghost use Rattle.rept_findings.specs.Shown.{IsThreadPoint};
ghost use Rattle.rept_questions.specs.Spots.{one_where, point_text, spots_line};
ghost use Rattle.rept_questions.specs.Texts.{find_line, is_held, visits_line};

use rept_findings::findings::{address_at, number_of};
use rept_findings::{Findings, ThreadPoint};
use rept_isa::Reg;
use rept_word::{OutOfMemory, Text};
use std::alloc::Global;

/// The line of the points of a thread at which its path is at an address.
pub fn visits_text<F: Findings>(
    alloc: Global,
    findings: &F,
    at: ThreadPoint,
    address: u32,
) -> Result<Text, OutOfMemory>
    requires { IsThreadPoint (F.shown findings.now) at }
    ensures { IfOk result (λ text. text ≡ visits_line (F.shown findings.now) at address) }
{
    let last = findings.rows(at.thread).len() as u32;
    let mut points = Vec::new(alloc);
    for point in 0..last + 1 {
        let here = ThreadPoint {
            thread: at.thread,
            point,
        };
        push_where(&mut points, point, address_at(findings, here) == address)?;
    }
    spots_text(alloc, points.as_slice(), at.point)
}

/// The line of the points of a thread at which a register is known to have a value.
pub fn find_text<F: Findings>(
    alloc: Global,
    findings: &F,
    at: ThreadPoint,
    register: Reg,
    value: u32,
) -> Result<Text, OutOfMemory>
    requires { IsThreadPoint (F.shown findings.now) at }
    ensures { IfOk result (λ text. text ≡ find_line (F.shown findings.now) at register value) }
{
    let last = findings.rows(at.thread).len() as u32;
    let mut points = Vec::new(alloc);
    for point in 0..last + 1 {
        let here = ThreadPoint {
            thread: at.thread,
            point,
        };
        push_where(&mut points, point, is_held(findings, here, register, value))?;
    }
    spots_text(alloc, points.as_slice(), at.point)
}

/// Whether a register is known to have a value at a point.
fn is_held<F: Findings>(findings: &F, at: ThreadPoint, register: Reg, value: u32) -> bool
    requires { IsThreadPoint (F.shown findings.now) at }
    ensures { result ≡ is_held (F.shown findings.now) at register value }
{
    match findings.reg(number_of(findings, at), register) {
        Some(known) => known == value,
        None => false,
    }
}

/// A point more, where something holds there.
pub fn push_where(points: &mut Vec<u32>, point: u32, holds: bool) -> Result<(), OutOfMemory>
    ensures { OnOk result (points.new.items ≡ points.old.items ++ one_where holds point) }
{
    if holds {
        points.push(point)?;
    }
    Ok(())
}

/// How many points there are, the first and the last of them, the nearest one before a cursor and
/// the next one after it.
fn spots_text(alloc: Global, points: &[u32], cursor: u32) -> Result<Text, OutOfMemory>
    ensures { IfOk result (λ text. text ≡ spots_line points.now cursor) }
{
    let mut text = Text::new(alloc);
    push_count(&mut text, points)?;
    push_point(&mut text, b" first ", points.first().copied())?;
    push_point(&mut text, b" last ", points.last().copied())?;
    push_point(&mut text, b" before ", nearest_before(points, cursor))?;
    push_point(&mut text, b" after ", next_after(points, cursor))?;
    text.push(b"\n")?;
    Ok(text)
}

/// How many points there are.
fn push_count(text: &mut Text, points: &[u32]) -> Result<(), OutOfMemory>
    ensures { OnOk result (text.new ≡ text.old ++ (codes "points " ++ decimal (length points.now))) }
{
    text.push(b"points ")?;
    text.push_count(points.len() as u64)
}

/// Words, and a point or `none`.
pub fn push_point(text: &mut Text, words: &[u8], point: Option<u32>) -> Result<(), OutOfMemory>
    ensures { OnOk result (text.new ≡ text.old ++ (words.now ++ point_text point)) }
{
    text.push(words)?;
    match point {
        Some(point) => text.push_decimal(point),
        None => text.push(b"none"),
    }
}

/// The last one of these points before a cursor.
fn nearest_before(points: &[u32], cursor: u32) -> Option<u32>
    ensures { result ≡ find (λ p. nat_lt p cursor) (reverse points.now) }
{
    let mut nearest = None;
    for point in points {
        if *point < cursor {
            nearest = Some(*point);
        }
    }
    nearest
}

/// The first one of these points after a cursor.
fn next_after(points: &[u32], cursor: u32) -> Option<u32>
    ensures { result ≡ find (λ p. nat_lt cursor p) points.now }
{
    for point in points {
        if *point > cursor {
            return Some(*point);
        }
    }
    None
}
