//! What the rules of RV32IMA say of rows, and what that rests on.

use crate::sample::Sample;
use crate::shown::{Value, yes};
use rept_amo::Atomic;
use rept_isa::{Instr, StepRow};
use rept_partial::{Flat, Partial};
use rept_reason::Cell;
use rept_rules::{Conclusion, RegisterAt, RowRules, Side, When, forward, solve};
use std::alloc::{AllocError, Global};
use test_kit::Numbers;

/// What is known of x5 and x6 before a row, of x7 after it, and of the word at 0x20000 before and
/// after it.
fn view_of(n: &Numbers) -> Sample {
    Sample {
        first: n.known(3),
        second: n.known(4),
        outcome: n.known(5),
        before: n.known(6),
        after: n.known(7),
    }
}

pub fn answer(
    alloc: Global,
    asked: &str,
    n: &Numbers,
    row: &StepRow,
) -> Result<String, AllocError> {
    match asked {
        "result" => result(alloc, &row.instr, n),
        "operand" => operands(alloc, &row.instr, n),
        "drawn" => inferred(alloc, row, &view_of(n)),
        "rules" => by_rules(alloc, row, &view_of(n)),
        "needs" => needs(alloc, row, &view_of(n), n.known(8)),
        "writes" => writes(alloc, row, &view_of(n), n.word(8)),
        "tells" => tells(alloc, row),
        _ => String::from_str(alloc, "no case"),
    }
}

/// The result of an instruction at 0x10000.
fn result(alloc: Global, instr: &Instr, n: &Numbers) -> Result<String, AllocError> {
    let made = forward(instr, 0x1_0000, Flat::of(n.known(3)), Flat::of(n.known(4)));
    format!(in alloc; "{}", Value(made.as_exact()))
}

/// The first and the second operand of an instruction that has this result, where the other one is
/// known or not.
fn operands(alloc: Global, instr: &Instr, n: &Numbers) -> Result<String, AllocError> {
    let first = solve(instr, Side::First, n.word(3), Flat::of(n.known(4)));
    let second = solve(instr, Side::Second, n.word(3), Flat::of(n.known(4)));
    format!(in alloc;
        "{} and {}",
        Value(first.as_exact()),
        Value(second.as_exact())
    )
}

/// What is concluded of a row.
fn inferred(alloc: Global, row: &StepRow, view: &Sample) -> Result<String, AllocError> {
    let mut rules = Atomic::new();
    let inferred = rules.infer(alloc, row, view);
    format!(in alloc; "{:?}", inferred.as_slice())
}

/// The value that a rule gives a register, or the word that its four bytes at 0x20000 make.
fn value_by(inferred: &[Conclusion], rule: u8) -> Option<u32> {
    let mut value = 0;
    let mut found = None;
    for d in inferred {
        if d.rule == rule {
            match d.cell {
                Cell::Register(_) => {
                    value = d.value;
                }
                Cell::Byte(a) => {
                    value |= d.value << (8 * (a % 4));
                }
            }
            found = Some(value);
        }
    }
    found
}

/// Whether nothing is concluded, and what the rules 19 to 24 give.
fn by_rules(alloc: Global, row: &StepRow, view: &Sample) -> Result<String, AllocError> {
    let mut rules = Atomic::new();
    let inferred = rules.infer(alloc, row, view);
    let is_empty = inferred.as_slice().is_empty();
    let values = six(inferred.as_slice());
    format!(in alloc; "{is_empty:?} {values:?}")
}

fn six(inferred: &[Conclusion]) -> [Option<u32>; 6] {
    let mut values = [None; 6];
    for k in 0..6u8 {
        values[usize::from(k)] = value_by(inferred, 19 + k);
    }
    values
}

/// What the first conclusion by a rule, or by any, rests on.
fn needs(
    alloc: Global,
    row: &StepRow,
    view: &Sample,
    rule: Option<u32>,
) -> Result<String, AllocError> {
    let mut rules = Atomic::new();
    let inferred = rules.infer(alloc, row, view);
    for d in inferred.as_slice() {
        if rule.is_none() || rule == Some(u32::from(d.rule)) {
            return format!(in alloc; "{:?}", Atomic::needs(alloc, row, view, d).as_slice());
        }
    }
    String::from_str(alloc, "no conclusion")
}

/// Whether the row may write the byte, whether it is sure, and how many places it has.
fn writes(alloc: Global, row: &StepRow, view: &Sample, a: u32) -> Result<String, AllocError> {
    let hit = yes(Atomic::touched(row, view, 0x3_0000).may_hit(a));
    let sure = yes(Atomic::sure(row, view));
    format!(in alloc; "{hit}, sure {sure}, places {}", Atomic::places(row))
}

/// How many registers tell what a row writes, and the first two.
fn tells(alloc: Global, row: &StepRow) -> Result<String, AllocError> {
    let tells = Atomic::tells(alloc, row);
    let tells = tells.as_slice();
    format!(in alloc; "{} {:?} {:?}", tells.len(), told(tells, 0), told(tells, 1))
}

fn told(tells: &[RegisterAt], k: usize) -> Option<(When, u8)> {
    if k < tells.len() {
        Some((tells[k].when, tells[k].register.number()))
    } else {
        None
    }
}
