//! Findings of two threads that both write one byte.

ghost use Rattle.std.specs.Prelude.{◌≡◌, ◌<◌, ◌==◌, length, if◌then◌else◌};
ghost use Rattle.rept_report.specs.declared.writer.Writer.TheVariants as writers;

use crate::fixed::{unnamed, x};
use rept_elf::Symbol;
use rept_findings::{BeyondRule, Findings, KnownBeyond, Place, ThreadPlace, ThreadPoint};
use rept_isa::{ImmOp, Instr, Reg, StepRow, StoreOp};
use rept_partial::Range;
use rept_reason::{Cell, Fact, RangePremise, Reason};
use rept_report::{Counts, Writer};
use rept_word::OutOfMemory;
use std::alloc::{AllocError, Global};

/// What is known of two threads, by hand. The processes 1 and 2 run the same four steps, of which
/// the second writes x6 to 0x20000; the trace of process 2 ends after it. Thread 0 has the slices 1
/// to 3 (a step), 3 to 9 (two steps) and from 9 on (a step), thread 1 the slices 1 to 4 and 4 to 8
/// (a step each), and no step is traced before time 1. At the end x5 is 0x20000, x6 is 9 in thread
/// 0 and 8 in thread 1, the other registers are 0, and 0x20000 holds 9.
///
/// So the two stores aren't ordered, and the last step of thread 0 comes after both. The points 0
/// to 4 of thread 0 have the numbers 0 to 4, those of thread 1 the numbers 5 to 7. Moments 0 to 3
/// are those at thread 0's points 0 to 3, moment 4 is the end, moments 5 and 6 are those at thread
/// 1's points 0 and 1, and moment 7 is the one after its last step, which isn't the end, since
/// thread 0 may write between them.
#[derive(Drop)]
pub struct TwoThreads {
    first: [StepRow; 4],
    second: [StepRow; 2],
    range: Range,
    counts: Counts,
}

impl Findings for TwoThreads {
    ghost use Rattle.std.specs.Prelude.{None, Some, false, ◌+◌, ◌-◌, nat_lt, ◌==◌, if◌then◌else◌};
    ghost use Rattle.rept_report.specs.declared.writer.Writer.TheVariants as writers;
    ghost use Rattle.rept_findings.specs.declared.place.Place.TheVariants as places;

    ghost shown = { λ f. record { threads = 2; process = λ t. t + 1; rows = λ t. if t == 0 then f.first else f.second; end_pc = λ t. if t == 0 then 65552 else 65544; first = λ t. if t == 0 then 0 else 5; points = 8; point = λ p. if nat_lt p 5 then record { thread = 0; point = p } else record { thread = 1; point = p - 5 }; register = λ p r. if r == 5 then Some 131072 else if r == 6 then Some (if nat_lt p 5 then 9 else 8) else Some 0; range = λ p r. f.range; note = λ p r. None; moments = 8; moment = λ p. if p == 7 then 4 else p; place = λ m. if nat_lt m 4 then record { thread = 0; place = places.Point m } else if m == 4 then record { thread = 0; place = places.End } else if m == 7 then record { thread = 1; place = places.After 1 } else record { thread = 1; place = places.Point (m - 5) }; byte = λ m a. if a == 131072 then (if m == 3 then Some 9 else if m == 4 then Some 9 else if m == 7 then Some 8 else None) else None; writer = λ m a. if a == 131072 then (if m == 1 then writers.MayWrite 6 else if m == 5 then writers.MayWrite 1 else if m == 6 then writers.MayWrite 1 else writers.Several) else writers.Several; is_inferred = λ p c. false; beyond = None; code = λ a. None; counts = f.counts; symbol = λ a. None; address_named = λ name. None } };

    ghost reasons = { λ f fact why. Unit {0} };

    fn threads(&self) -> u32 {
        2
    }

    fn process(&self, thread: u32) -> u32 {
        thread + 1
    }

    fn rows(&self, thread: u32) -> &[StepRow] {
        if thread == 0 {
            &self.first
        } else {
            &self.second
        }
    }

    fn end_pc(&self, thread: u32) -> u32 {
        if thread == 0 { 0x10010 } else { 0x10008 }
    }

    fn first(&self, thread: u32) -> u32 {
        // for the proof alone
        let _four: &[StepRow] = &self.first;
        let _two: &[StepRow] = &self.second;
        if thread == 0 { 0 } else { 5 }
    }

    fn points(&self) -> u32 {
        8
    }

    fn point(&self, number: u32) -> ThreadPoint {
        if number < 5 {
            ThreadPoint {
                thread: 0,
                point: number,
            }
        } else {
            ThreadPoint {
                thread: 1,
                point: number - 5,
            }
        }
    }

    fn moment(&self, point: u32) -> u32 {
        if point == 7 { 4 } else { point }
    }

    fn place(&self, moment: u32) -> ThreadPlace {
        if moment < 4 {
            placed(0, Place::Point(moment))
        } else if moment == 4 {
            placed(0, Place::End)
        } else if moment == 7 {
            placed(1, Place::After(1))
        } else {
            placed(1, Place::Point(moment - 5))
        }
    }

    fn reg(&self, point: u32, register: Reg) -> Option<u32> {
        if register.number() == 5 {
            Some(0x20000)
        } else if register.number() == 6 {
            Some(if point < 5 { 9 } else { 8 })
        } else {
            Some(0)
        }
    }

    fn range(&self, _point: u32, _register: Reg) -> Range {
        self.range
    }

    fn note(&self, _point: u32, _register: Reg) -> Option<(u32, u32)> {
        None
    }

    fn byte(&self, moment: u32, address: u32) -> Option<u8> {
        if address == 0x20000 {
            if moment == 3 {
                Some(9)
            } else if moment == 4 {
                Some(9)
            } else if moment == 7 {
                Some(8)
            } else {
                None
            }
        } else {
            None
        }
    }

    fn code(&self, _address: u32) -> Option<u8> {
        None
    }

    fn writer(&self, moment: u32, address: u32) -> Writer {
        lengths(&self.first, &self.second);
        last_writer(moment, address)
    }

    fn counts(&self) -> Counts {
        self.counts
    }

    fn symbols(
        &self,
        alloc: Global,
        addresses: &[u32],
    ) -> Result<Vec<Option<Symbol<'_>>>, OutOfMemory> {
        unnamed(alloc, addresses)
    }

    fn beyond(&self) -> Option<KnownBeyond> {
        None
    }

    fn rule(&self, _number: u32, _cell: Cell) -> BeyondRule {
        BeyondRule::Value
    }

    fn address_named(&self, _name: &[u8]) -> Option<u32> {
        None
    }

    fn is_inferred(&self, _number: u32, _cell: Cell) -> bool {
        false
    }

    fn why(&self, alloc: Global, _fact: Fact) -> Result<Option<Reason>, OutOfMemory> {
        let mut reason = Reason::new(alloc, 16);
        let held = register_fact(6);
        let stored = byte_fact(7, 8);
        let last = byte_fact(4, 9);
        if let Err(_) = reason.premises.push(held) {
            return Err(AllocError);
        }
        if let Err(_) = reason.premises.push(stored) {
            return Err(AllocError);
        }
        if let Err(_) = reason.premises.push(last) {
            return Err(AllocError);
        }
        let looked = RangePremise {
            point: 1,
            reg: x(5),
            range: self.range,
        };
        if let Err(_) = reason.ranges.push(looked) {
            return Err(AllocError);
        }
        Ok(Some(reason))
    }
}

/// How many steps the threads have.
fn lengths(first: &[StepRow; 4], second: &[StepRow; 2])
    ensures four { length first.now ≡ 4 }
    ensures two { length second.now ≡ 2 }
{
    // for the proof alone
    let _four: &[StepRow] = first;
    let _two: &[StepRow] = second;
}

/// The other thread's store, where it is the last one that may come before a moment.
fn last_writer(moment: u32, address: u32) -> Writer
    ensures { result ≡ (if address == 131072 then (if moment == 1 then writers.MayWrite 6 else if moment == 5 then writers.MayWrite 1 else if moment == 6 then writers.MayWrite 1 else writers.Several) else writers.Several) }
{
    if address != 0x20000 {
        Writer::Several
    } else if moment == 1 {
        Writer::MayWrite(6)
    } else if moment == 5 {
        Writer::MayWrite(1)
    } else if moment == 6 {
        Writer::MayWrite(1)
    } else {
        Writer::Several
    }
}

fn placed(thread: u32, place: Place) -> ThreadPlace
    ensures { result ≡ record { thread = thread; place = place } }
{
    ThreadPlace { thread, place }
}

fn register_fact(point: u32) -> Fact {
    let cell = Cell::Register(x(5));
    Fact {
        point,
        cell,
        value: 0x20000,
    }
}

fn byte_fact(moment: u32, value: u32) -> Fact {
    let cell = Cell::Byte(0x20000);
    Fact {
        point: moment,
        cell,
        value,
    }
}

/// A step of four bytes that leads to the next address.
fn step(at: u32, instr: Instr) -> StepRow
    requires { at < 131072 }
{
    StepRow {
        at,
        instr,
        next: at + 4,
        call: false,
        short: false,
    }
}

/// `addi x0,x0,0`.
fn nothing() -> Instr {
    Instr::Imm {
        op: ImmOp::Addi,
        rd: x(0),
        rs1: x(0),
        imm: 0,
    }
}

/// `sb x6,0(x5)`.
fn store() -> Instr {
    Instr::Store {
        op: StoreOp::Sb,
        rs1: x(5),
        rs2: x(6),
        imm: 0,
    }
}

pub fn two_threads() -> TwoThreads {
    TwoThreads {
        first: [
            step(0x10000, nothing()),
            step(0x10004, store()),
            step(0x10008, nothing()),
            step(0x1000c, nothing()),
        ],
        second: [step(0x10000, nothing()), step(0x10004, store())],
        range: Range::new(0x20000, 0x20000),
        counts: Counts {
            steps: 6,
            calls: 0,
            registers: 248,
            exact: 2,
            inexact: 0,
        },
    }
}
