//! Findings of a path of two steps that are what they are made of.

ghost use Rattle.std.specs.Prelude.{◌≡◌, ◌<◌, ◌==◌, ◌∷◌, [], IfOk, None, Some, length, map, nat_lt, if◌then◌else◌};
ghost use Rattle.std.specs.Option.{option_map};
ghost use Rattle.rept_elf.specs.Symbols.{symbol_of};
ghost use Rattle.rept_report.specs.declared.writer.Writer.TheVariants as writers;

use rept_elf::Symbol;
use rept_findings::{BeyondRule, Findings, KnownBeyond, Place, ThreadPlace, ThreadPoint};
use rept_isa::{ImmOp, Instr, Reg, StepRow};
use rept_partial::Range;
use rept_reason::{Cell, Fact, RangePremise, Reason};
use rept_report::{Counts, Writer};
use rept_word::{OutOfMemory, is_word};
use std::alloc::{AllocError, Global};

/// The findings: x5 is known from point 1 on, the bytes below address 16 are their addresses, and
/// the second step may write any byte. What is known at point 2 was inferred beyond the report.
#[derive(Drop)]
pub struct Fixed {
    pub rows: [StepRow; 2],
    pub range: Range,
    pub note: Option<(u32, u32)>,
    pub counts: Counts,
    pub beyond: Option<KnownBeyond>,
}

impl Findings for Fixed {
    ghost use Rattle.std.specs.Prelude.{None, Some, [], ◌∷◌, nat_lt, ◌==◌, codes, if◌then◌else◌};
    ghost use Rattle.std.specs.Str.{bytes_eq};
    ghost use Rattle.rept_report.specs.declared.writer.Writer.TheVariants as writers;
    ghost use Rattle.rept_findings.specs.declared.place.Place.TheVariants as places;

    ghost shown = { λ f. record { threads = 1; process = λ t. 1; rows = λ t. f.rows; end_pc = λ t. 65544; first = λ t. 0; points = 3; point = λ p. record { thread = 0; point = p }; moments = 3; moment = λ p. p; place = λ m. record { thread = 0; place = places.Point m }; register = λ point r. if point == 0 then None else Some 43981; range = λ point r. f.range; note = λ point r. f.note; byte = λ point a. if nat_lt a 16 then Some a else None; writer = λ point a. if nat_lt point 2 then writers.None else writers.MayWrite 1; is_inferred = λ p c. p == 2; beyond = f.beyond; code = λ a. if a == 65536 then Some 19 else None; counts = f.counts; symbol = λ a. if a == 65540 then Some (record { name = 102 ∷ 7 ∷ []; value = 65536 }) else None; address_named = λ name. if bytes_eq name (codes "ports") then Some 8 else None } };

    ghost reasons = { λ f fact why. Unit {0} };

    fn threads(&self) -> u32 {
        1
    }

    fn process(&self, _thread: u32) -> u32 {
        1
    }

    fn rows(&self, _thread: u32) -> &[StepRow] {
        &self.rows
    }

    fn end_pc(&self, _thread: u32) -> u32 {
        0x10008
    }

    fn first(&self, _thread: u32) -> u32 {
        // for the proof alone
        let _two: &[StepRow] = &self.rows;
        0
    }

    fn points(&self) -> u32 {
        3
    }

    fn point(&self, number: u32) -> ThreadPoint {
        ThreadPoint {
            thread: 0,
            point: number,
        }
    }

    fn moment(&self, point: u32) -> u32 {
        point
    }

    fn place(&self, moment: u32) -> ThreadPlace {
        ThreadPlace {
            thread: 0,
            place: Place::Point(moment),
        }
    }

    fn reg(&self, point: u32, _register: Reg) -> Option<u32> {
        if point == 0 { None } else { Some(0xabcd) }
    }

    fn range(&self, _point: u32, _register: Reg) -> Range {
        self.range
    }

    fn note(&self, _point: u32, _register: Reg) -> Option<(u32, u32)> {
        self.note
    }

    fn byte(&self, _moment: u32, address: u32) -> Option<u8> {
        if address < 16 {
            Some(address as u8)
        } else {
            None
        }
    }

    fn code(&self, address: u32) -> Option<u8> {
        if address == 0x10000 { Some(0x13) } else { None }
    }

    fn writer(&self, moment: u32, _address: u32) -> Writer {
        last_writer(moment)
    }

    fn counts(&self) -> Counts {
        self.counts
    }

    fn symbols(
        &self,
        alloc: Global,
        addresses: &[u32],
    ) -> Result<Vec<Option<Symbol<'_>>>, OutOfMemory> {
        let mut found = Vec::new(alloc);
        for address in addresses {
            found.push(function_at(*address))?;
        }
        Ok(found)
    }

    fn beyond(&self) -> Option<KnownBeyond> {
        self.beyond
    }

    fn rule(&self, _number: u32, cell: Cell) -> BeyondRule {
        match cell {
            Cell::Register(_) => BeyondRule::Class,
            Cell::Byte(_) => BeyondRule::FirstMemory,
        }
    }

    fn address_named(&self, name: &[u8]) -> Option<u32> {
        if is_word(name, b"ports") {
            Some(8)
        } else {
            None
        }
    }

    fn is_inferred(&self, number: u32, _cell: Cell) -> bool {
        number == 2
    }

    fn why(&self, alloc: Global, fact: Fact) -> Result<Option<Reason>, OutOfMemory> {
        let mut reason = Reason::new(alloc, 10);
        let looked = RangePremise {
            point: fact.point,
            reg: x(6),
            range: self.range,
        };
        if let Err(_) = reason.premises.push(fact) {
            return Err(AllocError);
        }
        if let Err(_) = reason.ranges.push(looked) {
            return Err(AllocError);
        }
        Ok(Some(reason))
    }
}

/// The second step, after it.
fn last_writer(moment: u32) -> Writer
    ensures { result ≡ (if nat_lt moment 2 then writers.None else writers.MayWrite 1) }
{
    if moment < 2 {
        Writer::None
    } else {
        Writer::MayWrite(1)
    }
}

/// The function `f` and a byte that is no visible character, which begins at 0x10000 and has the
/// address 0x10004 alone.
fn function_at<'a>(address: u32) -> Option<Symbol<'a>>
    ensures { option_map symbol_of result ≡ (if address == 65540 then Some (record { name = 102 ∷ 7 ∷ []; value = 65536 }) else None) }
{
    if address == 0x10004 {
        Some(Symbol {
            name: b"f\x07",
            value: 0x10000,
        })
    } else {
        None
    }
}

/// The functions of addresses of which none has one.
pub fn unnamed<'a>(alloc: Global, addresses: &[u32]) -> Result<Vec<Option<Symbol<'a>>>, OutOfMemory>
    ensures { IfOk result (λ found. map (option_map symbol_of) found.items ≡ map (λ address. None) addresses.now) }
{
    let mut found = Vec::new(alloc);
    for _ in addresses {
        found.push(None)?;
    }
    Ok(found)
}

/// A register by its number.
pub fn x(number: u8) -> Reg
    requires { number < 32 }
    ensures { result ≡ number }
{
    Reg::new(number).unwrap()
}

pub fn two_steps() -> Fixed
    ensures { length result.rows ≡ 2 }
{
    let decrement = Instr::Imm {
        op: ImmOp::Addi,
        rd: x(5),
        rs1: x(6),
        imm: -1,
    };
    Fixed {
        rows: [
            StepRow {
                at: 0x10000,
                instr: decrement,
                next: 0x10004,
                call: false,
                short: false,
            },
            StepRow {
                at: 0x10004,
                instr: Instr::Ecall,
                next: 0x10008,
                call: true,
                short: false,
            },
        ],
        range: Range::new(16, u32::MAX),
        note: None,
        counts: Counts {
            steps: 2,
            calls: 1,
            registers: 30,
            exact: 4,
            inexact: 5,
        },
        beyond: None,
    }
}
