//! Operations that were done, by their operands, to be found again.

ghost use Rattle.std.specs.Prelude.{◌≡◌, ℕ, ◌<◌, [], true, IfSome, Some, slice_get};
ghost use Rattle.rept_relate.specs.declared.operations.Operation.{Operation};
ghost use Rattle.rept_relate.specs.Relations.{code_of, IsResult, AreResults, AreBelow};

use crate::classes::Term;
use indexmap::IndexMap;
use rept_isa::RegOp;
use std::alloc::Global;
use std::marker::Model;

/// An operation on two terms, and the node of its result.
#[derive(Clone, Copy)]
pub struct Operation {
    /// what was done
    pub op: RegOp,
    /// the term in the place of rs1
    pub first: Term,
    /// the term in the place of rs2
    pub second: Term,
    /// the node of the result
    pub node: u32,
}

/// The number of an operation.
fn code(op: RegOp) -> u8
    ensures { result ≡ code_of op }
{
    match op {
        RegOp::Add => 0,
        RegOp::Sub => 1,
        RegOp::Sll => 2,
        RegOp::Slt => 3,
        RegOp::Sltu => 4,
        RegOp::Xor => 5,
        RegOp::Srl => 6,
        RegOp::Sra => 7,
        RegOp::Or => 8,
        RegOp::And => 9,
        RegOp::Mul => 10,
        RegOp::Mulh => 11,
        RegOp::Mulhsu => 12,
        RegOp::Mulhu => 13,
        RegOp::Div => 14,
        RegOp::Divu => 15,
        RegOp::Rem => 16,
        RegOp::Remu => 17,
    }
}

/// Whether both do the same on the same operands, so that they have the same result.
fn is_same(a: &Operation, b: &Operation) -> bool
    ensures { result ≡ true → (value : ℕ → ℕ) → IsResult value a.now → IsResult value b.now → value a.now.node ≡ value b.now.node }
{
    code(a.op) == code(b.op)
        && a.first.node == b.first.node
        && a.first.offset == b.first.offset
        && a.second.node == b.second.node
        && a.second.offset == b.second.offset
}

/// One number more in a key.
fn mixed(key: u64, n: u32) -> u64 {
    let next = (key ^ u64::from(n)).wrapping_mul(0x9e37_79b9_7f4a_7c15);
    next ^ (next >> 29)
}

/// A key of what an operation does. Two that differ may have one key.
fn key_of(operation: &Operation) -> u64 {
    let first = mixed(u64::from(code(operation.op)), operation.first.node);
    let second = mixed(first, operation.first.offset);
    let third = mixed(second, operation.second.node);
    mixed(third, operation.second.offset)
}

/// Operations, to be found by what they do.
#[derive(Drop)]
pub struct Operations {
    list: Vec<Operation>,
    places: IndexMap<u64, u32>,
}

impl Model for Operations {
    ghost use Rattle.std.specs.Prelude.{List};
    ghost use Rattle.rept_relate.specs.declared.operations.Operation.{Operation};

    ghost Value = { List Operation };

    ghost view = { λ o. o.list.items };
}

impl Operations {
    /// None.
    pub fn new(alloc: Global) -> Operations
        ensures { result ≡ [] }
    {
        Operations {
            list: Vec::new(alloc),
            places: IndexMap::new(alloc),
        }
    }

    /// The node of the result of an operation that does the same.
    pub fn like(&self, operation: &Operation) -> Option<u32>
        ensures alike { IfSome result (λ n. (value : ℕ → ℕ) → AreResults self.now value → IsResult value operation.now → value operation.now.node ≡ value n) }
        ensures below { IfSome result (λ n. (limit : ℕ) → AreBelow self.now limit → n < limit) }
    {
        let place = match self.places.get(&key_of(operation)) {
            None => return None,
            Some(place) => *place as usize,
        };
        if place >= self.list.len() {
            return None;
        }
        let known = self.list[place];
        if is_same(operation, &known) {
            Some(known.node)
        } else {
            None
        }
    }

    /// Takes in an operation. Where there is no memory for it, it isn't found again.
    pub fn add(&mut self, operation: Operation)
        ensures results { (value : ℕ → ℕ) → AreResults self.old value → IsResult value operation → AreResults self.new value }
        ensures below { (limit : ℕ) → AreBelow self.old limit → operation.node < limit → AreBelow self.new limit }
    {
        let place = self.list.len();
        if place >= 0xffff_ffff {
            return;
        }
        match self.list.push(operation) {
            Err(_) => {}
            Ok(()) => self.note(key_of(&operation), place as u32),
        }
    }

    /// Notes where an operation stands.
    fn note(&mut self, key: u64, place: u32)
        ensures { self.new ≡ self.old }
    {
        match self.places.insert(key, place) {
            Err(_) => {}
            Ok(_) => {}
        }
    }
}
