//! Which instructions write memory, and when what writes may act between.

ghost use Rattle.std.specs.Prelude.{◌≡◌, ◌&&◌, not};
ghost use Rattle.rept_order.specs.Moments.{atomic_writes, writes_memory};

use rept_isa::{AmoOp, Instr};

/// Whether an atomic instruction writes memory.
fn writes_atomic(op: AmoOp) -> bool
    ensures { result ≡ atomic_writes op }
{
    !matches!(op, AmoOp::Lr)
}

/// Whether an instruction writes memory, whatever is known of it.
pub fn writes_memory(instr: Instr) -> bool
    ensures { result ≡ writes_memory instr }
{
    match instr {
        Instr::Store { .. } | Instr::Ecall => true,
        Instr::Amo { op, .. } => writes_atomic(op),
        _ => false,
    }
}

/// Whether neither is so.
pub fn neither(one: bool, other: bool) -> bool
    ensures { result ≡ (not one && not other) }
{
    !one && !other
}

/// Whether both are so.
pub fn both(one: bool, other: bool) -> bool
    ensures { result ≡ (one && other) }
{
    one && other
}
