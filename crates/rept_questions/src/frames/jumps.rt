//! Which instructions call and return.

ghost use Rattle.std.specs.Prelude.{◌≡◌};
ghost use Rattle.rept_questions.specs.Frames.Frames.{calls as is_call, returns_by};

use rept_isa::Instr;

/// The register that keeps a return address, `ra`.
const LINK: u8 = 1;

/// Whether the instruction calls: JAL or JALR with rd x1.
pub fn calls(instr: &Instr) -> bool
    ensures { result ≡ is_call instr.now }
{
    match *instr {
        Instr::Jal { rd, .. } => rd.number() == LINK,
        Instr::Jalr { rd, .. } => rd.number() == LINK,
        _ => false,
    }
}

/// Whether the instruction returns: JALR with rd x0 and rs1 x1, whatever its immediate.
pub fn returns(instr: &Instr) -> bool
    ensures { result ≡ returns_by instr.now }
{
    match *instr {
        Instr::Jalr { rd, rs1, .. } => rd.number() == 0 && rs1.number() == LINK,
        _ => false,
    }
}
