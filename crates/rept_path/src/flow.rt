//! Where an instruction leads.

use rept_isa::Instr;
use rept_isa::number::word;

/// Where an instruction leads (RISC-V unprivileged manual, chapter 2.5).
#[derive(Clone, Copy)]
pub enum Flow {
    /// To the instruction after it.
    Plain,
    /// A branch by this many bytes, where it is taken.
    Branch(i32),
    /// A jump by this many bytes.
    Jump(i32),
    /// To that address.
    Fixed(u32),
    /// To an address that its word doesn't tell.
    Far,
    /// Out of the program, which it calls to go on after it.
    Call,
    /// Out of the program.
    Stop,
}

ghost use Rattle.std.specs.Prelude.{◌≡◌};
ghost use Rattle.rept_path.specs.Code.{flow_of, branches, jumps_far};

/// Where the instruction leads.
pub fn flow_of(instr: &Instr) -> Flow
    ensures { result ≡ flow_of instr.now }
{
    match *instr {
        Instr::Jal { imm, .. } => Flow::Jump(imm),
        Instr::Jalr { rs1, imm, .. } => {
            if rs1.number() == 0 {
                let target = word(imm);
                Flow::Fixed(target - target % 2)
            } else {
                Flow::Far
            }
        }
        Instr::Branch { imm, .. } => Flow::Branch(imm),
        Instr::Ecall => Flow::Call,
        Instr::Ebreak => Flow::Stop,
        Instr::Lui { .. }
        | Instr::Auipc { .. }
        | Instr::Load { .. }
        | Instr::Store { .. }
        | Instr::Imm { .. }
        | Instr::Op { .. }
        | Instr::Amo { .. }
        | Instr::Fence
        | Instr::Counter { .. } => Flow::Plain,
    }
}

/// Whether the instruction is a branch.
pub fn branches(instr: &Instr) -> bool
    ensures { result ≡ branches (flow_of instr.now) }
{
    matches!(flow_of(instr), Flow::Branch(_))
}

/// Whether the instruction is an uninferable jump.
pub fn jumps_far(instr: &Instr) -> bool
    ensures { result ≡ jumps_far (flow_of instr.now) }
{
    matches!(flow_of(instr), Flow::Far)
}
