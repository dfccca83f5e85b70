//! The description of the registers.

ghost use Rattle.std.specs.Prelude.{◌≡◌};
ghost use Rattle.rept_stub.specs.Description.{description_text};

/// x0 to x31 by their names, and the address of the instruction.
#[tactic(auto, unfolding(crate::specs::Description::description_text))]
pub fn description() -> &'static [u8]
    ensures { result.now ≡ description_text }
{
    b"<?xml version=\"1.0\"?><!DOCTYPE target SYSTEM \"gdb-target.dtd\"><target version=\"1.0\"><architecture>riscv:rv32</architecture><osabi>none</osabi><feature name=\"org.gnu.gdb.riscv.cpu\"><reg name=\"zero\" bitsize=\"32\"/><reg name=\"ra\" bitsize=\"32\"/><reg name=\"sp\" bitsize=\"32\"/><reg name=\"gp\" bitsize=\"32\"/><reg name=\"tp\" bitsize=\"32\"/><reg name=\"t0\" bitsize=\"32\"/><reg name=\"t1\" bitsize=\"32\"/><reg name=\"t2\" bitsize=\"32\"/><reg name=\"fp\" bitsize=\"32\"/><reg name=\"s1\" bitsize=\"32\"/><reg name=\"a0\" bitsize=\"32\"/><reg name=\"a1\" bitsize=\"32\"/><reg name=\"a2\" bitsize=\"32\"/><reg name=\"a3\" bitsize=\"32\"/><reg name=\"a4\" bitsize=\"32\"/><reg name=\"a5\" bitsize=\"32\"/><reg name=\"a6\" bitsize=\"32\"/><reg name=\"a7\" bitsize=\"32\"/><reg name=\"s2\" bitsize=\"32\"/><reg name=\"s3\" bitsize=\"32\"/><reg name=\"s4\" bitsize=\"32\"/><reg name=\"s5\" bitsize=\"32\"/><reg name=\"s6\" bitsize=\"32\"/><reg name=\"s7\" bitsize=\"32\"/><reg name=\"s8\" bitsize=\"32\"/><reg name=\"s9\" bitsize=\"32\"/><reg name=\"s10\" bitsize=\"32\"/><reg name=\"s11\" bitsize=\"32\"/><reg name=\"t3\" bitsize=\"32\"/><reg name=\"t4\" bitsize=\"32\"/><reg name=\"t5\" bitsize=\"32\"/><reg name=\"t6\" bitsize=\"32\"/><reg name=\"pc\" bitsize=\"32\" type=\"code_ptr\"/></feature></target>"
}
