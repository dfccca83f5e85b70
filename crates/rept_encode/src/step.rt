//! The steps of a path, by an instruction and its two addresses.

ghost use Rattle.std.specs.Prelude.{◌≡◌, ◌<◌, ◌%◌, ◌↔◌, false, length, IsTrue, IfSome, IfNone, IfErr, OnOk, OnErr};
ghost use Rattle.std.specs.List.{All};
ghost use Rattle.rept_steps.specs.Linked.{EndBefore};
ghost use Rattle.rept_isa.specs.Rows.{from_at};
ghost use Rattle.rept_path.specs.Code.{flow_of};
ghost use Rattle.rept_encode.specs.Walkable.{alignment_by, MayLead, IsStepped};
ghost use Rattle.rept_encode.specs.Added.{AddsStep, IsAskedStep, IsStepFault, MayAddStep, asked_of};

use crate::fault::StepFault;
use rept_isa::number::{following, plus};
use rept_isa::{Instr, StepRow, from_address, is_call};
use rept_path::flow::{Flow, flow_of};
use rept_steps::{PushFault, Steps};

/// An instruction where it stands: its address, and whether it is the expansion of a compressed
/// one, which takes two bytes.
#[derive(Clone, Copy)]
pub struct Site {
    pub at: u32,
    pub instr: Instr,
    pub short: bool,
}

/// What addresses of instructions are multiples of.
fn alignment(halves: bool) -> u32
    ensures { result ≡ alignment_by halves }
{
    if halves { 2 } else { 4 }
}

/// Whether the instruction may lead to an address.
fn may_lead(halves: bool, site: &Site, next: u32) -> bool
    ensures { IsTrue result ↔ MayLead halves (flow_of site.now.instr) (record { at = site.now.at; from = from_at site.now.at site.now.short; next = next }) }
{
    let from = from_address(site.at, site.short);
    match flow_of(&site.instr) {
        Flow::Plain | Flow::Call => next == following(from),
        Flow::Branch(imm) => next == plus(site.at, imm) || next == following(from),
        Flow::Jump(imm) => next == plus(site.at, imm),
        Flow::Fixed(to) => next == to,
        Flow::Far => next % alignment(halves) == 0,
        Flow::Stop => false,
    }
}

/// Whether an instruction may stand there, with its length.
fn may_stand(halves: bool, site: &Site) -> bool
    ensures aligned { IsTrue result → site.now.at % alignment_by halves ≡ 0 }
    ensures long { IsTrue result → halves ≡ false → site.now.short ≡ false }
    ensures so { site.now.at % alignment_by halves ≡ 0 → (halves ≡ false → site.now.short ≡ false) → IsTrue result }
{
    site.at % alignment(halves) == 0 && (halves || !site.short)
}

/// The step of an instruction to the next address, in code that may be compressed or may not. None
/// exactly where the instruction can't lead there, stands at no multiple of 4 (of 2 where code may
/// be compressed), or is short where code may not be compressed.
pub fn step_between(halves: bool, site: &Site, next: u32) -> Option<StepRow>
    ensures some { IfSome result (IsAskedStep (asked_of halves site.now next)) }
    ensures none { IfNone result (MayAddStep (asked_of halves site.now next) → ⊥) }
{
    if !may_stand(halves, site) || !may_lead(halves, site, next) {
        return None;
    }
    let instr = site.instr;
    let call = is_call(&instr);
    Some(StepRow {
        at: site.at,
        instr,
        next,
        call,
        short: site.short,
    })
}

/// Adds the step of an instruction from where the steps end to the next address, in code that may
/// be compressed or may not. `NoStep` comes exactly where the instruction can't lead there, stands
/// at no multiple of 4 (of 2 where code may be compressed), or is short where code may not be
/// compressed; `Full` where there are 65,536 steps. A refusal leaves the steps as they were.
pub fn push_step(steps: &mut Steps, halves: bool, site: &Site, next: u32) -> Result<(), StepFault>
    requires steps { All (IsStepped halves) steps.old }
    requires ends { EndBefore steps.old site.now.at }
    ensures steps { All (IsStepped halves) steps.new }
    ensures ends { OnOk result (EndBefore steps.new next) }
    ensures some { OnOk result (0 < length steps.new) }
    ensures ok { OnOk result (AddsStep (asked_of halves site.now next) steps.old steps.new) }
    ensures err { OnErr result (steps.new ≡ steps.old) }
    ensures cause { IfErr result (λ fault. IsStepFault (asked_of halves site.now next) steps.old fault) }
{
    let Some(row) = step_between(halves, site, next) else {
        return Err(StepFault::NoStep);
    };
    match steps.push(row) {
        Ok(()) => Ok(()),
        Err(PushFault::Full) => Err(StepFault::Full),
        Err(PushFault::OutOfMemory) => Err(StepFault::OutOfMemory),
    }
}
