//! The moves of a path, packet by packet.

ghost use Rattle.std.specs.Prelude.{◌≡◌, ◌⊎◌, ◌+◌, ◌≤◌, ◌<◌, ◌++◌, ◌∷◌, [], List, ℕ, Bool, length, slice_get, OnOk, IfOk, IfErr, MatchResult, Some, None, Ok, Err, true, false};
ghost use Rattle.rept_path.specs.declared.fault.PathFault.TheVariants.{OutOfMemory};
ghost use Rattle.rept_path.specs.Code.{look, is_short, flow_of};
ghost use Rattle.rept_path.specs.Moves.{site, successor, next_of, by_jump, unused, bits_fit, stops, misfits, is_inferred, heading_by, way_by};
ghost use Rattle.rept_path.specs.Legs.{PhaseFault};
ghost use Rattle.rept_path.specs.Gap.{by_successor, by_flow, gap};
ghost use Rattle.rept_isa.specs.declared.row.StepRow.{StepRow};
ghost use Rattle.rept_path.specs.Route.{first_phase, PhasesFault, RunningFault, WaitingFault, FaultBy, FirstFault, earlier_by};
ghost use Rattle.rept_path.specs.Trace.{starts};
ghost use Rattle.rept_path.specs.Program.{code_of};
ghost use Rattle.rept_path.specs.State.{here, standing, Counts, lead, met, MovedWalk, WalkedPhase, WalkedAll, Followed, Stands, Crossed, ends_fit, from_to};
ghost use Rattle.rept_path.specs.Crossed.{rows_of, LeadAcross};

use crate::aim::Aim;
use crate::bits::{push_bits, push_branch};
use crate::fault::PathFault;
use crate::flow::{Flow, branches, flow_of, jumps_far};
use crate::look::{holds_branch, holds_call, look, position_of};
use crate::program::Program;
use rept_isa::number::plus;
use rept_isa::{Instr, StepRow};
use rept_steps::Steps;
use rept_trace::{Packet, Qual, Report};
use std::alloc::Global;

/// Where a path has come.
#[derive(Drop)]
pub struct Walk {
    /// The last position.
    pub at: u32,
    pub steps: Steps,
    /// The branch bits of the stretch, the oldest first.
    pub bits: Vec<bool>,
    /// How many of them the branches before the last position have used.
    pub used: usize,
    /// The reported address.
    pub reported: u32,
    /// Whether the last stop was inferred.
    pub inferred: bool,
    /// Whether only a start packet may go on.
    pub waiting: bool,
    /// How many steps there may be.
    pub room: usize,
}

/// The address after one, by what stands and comes there.
fn successor_of(
    packet: u32,
    at: u32,
    onward: u32,
    flow: Flow,
    bit: Option<bool>,
    target: Option<u32>,
) -> Result<u32, PathFault>
    ensures { result ≡ successor packet (record { at = at; onward = onward }) flow (way_by bit target) }
{
    match flow {
        Flow::Plain => Ok(onward),
        Flow::Jump(imm) => Ok(plus(at, imm)),
        Flow::Fixed(to) => Ok(to),
        Flow::Branch(imm) => match bit {
            None => Err(PathFault::NoBranchBit(packet, at)),
            Some(false) => Ok(plus(at, imm)),
            Some(true) => Ok(onward),
        },
        Flow::Far => match target {
            None => Err(PathFault::JumpInMap(packet, at)),
            Some(to) => Ok(to),
        },
        Flow::Call | Flow::Stop => Err(PathFault::Trapped(packet, at)),
    }
}

/// The rows of a gap by the successor of its first address.
fn rows_by_successor(
    program: &Program<'_>,
    at: u32,
    instr: Instr,
    to: u32,
    otherwise: PathFault,
    next: u32,
) -> Result<(StepRow, Option<StepRow>), PathFault>
    ensures rows { MatchResult result (λ x. by_successor (code_of program.now) (record { at = at; instr = instr; short = is_short (code_of program.now) at; to = to; otherwise = otherwise }) next ≡ Ok (rows_of x.0 x.1)) (λ e. by_successor (code_of program.now) (record { at = at; instr = instr; short = is_short (code_of program.now) at; to = to; otherwise = otherwise }) next ≡ Err e) }
    ensures across { IfOk result (λ x. LeadAcross at to x.0 x.1) }
{
    let first = StepRow {
        at,
        instr,
        next,
        call: false,
        short: program.is_short(at),
    };
    if next == to {
        return Ok((first, None));
    }
    if holds_call(program, next) && to == program.after_instruction(next) {
        let instr = Instr::Ecall;
        let second = StepRow {
            at: next,
            instr,
            next: to,
            call: true,
            short: program.is_short(next),
        };
        return Ok((first, Some(second)));
    }
    Err(otherwise)
}

/// The rows of a gap.
fn rows_across(
    program: &Program<'_>,
    packet: u32,
    at: u32,
    instr: Instr,
    to: u32,
    otherwise: PathFault,
    bit: Option<bool>,
) -> Result<(StepRow, Option<StepRow>), PathFault>
    ensures rows { MatchResult result (λ x. by_flow (code_of program.now) (record { at = at; instr = instr; short = is_short (code_of program.now) at; to = to; otherwise = otherwise }) (successor packet (site (code_of program.now) at) (flow_of instr) (way_by bit None)) (flow_of instr) ≡ Ok (rows_of x.0 x.1)) (λ e. by_flow (code_of program.now) (record { at = at; instr = instr; short = is_short (code_of program.now) at; to = to; otherwise = otherwise }) (successor packet (site (code_of program.now) at) (flow_of instr) (way_by bit None)) (flow_of instr) ≡ Err e) }
    ensures across { IfOk result (λ x. LeadAcross at to x.0 x.1) }
{
    let flow = flow_of(&instr);
    let (may, call) = match flow {
        Flow::Call => (to == program.after_instruction(at), true),
        Flow::Far => (to % program.alignment() == 0, false),
        Flow::Stop => (false, false),
        Flow::Plain | Flow::Jump(_) | Flow::Fixed(_) | Flow::Branch(_) => {
            let onward = program.after_instruction(at);
            let next = successor_of(packet, at, onward, flow, bit, None)?;
            return rows_by_successor(program, at, instr, to, otherwise, next);
        }
    };
    if !may {
        return Err(otherwise);
    }
    Ok((
        StepRow {
            at,
            instr,
            next: to,
            call,
            short: program.is_short(at),
        },
        None,
    ))
}

impl Walk {
    /// A walk that stands at the address of a start packet, the one of this number, and may have so
    /// many steps.
    pub fn begin(
        alloc: Global,
        program: &Program<'_>,
        number: u32,
        room: usize,
        packet: Packet,
    ) -> Result<Walk, PathFault>
        requires { starts (Some packet) ≡ true }
        ensures ok { IfOk result (λ w. (legs : List (List StepRow)) × Stands (code_of program.now) (earlier_by (record { number = number; room = room }) (packet ∷ []) legs) w) }
        ensures err { IfErr result (λ e. (e ≡ OutOfMemory) ⊎ FirstFault (code_of program.now) packet e) }
    {
        match packet {
            Packet::Start {
                branch,
                address,
                ..
            } => {
                position_of(program, address)?;
                let mut bits = Vec::new(alloc);
                push_branch(&mut bits, program, address, branch)?;
                Ok(Walk {
                    at: address,
                    steps: Steps::new(alloc),
                    bits,
                    used: 0,
                    reported: address,
                    inferred: false,
                    waiting: false,
                    room,
                })
            }
            _ => unreachable!(),
        }
    }

    /// The bit of the next branch.
    fn bit(&self) -> Option<bool>
        ensures { result ≡ slice_get self.now.bits.items self.now.used }
    {
        self.bits.get(self.used).copied()
    }

    /// The next position.
    #[tactic(auto, unfolding(crate::specs::Moves::next_of))]
    fn next(
        &self,
        program: &Program<'_>,
        packet: u32,
        target: Option<u32>,
        instr: &Instr,
    ) -> Result<u32, PathFault>
        requires { look (code_of program.now) self.now.at ≡ Ok instr.now }
        ensures { result ≡ next_of (code_of program.now) (lead self.now packet target) (here self.now) }
    {
        let bit = self.bit();
        let onward = program.after_instruction(self.at);
        let next = successor_of(packet, self.at, onward, flow_of(instr), bit, target)?;
        if self.steps.len() as usize >= self.room {
            return Err(PathFault::TooLong(packet));
        }
        position_of(program, next)
    }

    /// Whether an uninferable jump led here.
    #[tactic(auto, unfolding(crate::specs::Moves::by_jump))]
    fn came_by_jump(&self) -> bool
        ensures { result ≡ by_jump (here self.now).rows }
    {
        match self.steps.rows().last() {
            None => false,
            Some(row) => jumps_far(&row.instr),
        }
    }

    /// How many bits are unused.
    fn unused(&self) -> usize
        requires { Counts self.now }
        ensures value { result ≡ unused self.now.bits.items (here self.now) }
        ensures few { result ≤ 256 }
    {
        self.bits.len() - self.used
    }

    /// Whether the unused bits fit.
    #[tactic(auto, unfolding(crate::specs::Moves::bits_fit))]
    fn fits(&self, program: &Program<'_>) -> bool
        requires { Counts self.now }
        ensures { result ≡ bits_fit (code_of program.now) self.now.bits.items (here self.now) }
    {
        let wanted = if holds_branch(program, self.at) { 1 } else { 0 };
        self.unused() == wanted
    }

    /// Whether the moves stop here.
    #[tactic(auto, unfolding(crate::specs::Moves::stops))]
    fn stops(&self, program: &Program<'_>, aim: Aim) -> bool
        requires { Counts self.now }
        ensures { result ≡ stops (code_of program.now) self.now.bits.items aim (here self.now) }
    {
        match aim {
            Aim::Jumped => self.came_by_jump(),
            Aim::Start { address } => {
                self.came_by_jump() || (self.at == address && self.fits(program))
            }
            Aim::Report {
                address,
                notify,
                updiscon,
            } => {
                self.came_by_jump()
                    || (self.at == address && self.fits(program) && (notify || !updiscon))
            }
            Aim::LastBit => holds_branch(program, self.at) && self.fits(program),
        }
    }

    /// Whether bits are left at a stop where none may be.
    #[tactic(auto, unfolding(crate::specs::Moves::misfits))]
    fn misfits(&self, program: &Program<'_>, aim: Aim) -> bool
        requires { Counts self.now }
        ensures { result ≡ misfits (code_of program.now) self.now.bits.items aim (here self.now) }
    {
        let wants_fit = match aim {
            Aim::Jumped | Aim::LastBit => false,
            Aim::Start { .. } | Aim::Report { .. } => true,
        };
        wants_fit && self.came_by_jump() && !self.fits(program)
    }

    /// Whether the reported address alone is why the walk stops here.
    #[tactic(auto, unfolding(crate::specs::Moves::is_inferred))]
    fn infers(&self, program: &Program<'_>, report: Report) -> bool
        requires { Counts self.now }
        ensures { result ≡ is_inferred (code_of program.now) self.now.bits.items (Aim.Report self.now.reported report.notify report.updiscon) (here self.now) }
    {
        self.at == self.reported
            && self.fits(program)
            && !report.updiscon
            && !report.notify
            && !self.came_by_jump()
    }

    /// One move. An `Err` ends the walk.
    fn move_on(
        &mut self,
        program: &Program<'_>,
        packet: u32,
        target: Option<u32>,
    ) -> Result<(), PathFault>
        requires { Counts self.old }
        ensures ok { OnOk result (MovedWalk (code_of program.now) (lead self.old packet target) self.old self.new) }
        ensures err { IfErr result (λ e. (e ≡ OutOfMemory) ⊎ (next_of (code_of program.now) (lead self.old packet target) (here self.old) ≡ Err e)) }
    {
        let instr = match look(program, self.at) {
            Ok(instr) => instr,
            Err(fault) => return Err(fault),
        };
        let next = self.next(program, packet, target, &instr)?;
        let taken = if branches(&instr) { 1 } else { 0 };
        let row = StepRow {
            at: self.at,
            instr,
            next,
            call: false,
            short: program.is_short(self.at),
        };
        if let Err(_) = self.steps.push(row) {
            return Err(PathFault::OutOfMemory);
        }
        self.used += taken;
        self.at = next;
        Ok(())
    }

    /// One move, after which the program is near the last position. An `Err` ends the walk.
    fn step(
        &mut self,
        near: &mut Program<'_>,
        packet: u32,
        target: Option<u32>,
    ) -> Result<(), PathFault>
        requires { Counts self.old }
        ensures same { code_of near.new ≡ code_of near.old }
        ensures ok { OnOk result (MovedWalk (code_of near.old) (lead self.old packet target) self.old self.new) }
        ensures err { IfErr result (λ e. (e ≡ OutOfMemory) ⊎ (next_of (code_of near.old) (lead self.old packet target) (here self.old) ≡ Err e)) }
    {
        self.move_on(near, packet, target)?;
        *near = near.near(self.at);
        Ok(())
    }

    /// Moves to the first stop. An `Err` ends the walk.
    fn go(
        &mut self,
        program: &Program<'_>,
        packet: u32,
        target: Option<u32>,
        aim: Aim,
    ) -> Result<(), PathFault>
        requires { Counts self.old }
        ensures ok { OnOk result (WalkedPhase (code_of program.now) (heading_by (lead self.old packet target) aim) self.old self.new) }
        ensures err { IfErr result (λ e. (e ≡ OutOfMemory) ⊎ PhaseFault (code_of program.now) (heading_by (lead self.old packet target) aim) (here self.old) e) }
        ensures rests { OnOk result (ends_fit aim ≡ true → length self.new.bits.items ≤ self.new.used + 1) }
    {
        let mut near = program.near(self.at);
        self.step(&mut near, packet, target)?;
        while !self.stops(&near, aim) {
            self.step(&mut near, packet, target)?;
        }
        if self.misfits(&near, aim) {
            return Err(PathFault::BranchesLeft(packet, self.unused() as u32));
        }
        Ok(())
    }

    /// Where the walk goes on from an inferred stop, first to the next uninferable jump, which
    /// leads to `before`; then to the first stop.
    fn through(
        &mut self,
        program: &Program<'_>,
        packet: u32,
        before: u32,
        target: Option<u32>,
        aim: Aim,
    ) -> Result<(), PathFault>
        requires { Counts self.old }
        ensures ok { OnOk result (WalkedAll (code_of program.now) (first_phase self.old.inferred before ++ record { target = target; aim = aim } ∷ []) (from_to packet self.old self.new)) }
        ensures err { IfErr result (λ e. (e ≡ OutOfMemory) ⊎ PhasesFault (code_of program.now) (standing packet self.old) (first_phase self.old.inferred before ++ record { target = target; aim = aim } ∷ []) e) }
        ensures rests { OnOk result (ends_fit aim ≡ true → length self.new.bits.items ≤ self.new.used + 1) }
    {
        if self.inferred {
            self.go(program, packet, Some(before), Aim::Jumped)?;
        }
        self.go(program, packet, target, aim)
    }

    /// Adds the rows that lead to an address.
    pub fn join(
        &mut self,
        program: &Program<'_>,
        packet: u32,
        to: u32,
        otherwise: PathFault,
    ) -> Result<(), PathFault>
        requires { Counts self.old }
        ensures ok { OnOk result (Crossed (code_of program.now) (record { address = to; otherwise = otherwise }) (from_to packet self.old self.new)) }
        ensures rest { self.new ≡ record self.old { steps = self.new.steps } }
        ensures err { IfErr result (λ e. (e ≡ OutOfMemory) ⊎ (gap (code_of program.now) (standing packet self.old) (record { address = to; otherwise = otherwise }) ≡ Err e)) }
    {
        let instr = match look(program, self.at) {
            Ok(instr) => instr,
            Err(fault) => return Err(fault),
        };
        let bit = self.bit();
        let (first, second) = match rows_across(
            program, packet, self.at, instr, to, otherwise, bit,
        ) {
            Ok(rows) => rows,
            Err(fault) => return Err(fault),
        };
        match second {
            None => {
                if self.steps.len() as usize >= self.room {
                    return Err(PathFault::TooLong(packet));
                }
                if let Err(_) = self.steps.push(first) {
                    return Err(PathFault::OutOfMemory);
                }
            }
            Some(row) => {
                if self.steps.len() as usize + 1 >= self.room {
                    return Err(PathFault::TooLong(packet));
                }
                if let Err(_) = self.steps.push(first) {
                    return Err(PathFault::OutOfMemory);
                }
                if let Err(_) = self.steps.push(row) {
                    return Err(PathFault::OutOfMemory);
                }
            }
        }
        Ok(())
    }

    /// Goes over the leg of a packet. An `Err` ends the walk.
    pub fn follow(
        &mut self,
        program: &Program<'_>,
        number: u32,
        packet: Packet,
    ) -> Result<(), PathFault>
        requires counts { Counts self.old }
        requires rests { length self.old.bits.items ≤ self.old.used + 1 }
        ensures ok { OnOk result (Followed (code_of program.now) packet (from_to number self.old self.new)) }
        ensures err { IfErr result (λ e. (e ≡ OutOfMemory) ⊎ FaultBy (code_of program.now) packet (met number self.old) e) }
    {
        match packet {
            Packet::Start {
                branch,
                address,
                ..
            } => {
                if self.waiting {
                    self.start(program, number, branch, address)
                } else {
                    self.restart(program, number, branch, address)
                }
            }
            Packet::Context { .. } => Ok(()),
            Packet::Support { status, .. } => self.support(program, number, status),
            Packet::Address { report } => {
                if self.waiting {
                    return Err(PathFault::NoStart(number));
                }
                self.report(program, number, 0, 0, report)
            }
            Packet::Map { map } => {
                if self.waiting {
                    return Err(PathFault::NoStart(number));
                }
                self.map(program, number, map)
            }
            Packet::MapAddress { count, map, report } => {
                if self.waiting {
                    return Err(PathFault::NoStart(number));
                }
                self.report(program, number, count, map, report)
            }
        }
    }

    /// Begins a stretch.
    fn start(
        &mut self,
        program: &Program<'_>,
        number: u32,
        branch: bool,
        address: u32,
    ) -> Result<(), PathFault>
        requires counts { Counts self.old }
        requires waits { self.old.waiting ≡ true }
        ensures ok { OnOk result ((privilege time context : ℕ) → Followed (code_of program.now) (Packet.Start branch privilege address time context) (from_to number self.old self.new)) }
        ensures err { IfErr result (λ e. (privilege time context : ℕ) → (e ≡ OutOfMemory) ⊎ WaitingFault (code_of program.now) (Packet.Start branch privilege address time context) (met number self.old) e) }
    {
        let otherwise = PathFault::Gap(number, self.at, address);
        self.join(program, number, address, otherwise)?;
        let at = position_of(program, address)?;
        self.bits.clear();
        push_branch(&mut self.bits, program, at, branch)?;
        self.at = at;
        self.used = 0;
        self.reported = at;
        self.inferred = false;
        self.waiting = false;
        Ok(())
    }

    /// Takes a start packet in a stretch.
    fn restart(
        &mut self,
        program: &Program<'_>,
        number: u32,
        branch: bool,
        address: u32,
    ) -> Result<(), PathFault>
        requires counts { Counts self.old }
        requires rests { length self.old.bits.items ≤ self.old.used + 1 }
        requires runs { self.old.waiting ≡ false }
        ensures ok { OnOk result ((privilege time context : ℕ) → Followed (code_of program.now) (Packet.Start branch privilege address time context) (from_to number self.old self.new)) }
        ensures err { IfErr result (λ e. (privilege time context : ℕ) → (e ≡ OutOfMemory) ⊎ RunningFault (code_of program.now) (Packet.Start branch privilege address time context) (met number self.old) e) }
    {
        position_of(program, address)?;
        push_branch(&mut self.bits, program, address, branch)?;
        self.reported = address;
        self.inferred = false;
        self.go(program, number, Some(address), Aim::Start { address })?;
        Ok(())
    }

    /// Takes a reported address, and so many bits of a map before it.
    fn report(
        &mut self,
        program: &Program<'_>,
        number: u32,
        count: u8,
        map: u32,
        report: Report,
    ) -> Result<(), PathFault>
        requires counts { Counts self.old }
        requires rests { length self.old.bits.items ≤ self.old.used + 1 }
        requires runs { self.old.waiting ≡ false }
        ensures ok { OnOk result (Followed (code_of program.now) (Packet.MapAddress count map report) (from_to number self.old self.new)) }
        ensures err { IfErr result (λ e. (e ≡ OutOfMemory) ⊎ RunningFault (code_of program.now) (Packet.MapAddress count map report) (met number self.old) e) }
        ensures ok_alone { count ≡ 0 → OnOk result (Followed (code_of program.now) (Packet.Address report) (from_to number self.old self.new)) }
        ensures err_alone { count ≡ 0 → IfErr result (λ e. (e ≡ OutOfMemory) ⊎ RunningFault (code_of program.now) (Packet.Address report) (met number self.old) e) }
    {
        let before = self.reported;
        let address = before.wrapping_add(report.difference);
        push_bits(&mut self.bits, count, map)?;
        self.reported = address;
        let aim = Aim::Report {
            address,
            notify: report.notify,
            updiscon: report.updiscon,
        };
        self.through(program, number, before, Some(address), aim)?;
        self.inferred = self.infers(program, report);
        Ok(())
    }

    /// Takes the bits of a map.
    fn map(&mut self, program: &Program<'_>, number: u32, map: u32) -> Result<(), PathFault>
        requires counts { Counts self.old }
        requires rests { length self.old.bits.items ≤ self.old.used + 1 }
        requires runs { self.old.waiting ≡ false }
        ensures ok { OnOk result (Followed (code_of program.now) (Packet.Map map) (from_to number self.old self.new)) }
        ensures err { IfErr result (λ e. (e ≡ OutOfMemory) ⊎ RunningFault (code_of program.now) (Packet.Map map) (met number self.old) e) }
    {
        push_bits(&mut self.bits, 31, map)?;
        self.through(program, number, self.reported, None, Aim::LastBit)?;
        self.inferred = false;
        Ok(())
    }

    /// Takes what became of the trace.
    fn support(&mut self, program: &Program<'_>, number: u32, status: Qual) -> Result<(), PathFault>
        requires counts { Counts self.old }
        requires rests { length self.old.bits.items ≤ self.old.used + 1 }
        ensures ok { OnOk result ((enabled : Bool) → Followed (code_of program.now) (Packet.Support enabled status) (from_to number self.old self.new)) }
        ensures err { IfErr result (λ e. (enabled : Bool) → (e ≡ OutOfMemory) ⊎ FaultBy (code_of program.now) (Packet.Support enabled status) (met number self.old) e) }
    {
        match status {
            Qual::NoChange => Ok(()),
            Qual::TraceLost => Ok(()),
            Qual::EndedRep => {
                self.waiting = true;
                Ok(())
            }
            Qual::EndedNtr => {
                if self.waiting {
                    return Ok(());
                }
                self.finish(program, number)?;
                self.waiting = true;
                Ok(())
            }
        }
    }

    /// The first phase alone.
    fn finish(&mut self, program: &Program<'_>, number: u32) -> Result<(), PathFault>
        requires { Counts self.old }
        ensures ok { OnOk result (WalkedAll (code_of program.now) (first_phase self.old.inferred self.old.reported) (from_to number self.old self.new)) }
        ensures err { IfErr result (λ e. (e ≡ OutOfMemory) ⊎ PhasesFault (code_of program.now) (standing number self.old) (first_phase self.old.inferred self.old.reported) e) }
    {
        if !self.inferred {
            return Ok(());
        }
        self.go(program, number, Some(self.reported), Aim::Jumped)
    }
}
