//! The answer to a packet.

ghost use Rattle.std.specs.Prelude.{◌≡◌, ◌≤◌, ◌<◌, [], drop, length, None, Some, option_map, IfOk, OnOk, OnErr, MatchBool};
ghost use Rattle.rept_remote.specs.Request.Requests.{request_of};
ghost use Rattle.rept_findings.specs.Shown.{IsThreadPoint, session_told};
ghost use Rattle.rept_stub.specs.Answers.{IsLineAnswered, IsMonitored, IsStubAnswer, changed, changed_reply, cursor_reply, fixed_reply, halt_by, is_far, line_before, monitored, move_line, move_reply, moved, selected_by, spots_after, stale_after, stand_after, still_reply, threads_still, watch_in};
ghost use Rattle.rept_stub.specs.Monitoring.{asked_of, line_point};
ghost use Rattle.rept_stub.specs.Replies.{decoded};
ghost use Rattle.rept_remote.specs.Moves.Spots.{region};
ghost use Rattle.rept_stub.specs.Standing.{AreCursors, IsStandLawful, cursor_of, here, led, moving_thread, start_of};

use crate::console::console_line;
use crate::cursors::Cursors;
use crate::files::{ProcessFiles, object_text, offsets};
use crate::monitoring::{
    MonitorRequest, asked_of, help_text, point_in, push_moved, signal_text, writers_text,
};
use crate::pieces::{
    decoded, known_bytes, memory_bytes, memory_digits, part, register, registers, text_reply, whole,
};
use crate::threads::{
    about_text, cursor_words, moving_thread, named_thread, reason, stop_text, there_text,
    thread_text, threads_text,
};
use rept_findings::findings::moment_of;
use rept_findings::{Findings, ThreadPoint};
use rept_remote::{
    GdbRequest, MoveEnd, Movement, Region, Spots, StopReason, ThreadName, Watch, WatchKind,
    continued, continued_back, is_unseen, parse, stepped, stepped_back, stepped_within,
};
use rept_session::answer_line;
use rept_word::{OutOfMemory, Text};
use std::alloc::Global;

/// Where a debugger stands.
#[derive(Drop)]
pub struct Stand {
    /// the cursors of the threads
    pub cursors: Cursors,
    /// the thread that is selected, of which is asked
    pub thread: u32,
    /// the one of which a stop was told last
    pub stopped: u32,
    /// the one that is selected for moves, where that was selected apart
    pub moving: Option<u32>,
    /// its breakpoints and watchpoints
    pub spots: Spots,
    /// whether gdb's own copy of the bytes that it watches may be older than the cursor
    pub is_stale: bool,
}

/// A debugger that begins: each thread's cursor is at its last point, thread 0 is selected, and
/// there are no breakpoints. The only refusal is out of memory.
pub fn start<F: Findings>(alloc: Global, findings: &F) -> Result<Stand, OutOfMemory>
    ensures stand { IfOk result (λ stand. stand ≡ start_of (F.shown findings.now) (record { breaks = []; regions = [] })) }
    ensures within { IfOk result (IsStandLawful (F.shown findings.now)) }
{
    // for the proof alone
    let _threads = findings.threads();
    let cursors = Cursors::new(alloc, findings)?;
    Ok(Stand {
        cursors,
        thread: 0,
        stopped: 0,
        moving: None,
        spots: Spots::new(alloc),
        is_stale: false,
    })
}

/// What is told besides what was found.
#[derive(Clone, Copy)]
pub struct Setting<'a> {
    /// how many packets of the trace the path was read without
    pub skipped: u32,
    /// the signal that ended the process, by the number that Linux gives to it
    pub signal: u16,
    /// what the files of the crash hold
    pub files: ProcessFiles<'a>,
}

/// What is answered to a packet.
#[derive(Drop)]
pub struct PacketReply {
    /// the reply
    pub text: Text,
    /// a line for gdb's console, which comes before it; empty where there is none
    pub line: Text,
}

/// A reply without a line.
fn plain(alloc: Global, text: Text) -> PacketReply
    ensures { result ≡ record { text = text; line = [] } }
{
    PacketReply {
        text,
        line: Text::new(alloc),
    }
}

/// The answer to a packet, and where the debugger stands then. The only refusal is out of memory.
pub fn answer_packet<F: Findings>(
    alloc: Global,
    findings: &F,
    setting: Setting<'_>,
    stand: &mut Stand,
    packet: &[u8],
) -> Result<PacketReply, OutOfMemory>
    requires { IsStandLawful (F.shown findings.now) stand.old }
    ensures text { IfOk result (λ reply. IsStubAnswer (session_told (F.shown findings.now) setting.entry.skipped (F.reasons findings.now)) setting.entry stand.old packet.now reply.text) }
    ensures line { IfOk result (λ reply. reply.line ≡ line_before (F.shown findings.now) stand.old packet.now) }
    ensures stand { OnOk result (stand.new ≡ stand_after (F.shown findings.now) stand.old packet.now) }
    ensures within { IsStandLawful (F.shown findings.now) stand.new }
{
    match parse(packet) {
        GdbRequest::Move(way, name) => {
            answer_move(alloc, findings, setting.signal, stand, way, name)
        }
        GdbRequest::Monitor => reply_line(alloc, findings, setting, stand, packet),
        _ => reply_other(alloc, findings, setting, stand, packet),
    }
}

/// The reply to a packet that moves nothing and carries no line.
fn reply_other<F: Findings>(
    alloc: Global,
    findings: &F,
    setting: Setting<'_>,
    stand: &mut Stand,
    packet: &[u8],
) -> Result<PacketReply, OutOfMemory>
    requires { IsStandLawful (F.shown findings.now) stand.old }
    ensures text { IfOk result (λ reply. reply.text ≡ changed_reply (F.shown findings.now) (record { setting = setting.entry; stand = stand.old; packet = packet.now }) (request_of packet.now) (spots_after stand.old.spots (request_of packet.now))) }
    ensures line { IfOk result (λ reply. reply.line ≡ []) }
    ensures stand { OnOk result (stand.new ≡ changed (F.shown findings.now) stand.old (request_of packet.now) (spots_after stand.old.spots (request_of packet.now))) }
    ensures within { IsStandLawful (F.shown findings.now) stand.new }
{
    let text = answer_other(alloc, findings, setting, stand, packet)?;
    Ok(plain(alloc, text))
}

/// The answer to a packet that moves nothing and carries no line.
fn answer_other<F: Findings>(
    alloc: Global,
    findings: &F,
    setting: Setting<'_>,
    stand: &mut Stand,
    packet: &[u8],
) -> Result<Text, OutOfMemory>
    requires { IsStandLawful (F.shown findings.now) stand.old }
    ensures text { IfOk result (λ text. text ≡ changed_reply (F.shown findings.now) (record { setting = setting.entry; stand = stand.old; packet = packet.now }) (request_of packet.now) (spots_after stand.old.spots (request_of packet.now))) }
    ensures stand { OnOk result (stand.new ≡ changed (F.shown findings.now) stand.old (request_of packet.now) (spots_after stand.old.spots (request_of packet.now))) }
    ensures within { IsStandLawful (F.shown findings.now) stand.new }
{
    let request = parse(packet);
    let is_changed = change(&mut stand.spots, request)?;
    if is_changed {
        return whole(alloc, b"OK");
    }
    let text = still(alloc, findings, setting, stand, request)?;
    select(findings, stand, request);
    Ok(text)
}

/// The cursor of a thread.
fn cursor_of<F: Findings>(findings: &F, stand: &Stand, thread: u32) -> ThreadPoint
    requires cursors { AreCursors (F.shown findings.now) stand.now.cursors }
    requires thread { thread < (F.shown findings.now).threads }
    ensures value { result ≡ cursor_of stand.now thread }
    ensures within { IsThreadPoint (F.shown findings.now) result }
{
    // for the proof alone
    let _threads = findings.threads();
    ThreadPoint {
        thread,
        point: stand.cursors.point_of(thread),
    }
}

/// That of the selected thread.
fn here<F: Findings>(findings: &F, stand: &Stand) -> ThreadPoint
    requires { IsStandLawful (F.shown findings.now) stand.now }
    ensures value { result ≡ here stand.now }
    ensures within { IsThreadPoint (F.shown findings.now) result }
{
    cursor_of(findings, stand, stand.thread)
}

/// The answer to a move of a thread that is named.
fn answer_move<F: Findings>(
    alloc: Global,
    findings: &F,
    signal: u16,
    stand: &mut Stand,
    way: Movement,
    name: ThreadName,
) -> Result<PacketReply, OutOfMemory>
    requires { IsStandLawful (F.shown findings.now) stand.old }
    ensures text { IfOk result (λ reply. reply.text ≡ move_reply (F.shown findings.now) signal stand.old way (moving_thread (F.shown findings.now) stand.old name)) }
    ensures line { IfOk result (λ reply. reply.line ≡ move_line (F.shown findings.now) stand.old way (moving_thread (F.shown findings.now) stand.old name)) }
    ensures stand { OnOk result (stand.new ≡ moved (F.shown findings.now) stand.old way (moving_thread (F.shown findings.now) stand.old name)) }
    ensures within { IsStandLawful (F.shown findings.now) stand.new }
{
    match moving_thread(findings, stand, name) {
        Some(thread) => move_thread(alloc, findings, signal, stand, way, thread),
        None => Ok(plain(alloc, whole(alloc, b"E01")?)),
    }
}

/// The answer to a move of a thread.
fn move_thread<F: Findings>(
    alloc: Global,
    findings: &F,
    signal: u16,
    stand: &mut Stand,
    way: Movement,
    thread: u32,
) -> Result<PacketReply, OutOfMemory>
    requires standing { IsStandLawful (F.shown findings.now) stand.old }
    requires thread { thread < (F.shown findings.now).threads }
    ensures text { IfOk result (λ reply. reply.text ≡ move_reply (F.shown findings.now) signal stand.old way (Some thread)) }
    ensures line { IfOk result (λ reply. reply.line ≡ move_line (F.shown findings.now) stand.old way (Some thread)) }
    ensures stand { OnOk result (stand.new ≡ moved (F.shown findings.now) stand.old way (Some thread)) }
    ensures within { IsStandLawful (F.shown findings.now) stand.new }
{
    let at = cursor_of(findings, stand, thread);
    let halt = halt_by(alloc, findings, stand, way, at)?;
    let line = console_line(alloc, findings, way, thread, halt)?;
    let text = stop_text(alloc, findings, signal, thread, halt.stop)?;
    stand.is_stale = stale_after(stand, halt.stop);
    stand.cursors.put(thread, halt.point);
    stand.thread = thread;
    stand.stopped = thread;
    Ok(PacketReply { text, line })
}

/// Selects the thread that a packet names.
fn select<F: Findings>(findings: &F, stand: &mut Stand, request: GdbRequest)
    requires { IsStandLawful (F.shown findings.now) stand.old }
    ensures stand { stand.new ≡ selected_by (F.shown findings.now) stand.old request }
    ensures within { IsStandLawful (F.shown findings.now) stand.new }
{
    match request {
        GdbRequest::SelectThread(name) => {
            if let Some(thread) = named_thread(findings, stand, name) {
                stand.thread = thread;
            }
        }
        GdbRequest::SelectMoving(ThreadName::Any) => stand.moving = None,
        GdbRequest::SelectMoving(name) => {
            if let Some(thread) = named_thread(findings, stand, name) {
                stand.moving = Some(thread);
            }
        }
        _ => {}
    }
}

/// The reply to a packet that carries a line of a debugger's user.
fn reply_line<F: Findings>(
    alloc: Global,
    findings: &F,
    setting: Setting<'_>,
    stand: &mut Stand,
    packet: &[u8],
) -> Result<PacketReply, OutOfMemory>
    requires { IsStandLawful (F.shown findings.now) stand.old }
    ensures text { IfOk result (λ reply. IsMonitored (session_told (F.shown findings.now) setting.entry.skipped (F.reasons findings.now)) setting.entry.signal (here stand.old) (decoded (drop 6 packet.now)) reply.text) }
    ensures line { IfOk result (λ reply. reply.line ≡ []) }
    ensures stand { OnOk result (stand.new ≡ monitored (F.shown findings.now) stand.old (decoded (drop 6 packet.now))) }
    ensures within { IsStandLawful (F.shown findings.now) stand.new }
{
    let text = answer_monitor(alloc, findings, setting, stand, packet)?;
    Ok(plain(alloc, text))
}

/// The answer to a packet that carries a line of a debugger's user. A line of a session that leads
/// its cursor along the thread leads the cursor of the selected thread there.
fn answer_monitor<F: Findings>(
    alloc: Global,
    findings: &F,
    setting: Setting<'_>,
    stand: &mut Stand,
    packet: &[u8],
) -> Result<Text, OutOfMemory>
    requires { IsStandLawful (F.shown findings.now) stand.old }
    ensures text { IfOk result (IsMonitored (session_told (F.shown findings.now) setting.entry.skipped (F.reasons findings.now)) setting.entry.signal (here stand.old) (decoded (drop 6 packet.now))) }
    ensures stand { OnOk result (stand.new ≡ monitored (F.shown findings.now) stand.old (decoded (drop 6 packet.now))) }
    ensures within { IsStandLawful (F.shown findings.now) stand.new }
{
    let at = here(findings, stand);
    let Some(line) = line_in(alloc, packet)? else {
        return whole(alloc, b"E01");
    };
    let mut text = cursor_words(alloc, findings, at)?;
    let said = line_answer(alloc, findings, setting, at, line.as_slice())?;
    text.push(said.text.bytes())?;
    push_moved(&mut text, at, said.point)?;
    let reply = text_reply(alloc, text.bytes())?;
    lead(findings, stand, said.point);
    Ok(reply)
}

/// Puts the cursor of the selected thread to one of its points.
fn lead<F: Findings>(findings: &F, stand: &mut Stand, point: u32)
    requires standing { IsStandLawful (F.shown findings.now) stand.old }
    requires point { point ≤ length ((F.shown findings.now).rows stand.old.thread) }
    ensures stand { stand.new ≡ led stand.old point }
    ensures within { IsStandLawful (F.shown findings.now) stand.new }
{
    // for the proof alone
    let _threads = findings.threads();
    stand.cursors.put(stand.thread, point);
}

/// The line that such a packet carries after `qRcmd,`.
fn line_in(alloc: Global, packet: &[u8]) -> Result<Option<Vec<u8>>, OutOfMemory>
    ensures { IfOk result (λ line. option_map (λ v. v.items) line ≡ decoded (drop 6 packet.now)) }
{
    let start = packet.len().min(6);
    decoded(alloc, &packet[start..])
}

/// What is said to a line, and the point to which it leads.
#[derive(Drop)]
struct LineAnswer {
    text: Text,
    point: u32,
}

/// A text that leads nowhere.
fn told_at(at: ThreadPoint, text: Text) -> LineAnswer
    ensures { result ≡ record { text = text; point = at.point } }
{
    LineAnswer {
        text,
        point: at.point,
    }
}

/// What is said to such a line.
fn line_answer<F: Findings>(
    alloc: Global,
    findings: &F,
    setting: Setting<'_>,
    at: ThreadPoint,
    line: &[u8],
) -> Result<LineAnswer, OutOfMemory>
    requires { IsThreadPoint (F.shown findings.now) at }
    ensures text { IfOk result (λ said. IsLineAnswered (session_told (F.shown findings.now) setting.entry.skipped (F.reasons findings.now)) setting.entry.signal at line.now (asked_of line.now) said.text) }
    ensures point { IfOk result (λ said. said.point ≡ line_point (F.shown findings.now) at line.now (asked_of line.now)) }
    ensures within { IfOk result (λ said. said.point ≤ length ((F.shown findings.now).rows at.thread)) }
{
    match asked_of(line) {
        MonitorRequest::Signal => Ok(told_at(at, signal_text(alloc, setting.signal)?)),
        MonitorRequest::Help => Ok(told_at(at, whole(alloc, help_text())?)),
        MonitorRequest::When => {
            let answer = answer_line(alloc, findings, setting.skipped, at, b"where")?;
            Ok(told_at(at, answer.text))
        }
        MonitorRequest::Writers(address) => {
            Ok(told_at(at, writers_text(alloc, findings, at, address)?))
        }
        MonitorRequest::Session => {
            let answer = answer_line(alloc, findings, setting.skipped, at, line)?;
            Ok(LineAnswer {
                point: point_in(at, answer.cursor),
                text: answer.text,
            })
        }
    }
}

/// Whether gdb's copy of the watched bytes may be older than the cursor after a stop.
fn stale_after(stand: &Stand, stop: StopReason) -> bool
    ensures { result ≡ stale_after stand.now stop }
{
    is_unseen(stop) || stand.is_stale && stand.spots.has_regions()
}

/// Where a way leads to from a point of a thread.
fn halt_by<F: Findings>(
    alloc: Global,
    findings: &F,
    stand: &Stand,
    way: Movement,
    at: ThreadPoint,
) -> Result<MoveEnd, OutOfMemory>
    requires { IsThreadPoint (F.shown findings.now) at }
    ensures value { IfOk result (λ halt. halt ≡ halt_by (F.shown findings.now) stand.now way at) }
    ensures within { IfOk result (λ halt. halt.point ≤ length ((F.shown findings.now).rows at.thread)) }
{
    let watch = watch_in(alloc, stand, way)?;
    let breaks = stand.spots.breaks();
    Ok(match way {
        Movement::Step => stepped(findings, &watch, at),
        Movement::StepWithin(range) => stepped_within(findings, breaks, &watch, range, at),
        Movement::StepBack => stepped_back(findings, &watch, at),
        Movement::Continue => continued(findings, breaks, &watch, at),
        Movement::ContinueBack => continued_back(findings, breaks, &watch, at),
    })
}

/// The bytes that are watched in a move.
fn watch_in(alloc: Global, stand: &Stand, way: Movement) -> Result<Watch, OutOfMemory>
    ensures { IfOk result (λ watch. watch ≡ watch_in stand.now way) }
{
    let is_stale = stand.is_stale && is_far(way);
    stand.spots.watch(alloc, is_stale)
}

/// Whether a move goes to the next stop, or back to the last one.
fn is_far(way: Movement) -> bool
    ensures { result ≡ is_far way }
{
    matches!(way, Movement::Continue | Movement::ContinueBack)
}

/// Sets or takes away a breakpoint or a watchpoint, and answers whether it did.
fn change(spots: &mut Spots, request: GdbRequest) -> Result<bool, OutOfMemory>
    ensures ok { IfOk result (λ changed. MatchBool changed (spots_after spots.old request ≡ Some spots.new) ((spots_after spots.old request ≡ None) × (spots.new ≡ spots.old))) }
    ensures err { OnErr result (spots.new ≡ spots.old) }
{
    match request {
        GdbRequest::Break(address) => spots.set_break(address)?,
        GdbRequest::Unbreak(address) => spots.drop_break(address),
        GdbRequest::Watch(kind, address, length) => return watch(
            spots,
            region_of(kind, address, length),
        ),
        GdbRequest::Unwatch(kind, address, length) => {
            spots.drop_region(region_of(kind, address, length))
        }
        _ => return Ok(false),
    }
    Ok(true)
}

/// Watches a region of 1 to 1024 bytes.
fn watch(spots: &mut Spots, region: Region) -> Result<bool, OutOfMemory>
    ensures ok { IfOk result (λ changed. MatchBool changed (spots_after spots.old (GdbRequest.Watch region.kind region.address region.length) ≡ Some spots.new) ((spots_after spots.old (GdbRequest.Watch region.kind region.address region.length) ≡ None) × (spots.new ≡ spots.old))) }
    ensures err { OnErr result (spots.new ≡ spots.old) }
{
    if region.length == 0 || region.length > 1024 {
        return Ok(false);
    }
    spots.set_region(region)?;
    Ok(true)
}

/// The bytes from an address on, `length` of them, that are watched in this way.
fn region_of(kind: WatchKind, address: u32, length: u32) -> Region
    ensures { result ≡ region kind address length }
{
    Region {
        kind,
        address,
        length,
    }
}

/// Answers that are always the same.
pub fn fixed(request: GdbRequest) -> &'static [u8]
    ensures { result.now ≡ fixed_reply request }
{
    match request {
        GdbRequest::Features =>
            b"PacketSize=1000;ReverseStep+;ReverseContinue+;qXfer:features:read+;qXfer:auxv:read+;qXfer:siginfo:read+;QStartNoAckMode+;vContSupported+",
        GdbRequest::NoAcknowledgments | GdbRequest::Detach => b"OK",
        GdbRequest::Moves => b"vCont;c;C;s;S;r",
        GdbRequest::MoreThreads => b"l",
        GdbRequest::Attached => b"1",
        GdbRequest::Change | GdbRequest::Watch(..) => b"E01",
        _ => b"",
    }
}

/// The answer about threads, where nothing moves or changes.
fn threads_still<F: Findings>(
    alloc: Global,
    findings: &F,
    stand: &Stand,
    request: GdbRequest,
) -> Result<Text, OutOfMemory>
    requires { IsStandLawful (F.shown findings.now) stand.now }
    ensures { IfOk result (λ text. text ≡ threads_still (F.shown findings.now) stand.now request) }
{
    match request {
        GdbRequest::SelectThread(name)
        | GdbRequest::SelectMoving(name)
        | GdbRequest::IsAlive(name) => { there_text(alloc, named_thread(findings, stand, name)) }
        GdbRequest::ThreadText(name) => {
            about_text(alloc, findings, named_thread(findings, stand, name))
        }
        GdbRequest::Thread => thread_text(alloc, findings, stand.thread),
        GdbRequest::Threads => threads_text(alloc, findings),
        _ => whole(alloc, fixed(request)),
    }
}

/// The answer where nothing moves or changes, and no line of a session is asked.
fn still<F: Findings>(
    alloc: Global,
    findings: &F,
    setting: Setting<'_>,
    stand: &Stand,
    request: GdbRequest,
) -> Result<Text, OutOfMemory>
    requires { IsStandLawful (F.shown findings.now) stand.now }
    ensures { IfOk result (λ text. text ≡ still_reply (F.shown findings.now) setting.entry stand.now request) }
{
    match request {
        GdbRequest::Reason => {
            let stopped = cursor_of(findings, stand, stand.stopped);
            reason(alloc, findings, setting.signal, stopped)
        }
        GdbRequest::Offsets => offsets(alloc, setting.files.load_address),
        GdbRequest::Part(object, offset, count) => {
            let selected = here(findings, stand);
            let text = object_text(findings, &setting.files, selected, object);
            part(alloc, text, offset, count)
        }
        _ => at_cursor(alloc, findings, &setting.files, stand, request),
    }
}

/// The answer about registers and memory at the cursor of the selected thread.
fn at_cursor<F: Findings>(
    alloc: Global,
    findings: &F,
    files: &ProcessFiles<'_>,
    stand: &Stand,
    request: GdbRequest,
) -> Result<Text, OutOfMemory>
    requires { IsStandLawful (F.shown findings.now) stand.now }
    ensures { IfOk result (λ text. text ≡ cursor_reply (F.shown findings.now) files.now stand.now request) }
{
    let at = here(findings, stand);
    match request {
        GdbRequest::Registers => registers(alloc, findings, at),
        GdbRequest::Register(number) => register(alloc, findings, at, number),
        GdbRequest::Memory(address, count) => {
            let moment = moment_of(findings, at);
            let shown = known_bytes(alloc, findings, files, moment, (address, count))?;
            memory_digits(alloc, shown.bytes())
        }
        GdbRequest::Bytes(address, count) => {
            let moment = moment_of(findings, at);
            let shown = known_bytes(alloc, findings, files, moment, (address, count))?;
            memory_bytes(alloc, shown.bytes())
        }
        _ => threads_still(alloc, findings, stand, request),
    }
}
