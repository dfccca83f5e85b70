//! What calls answer.

ghost use Rattle.std.specs.Prelude.{◌≡◌, ℕ, ◌+◌, ◌<◌, ◌≤◌, ◌%◌, ◌^◌, ◌&&◌, ◌||◌, ◌==◌, true, false, nat_le, length, OnOk, OnErr, Some, slice_get};
ghost use Rattle.rept_isa.specs.declared.instr.Instr.TheVariants.{Ecall};
ghost use Rattle.rept_isa.specs.declared.row.StepRow.{StepRow};
ghost use Rattle.rept_machine.specs.Calls.{is_error};
ghost use Rattle.rept_known.specs.Bits.{bits_has};
ghost use Rattle.rept_known.specs.Both.{both_has};
ghost use Rattle.rept_narrow.specs.Admitted.{Story, answer_fits, is_below, is_same};
ghost use Rattle.rept_narrow.specs.Rules.{KeepsSets, RefusesSets};

use crate::known::{InferPath, PathPremises};
use crate::table::{Empty, Table};
use rept_isa::{Instr, register};
use rept_known::{Bits, Both};
use rept_partial::{Partial, Range};

/// The least answer that is an error.
const FIRST_ERROR: u32 = 0xffff_f001;

/// The words from `lo` to `hi` that agree with known bits; all words where there is none.
pub(crate) fn words_between(lo: u32, hi: u32, bits: Bits) -> Both
    ensures { (v : ℕ) → lo ≤ v → v ≤ hi → bits_has bits v ≡ true → both_has result v ≡ true }
{
    if lo > hi {
        return Both::unknown();
    }
    match Both::new(Range::new(lo, hi), bits) {
        None => Both::unknown(),
        Some(set) => set,
    }
}

/// The greatest word below a limit; the greatest one where there is none.
fn last_below(limit: Option<u32>) -> u32
    ensures { (v : ℕ) → v < 2 ^ 32 → is_below limit v ≡ true → v ≤ result }
{
    match limit {
        None => u32::MAX,
        Some(limit) => limit.saturating_sub(1),
    }
}

/// The least word that isn't in the program's own memory, nor before it.
fn past_image(image_end: u64) -> u32
    ensures { result ≤ image_end }
{
    if image_end < 0xffff_ffff {
        image_end as u32
    } else {
        u32::MAX
    }
}

/// The addresses between the program's own memory and a limit that agree with known bits.
fn heap_words(limit: Option<u32>, image_end: u64, bits: Bits) -> Both
    ensures { (v : ℕ) → v < 2 ^ 32 → bits_has bits v ≡ true → (nat_le image_end v && is_below limit v) ≡ true → both_has result v ≡ true }
{
    words_between(past_image(image_end), last_below(limit), bits)
}

/// The words that begin a page.
fn page_starts() -> Bits
    ensures { (v : ℕ) → v < 2 ^ 32 → v % 4096 ≡ 0 → bits_has result v ≡ true }
{
    Bits::new(0, 0xffff_f000)
}

/// Whether none of the words of a set is an error.
fn has_no_error(answer: Both) -> bool
    ensures { result ≡ true → (v : ℕ) → both_has answer v ≡ true → is_error v ≡ false }
{
    answer.hi() < FIRST_ERROR
}

/// Where mapped pages may begin, if the set that is known of the answer has no error.
fn mapped_at(image_end: u64, answer: Both) -> Both
    ensures { (v : ℕ) → both_has answer v ≡ true → (is_error v || (v % 4096 == 0 && nat_le image_end v)) ≡ true → both_has result v ≡ true }
{
    if has_no_error(answer) {
        heap_words(None, image_end, page_starts())
    } else {
        Both::unknown()
    }
}

/// How many bytes a call may have read or written that was asked for so many, if the set that is
/// known of the answer has no error.
fn counted(asked: Both, answer: Both) -> Both
    ensures { (v most : ℕ) → both_has answer v ≡ true → both_has asked most ≡ true → (is_error v || nat_le v most) ≡ true → both_has result v ≡ true }
{
    if has_no_error(answer) {
        words_between(0, asked.hi(), Bits::unknown())
    } else {
        Both::unknown()
    }
}

/// The number of the process, if it is known.
fn process_number<P: PathPremises>(premises: &P) -> Both
    ensures { (v : ℕ) → v < 2 ^ 32 → is_same (P.premises premises.now).process v ≡ true → both_has result v ≡ true }
{
    match premises.process() {
        None => Both::unknown(),
        Some(number) => Both::exact(number),
    }
}

/// Whether a call of this number reads or writes bytes and answers how many: read 63, write 64.
fn counts_bytes(number: u32) -> bool
    ensures { result ≡ (number == 63 || number == 64) }
{
    number == 63 || number == 64
}

/// Whether a call of this number asks for the process: getpid 172, gettid 178.
fn asks_process(number: u32) -> bool
    ensures { result ≡ (number == 172 || number == 178) }
{
    number == 172 || number == 178
}

/// What a call of this number may answer, by the sets of its third argument and of its answer.
fn answer_set<P: PathPremises>(
    premises: &P,
    image_end: u64,
    number: u32,
    sets: (Both, Both),
) -> Both
    ensures { (v most : ℕ) → both_has sets.0 most ≡ true → both_has sets.1 v ≡ true → answer_fits (P.premises premises.now) image_end number most v ≡ true → both_has result v ≡ true }
{
    let (asked, answer) = sets;
    if number == 214 {
        heap_words(premises.stack_from(), image_end, Bits::unknown())
    } else if number == 222 {
        mapped_at(image_end, answer)
    } else if counts_bytes(number) {
        counted(asked, answer)
    } else if asks_process(number) {
        process_number(premises)
    } else {
        Both::unknown()
    }
}

/// The answer of a call whose number is known. Answers whether its set changed.
fn tell_answer<P: PathPremises>(
    table: &mut Table,
    premises: &P,
    image_end: u64,
    index: u32,
) -> Result<bool, Empty>
    requires inside { index + 1 < table.old.points }
    ensures points { table.new.points ≡ table.old.points }
    ensures keeps { OnOk result ((story : Story) (row : StepRow) → slice_get story.rows index ≡ Some row → row.instr ≡ Ecall → story.image_end ≡ image_end → story.premises ≡ P.premises premises.now → KeepsSets story table.old table.new) }
    ensures refuses { OnErr result ((story : Story) (row : StepRow) → slice_get story.rows index ≡ Some row → row.instr ≡ Ecall → story.image_end ≡ image_end → story.premises ≡ P.premises premises.now → RefusesSets story table.old) }
{
    // for the proof alone
    let _points = table.points();
    match table.at(index, register(17)).as_exact() {
        None => Ok(false),
        Some(number) => {
            let asked = table.at(index, register(12));
            let answer = table.at(index + 1, register(10));
            let set = answer_set(premises, image_end, number, (asked, answer));
            table.narrow(index + 1, register(10), set)
        }
    }
}

/// The answer of a row, if it is a call whose number is known. Answers whether its set changed.
fn tell_answer_at<P: PathPremises>(
    table: &mut Table,
    premises: &P,
    path: InferPath<'_>,
    index: u32,
) -> Result<bool, Empty>
    requires points { table.old.points ≡ length path.rows.now + 1 }
    requires inside { index < length path.rows.now }
    ensures points { table.new.points ≡ table.old.points }
    ensures keeps { OnOk result ((story : Story) → story.rows ≡ path.entry.rows.now → story.image_end ≡ path.entry.image_end → story.premises ≡ P.premises premises.now → KeepsSets story table.old table.new) }
    ensures refuses { OnErr result ((story : Story) → story.rows ≡ path.entry.rows.now → story.image_end ≡ path.entry.image_end → story.premises ≡ P.premises premises.now → RefusesSets story table.old) }
{
    let row = path.rows[index as usize];
    match row.instr {
        Instr::Ecall => tell_answer(table, premises, path.image_end, index),
        _ => Ok(false),
    }
}

/// What the calls of a path answer lies where the premise on answers lets it lie. Answers whether a
/// set changed.
pub fn tell_answers<P: PathPremises>(
    table: &mut Table,
    premises: &P,
    path: InferPath<'_>,
) -> Result<bool, Empty>
    requires points { table.old.points ≡ length path.rows.now + 1 }
    ensures points { table.new.points ≡ table.old.points }
    ensures keeps { OnOk result ((story : Story) → story.rows ≡ path.entry.rows.now → story.image_end ≡ path.entry.image_end → story.premises ≡ P.premises premises.now → KeepsSets story table.old table.new) }
    ensures refuses { OnErr result ((story : Story) → story.rows ≡ path.entry.rows.now → story.image_end ≡ path.entry.image_end → story.premises ≡ P.premises premises.now → RefusesSets story table.old) }
{
    let mut changed = false;
    for index in 0..table.points() - 1 {
        if tell_answer_at(table, premises, path, index)? {
            changed = true;
        }
    }
    Ok(changed)
}
