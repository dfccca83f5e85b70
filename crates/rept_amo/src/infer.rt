//! The conclusions of a row of an atomic instruction, one after another into a list.

ghost use Rattle.std.specs.Prelude.{◌≡◌, ◌+◌, ◌<◌, ◌≤◌, ◌^◌, ◌++◌, ℕ, length};
ghost use Rattle.smallvec.specs.SmallVec.{HasRoomFor};
ghost use Rattle.rept_partial.specs.declared.flat.Flat.{Flat};
ghost use Rattle.rept_machine.specs.Arithmetic.{combined};
ghost use Rattle.rept_reason.specs.declared.view.inferred.When.TheVariants.{Before, After};
ghost use Rattle.rept_rules.specs.Operands.{less};
ghost use Rattle.rept_amo.specs.Conclusions.{word_before, word_after, word_stored, undone};
ghost use Rattle.rept_amo.specs.Listing.{bytes_inferred, word_inferred, from_both, word_there, word_left, source_of, answer_of, read_inferred, written_inferred, source_back, source_inferred, word_back_inferred, operation_inferred, if_success, stored_inferred, inferred_by};

use crate::form::{AtomicAccess, WordInferred, word_after, word_before, word_stored};
use crate::number;
use rept_isa::AmoOp;
use rept_machine::arithmetic::combined;
use rept_partial::Flat;
use rept_reason::{Cell, Conclusion, RowView, When};
use rept_rules::infer::{Conclusions, infer_register};
use rept_rules::look::{destination_after, word_from};

/// The four bytes of a word.
fn infer_bytes(inferred: &mut Conclusions, word: &WordInferred)
    requires room { HasRoomFor inferred.old 4 }
    requires place { word.now.place ≤ 4 }
    ensures items { inferred.new.items ≡ inferred.old.items ++ bytes_inferred word.now 4 }
    ensures capacity { inferred.new.capacity ≡ inferred.old.capacity }
    ensures few { length inferred.new.items ≤ length inferred.old.items + 4 }
{
    for k in 0..4 {
        inferred.push_reserved(Conclusion {
            rule: word.rule,
            when: word.when,
            cell: Cell::Byte(word.base.wrapping_add(k)),
            value: (word.word >> (8 * k)) % 256,
            slot: word.place + k,
        });
    }
}

/// The four bytes of a word before the row, where the word is known.
fn infer_word_before(inferred: &mut Conclusions, rule: u8, base: u32, word: Flat)
    requires { HasRoomFor inferred.old 4 }
    ensures items { inferred.new.items ≡ inferred.old.items ++ word_inferred (word_before rule base) word }
    ensures capacity { inferred.new.capacity ≡ inferred.old.capacity }
    ensures few { length inferred.new.items ≤ length inferred.old.items + 4 }
{
    match word {
        Flat::Unknown => {}
        Flat::Known(w) => infer_bytes(inferred, &word_before(rule, base, w)),
    }
}

/// What is known of the word before the row.
fn word_there<V: RowView>(x: &AtomicAccess, view: &V) -> Flat
    ensures { result ≡ word_there x.now (V.seen view.now) }
{
    word_from(view, When::Before, x.base)
}

/// What is known of the word after the row.
fn word_left<V: RowView>(x: &AtomicAccess, view: &V) -> Flat
    ensures { result ≡ word_left x.now (V.seen view.now) }
{
    word_from(view, When::After, x.base)
}

/// What is known of the source.
fn source_of<V: RowView>(x: &AtomicAccess, view: &V) -> Flat
    ensures { result ≡ source_of x.now (V.seen view.now) }
{
    view.reg(When::Before, x.form.rs2)
}

/// What is known of the answer. Nothing of x0, which takes none.
fn answer_of<V: RowView>(x: &AtomicAccess, view: &V) -> Flat
    ensures { result ≡ answer_of x.now (V.seen view.now) }
{
    destination_after(view, x.form.rd)
}

/// What an operation leaves, where its word and its source are known.
fn both_combined(op: AmoOp, word: Flat, source: Flat) -> Flat
    ensures { result ≡ from_both (λ w v. Flat.Known (combined op w v)) word source }
{
    match (word, source) {
        (Flat::Known(w), Flat::Known(v)) => Flat::Known(combined(op, w, v)),
        _ => Flat::Unknown,
    }
}

/// The word or the source of an ADD or XOR, from the word that it left and the other one.
fn both_undone(op: AmoOp, written: Flat, one: Flat) -> Flat
    ensures { result ≡ from_both (undone op) written one }
{
    match (written, one) {
        (Flat::Known(w), Flat::Known(v)) => undone(op, w, v),
        _ => Flat::Unknown,
    }
}

fn undone(op: AmoOp, written: u32, one: u32) -> Flat
    ensures { result ≡ undone op written one }
{
    match op {
        AmoOp::Add => Flat::Known(written.wrapping_sub(one)),
        AmoOp::Xor => Flat::Known(written ^ one),
        _ => Flat::Unknown,
    }
}

/// The register that takes the word, and the bytes that were there.
fn infer_read<V: RowView>(inferred: &mut Conclusions, x: &AtomicAccess, view: &V)
    requires { HasRoomFor inferred.old 5 }
    ensures items { inferred.new.items ≡ inferred.old.items ++ read_inferred x.now (V.seen view.now) }
    ensures capacity { inferred.new.capacity ≡ inferred.old.capacity }
    ensures few { length inferred.new.items ≤ length inferred.old.items + 5 }
{
    let there = word_there(x, view);
    infer_register(inferred, number::READ, When::After, x.form.rd, there);
    infer_word_before(inferred, number::READ_BACK, x.base, answer_of(x, view));
}

/// The bytes that an operation leaves.
fn infer_written<V: RowView>(inferred: &mut Conclusions, x: &AtomicAccess, view: &V)
    requires { HasRoomFor inferred.old 4 }
    ensures items { inferred.new.items ≡ inferred.old.items ++ written_inferred x.now (V.seen view.now) }
    ensures capacity { inferred.new.capacity ≡ inferred.old.capacity }
    ensures few { length inferred.new.items ≤ length inferred.old.items + 4 }
{
    match both_combined(x.form.op, word_there(x, view), source_of(x, view)) {
        Flat::Unknown => {}
        Flat::Known(w) => infer_bytes(inferred, &word_after(x.base, w)),
    }
}

/// The source, from the words before and after the row.
fn source_back(op: AmoOp, before: Flat, after: Flat) -> Flat
    ensures { result ≡ source_back op before after }
{
    match op {
        AmoOp::Swap => after,
        _ => both_undone(op, after, before),
    }
}

/// The source of a swap, an ADD or an XOR.
fn infer_source<V: RowView>(inferred: &mut Conclusions, x: &AtomicAccess, view: &V)
    requires { HasRoomFor inferred.old 1 }
    ensures items { inferred.new.items ≡ inferred.old.items ++ source_inferred x.now (V.seen view.now) }
    ensures capacity { inferred.new.capacity ≡ inferred.old.capacity }
    ensures few { length inferred.new.items ≤ length inferred.old.items + 1 }
{
    let source = source_back(x.form.op, word_there(x, view), word_left(x, view));
    infer_register(inferred, number::SOURCE, When::Before, x.form.rs2, source);
}

/// The bytes before an ADD or XOR.
fn infer_word_back<V: RowView>(inferred: &mut Conclusions, x: &AtomicAccess, view: &V)
    requires { HasRoomFor inferred.old 4 }
    ensures items { inferred.new.items ≡ inferred.old.items ++ word_back_inferred x.now (V.seen view.now) }
    ensures capacity { inferred.new.capacity ≡ inferred.old.capacity }
    ensures few { length inferred.new.items ≤ length inferred.old.items + 4 }
{
    let word = both_undone(x.form.op, word_left(x, view), source_of(x, view));
    infer_word_before(inferred, number::WORD_BACK, x.base, word);
}

/// All that an atomic memory operation gives.
fn infer_operation<V: RowView>(inferred: &mut Conclusions, x: &AtomicAccess, view: &V)
    requires { HasRoomFor inferred.old 14 }
    ensures items { inferred.new.items ≡ inferred.old.items ++ operation_inferred x.now (V.seen view.now) }
    ensures capacity { inferred.new.capacity ≡ inferred.old.capacity }
    ensures few { length inferred.new.items ≤ length inferred.old.items + 14 }
{
    infer_read(inferred, x, view);
    infer_written(inferred, x, view);
    infer_source(inferred, x, view);
    infer_word_back(inferred, x, view);
}

/// The source of an SC whose answer is 0.
fn if_success(answer: Flat, source: Flat) -> Flat
    ensures { result ≡ if_success answer source }
{
    match answer {
        Flat::Unknown => Flat::Unknown,
        Flat::Known(v) => if v == 0 { source } else { Flat::Unknown },
    }
}

/// The bytes that an SC stored.
fn infer_stored<V: RowView>(inferred: &mut Conclusions, x: &AtomicAccess, view: &V)
    requires { HasRoomFor inferred.old 4 }
    ensures items { inferred.new.items ≡ inferred.old.items ++ stored_inferred x.now (V.seen view.now) }
    ensures capacity { inferred.new.capacity ≡ inferred.old.capacity }
    ensures few { length inferred.new.items ≤ length inferred.old.items + 4 }
{
    match if_success(answer_of(x, view), source_of(x, view)) {
        Flat::Unknown => {}
        Flat::Known(v) => infer_bytes(inferred, &word_stored(x.base, v)),
    }
}

/// All that an atomic instruction of known address gives.
pub fn infer_access<V: RowView>(inferred: &mut Conclusions, x: &AtomicAccess, view: &V)
    requires { HasRoomFor inferred.old 14 }
    ensures items { inferred.new.items ≡ inferred.old.items ++ inferred_by x.now.form.op x.now (V.seen view.now) }
    ensures capacity { inferred.new.capacity ≡ inferred.old.capacity }
    ensures few { length inferred.new.items ≤ length inferred.old.items + 14 }
{
    match x.form.op {
        AmoOp::Lr => infer_read(inferred, x, view),
        AmoOp::Sc => infer_stored(inferred, x, view),
        _ => infer_operation(inferred, x, view),
    }
}
