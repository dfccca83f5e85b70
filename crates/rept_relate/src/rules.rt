//! What operations tell of the classes of their operands and results.

ghost use Rattle.std.specs.Prelude.{◌≡◌, ℕ, ◌+◌, ◌-◌, ◌%◌, ◌<◌, ◌^◌, length, IfOk, OnOk, OnErr};
ghost use Rattle.rept_relate.specs.Classes.Valuations.{word_of, IsValued};
ghost use Rattle.rept_relate.specs.Relations.{KeepsIf, RefusesIf, IsResult};

use crate::classes::{Classes, Impossible, Term};
use crate::operations::Operation;
use rept_isa::RegOp;
use rept_partial::Partial;

/// Puts a node into the class of a term that has the same word.
pub fn join_sum(classes: &mut Classes, node: u32, sum: Term) -> Result<bool, Impossible>
    requires node { node < length classes.old }
    requires sum { sum.node < length classes.old }
    ensures len { length classes.new ≡ length classes.old }
    ensures keeps { OnOk result (KeepsIf (λ value. value node ≡ word_of value sum) classes.old classes.new) }
    ensures refuses { OnErr result (RefusesIf (λ value. value node ≡ word_of value sum) classes.old) }
{
    classes.join(Term { node, offset: 0 }, sum)
}

/// The term of the root of a node's class that has the node's word. A word that is known is a term
/// of node 0, whose word is 0.
pub fn root_term(classes: &mut Classes, node: u32) -> Result<Term, Impossible>
    requires { node < length classes.old }
    ensures len { length classes.new ≡ length classes.old }
    ensures below { IfOk result (λ t. t.node < length classes.old) }
    ensures keeps { IfOk result (λ t. (value : ℕ → ℕ) → value 0 ≡ 0 → value node < 2 ^ 32 → IsValued classes.old value → (IsValued classes.new value) × (value node ≡ word_of value t)) }
    ensures refuses { OnErr result ((value : ℕ → ℕ) → value 0 ≡ 0 → value node < 2 ^ 32 → IsValued classes.old value → ⊥) }
{
    let term = Term { node, offset: 0 };
    match classes.set_of(term).as_exact() {
        None => Ok(classes.find(term)),
        Some(v) => {
            let known = Term { node: 0, offset: v };
            join_sum(classes, node, known)?;
            Ok(known)
        }
    }
}

/// A sum is in the class of the one operand where the other one is known.
fn join_added(
    classes: &mut Classes,
    node: u32,
    first: Term,
    second: Term,
) -> Result<bool, Impossible>
    requires node { node < length classes.old }
    requires first { first.node < length classes.old }
    requires second { second.node < length classes.old }
    ensures len { length classes.new ≡ length classes.old }
    ensures keeps { OnOk result (KeepsIf (λ value. (value 0 ≡ 0) × (value node ≡ (word_of value first + word_of value second) % 2 ^ 32)) classes.old classes.new) }
    ensures refuses { OnErr result (RefusesIf (λ value. (value 0 ≡ 0) × (value node ≡ (word_of value first + word_of value second) % 2 ^ 32)) classes.old) }
{
    let offset = first.offset.wrapping_add(second.offset);
    if second.node == 0 {
        return join_sum(
            classes,
            node,
            Term {
                node: first.node,
                offset,
            },
        );
    }
    if first.node == 0 {
        return join_sum(
            classes,
            node,
            Term {
                node: second.node,
                offset,
            },
        );
    }
    Ok(false)
}

/// A difference is in the class of the first operand where the second one is known, and is known
/// where both are in one class.
fn join_subtracted(
    classes: &mut Classes,
    node: u32,
    first: Term,
    second: Term,
) -> Result<bool, Impossible>
    requires node { node < length classes.old }
    requires first { first.node < length classes.old }
    requires second { second.node < length classes.old }
    ensures len { length classes.new ≡ length classes.old }
    ensures keeps { OnOk result (KeepsIf (λ value. (value 0 ≡ 0) × (value node ≡ (word_of value first + (2 ^ 32 - word_of value second)) % 2 ^ 32)) classes.old classes.new) }
    ensures refuses { OnErr result (RefusesIf (λ value. (value 0 ≡ 0) × (value node ≡ (word_of value first + (2 ^ 32 - word_of value second)) % 2 ^ 32)) classes.old) }
{
    let offset = first.offset.wrapping_sub(second.offset);
    if second.node == 0 {
        return join_sum(
            classes,
            node,
            Term {
                node: first.node,
                offset,
            },
        );
    }
    if first.node == second.node {
        return join_sum(classes, node, Term { node: 0, offset });
    }
    Ok(false)
}

/// What an operation tells of the class of its result.
pub fn join_result(classes: &mut Classes, operation: &Operation) -> Result<bool, Impossible>
    requires node { operation.now.node < length classes.old }
    requires first { operation.now.first.node < length classes.old }
    requires second { operation.now.second.node < length classes.old }
    ensures len { length classes.new ≡ length classes.old }
    ensures keeps { OnOk result (KeepsIf (λ value. (value 0 ≡ 0) × IsResult value operation.now) classes.old classes.new) }
    ensures refuses { OnErr result (RefusesIf (λ value. (value 0 ≡ 0) × IsResult value operation.now) classes.old) }
{
    match operation.op {
        RegOp::Add => join_added(classes, operation.node, operation.first, operation.second),
        RegOp::Sub => join_subtracted(classes, operation.node, operation.first, operation.second),
        _ => Ok(false),
    }
}
