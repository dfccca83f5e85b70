//! Classes of words that differ by constants.

ghost use Rattle.std.specs.Prelude.{◌≡◌, ℕ, ◌+◌, ◌<◌, ◌≤◌, true, false, [], length, IfOk, OnOk, OnErr, Some, slice_get};
ghost use Rattle.rept_known.specs.Both.{both_has};
ghost use Rattle.rept_relate.specs.declared.classes.node.ClassNode.{ClassNode};
ghost use Rattle.rept_relate.specs.Classes.Valuations.{word_of, IsNodeValued, IsValued, IsNodeInPlace, IsRoot, KeepsWords, HaveSameWords};

use crate::classes::node::{ClassNode, Term};
use crate::classes::shift::shifted;
use rept_known::Both;
use rept_partial::Partial;
use std::alloc::{AllocError as OutOfMemory, Global};
use std::marker::Model;

/// No words are left that the nodes can have.
#[derive(Clone, Copy, PartialEq, Eq, Debug)]
pub struct Impossible;

/// Nodes, each of which stands for a word: by a parent and an offset, and with a set that has the
/// word. `IsValued` says which words all nodes can have together.
#[derive(Drop)]
pub struct Classes {
    nodes: Vec<ClassNode>,
}

impl Model for Classes {
    ghost use Rattle.std.specs.Prelude.{List, ◌≤◌, length};
    ghost use Rattle.rept_relate.specs.declared.classes.node.ClassNode.{ClassNode};
    ghost use Rattle.rept_relate.specs.Classes.Valuations.{IsForest};

    ghost Value = { List ClassNode };

    ghost view = { λ c. c.nodes.items };

    ghost invariant = { λ c. record { forest : IsForest c.nodes.items; fits : length c.nodes.items ≤ 4294967295 } };
}

impl Classes {
    /// No node.
    pub fn new(alloc: Global) -> Classes
        ensures { result ≡ [] }
    {
        Classes {
            nodes: Vec::new(alloc),
        }
    }

    /// How many nodes there are. They are numbered from 0 on.
    pub fn len(&self) -> u32
        ensures { result ≡ length self.now }
    {
        self.nodes.len() as u32
    }

    /// One node more, of a word in `set`, and its number. The words of the others are the same as
    /// before.
    pub fn add(&mut self, set: Both) -> Result<u32, OutOfMemory>
        requires room { length self.old < 4294967295 }
        ensures node { IfOk result (λ x. x ≡ length self.old) }
        ensures len { IfOk result (λ x. length self.new ≡ length self.old + 1) }
        ensures keeps { IfOk result (λ x. (value : ℕ → ℕ) → IsValued self.old value → both_has set (value x) ≡ true → IsValued self.new value) }
        ensures tells { IfOk result (λ x. (value : ℕ → ℕ) → IsValued self.new value → (IsValued self.old value) × (both_has set (value x) ≡ true)) }
    {
        let x = self.len();
        self.nodes.push(ClassNode {
            parent: x,
            offset: 0,
            set,
        })?;
        Ok(x)
    }

    /// A node.
    fn node(&self, x: u32) -> ClassNode
        requires { x < length self.now }
        ensures node { slice_get self.now x ≡ Some result }
        ensures place { IsNodeInPlace x result }
    {
        self.nodes[x as usize]
    }

    /// Puts another node in the place of one.
    fn put(&mut self, x: u32, node: ClassNode)
        requires inside { x < length self.old }
        requires place { IsNodeInPlace x node }
        ensures len { length self.new ≡ length self.old }
        ensures here { slice_get self.new x ≡ Some node }
        ensures others { (y : ℕ) → (y ≡ x → ⊥) → slice_get self.new y ≡ slice_get self.old y }
    {
        self.nodes[x as usize] = node;
    }

    /// Whether the node is the root of its class.
    fn is_root(&self, x: u32) -> bool
        requires { x < length self.now }
        ensures root { result ≡ true → IsRoot self.now x }
        ensures lower { result ≡ false → (node : ClassNode) → slice_get self.now x ≡ Some node → node.parent < x }
    {
        self.node(x).parent == x
    }

    /// Hangs a node on the parent of its parent, and answers it: the word of the node is that of
    /// this term.
    fn shorten(&mut self, x: u32) -> Term
        requires inside { x < length self.old }
        requires lower { (node : ClassNode) → slice_get self.old x ≡ Some node → node.parent < x }
        ensures len { length self.new ≡ length self.old }
        ensures lower { result.node < x }
        ensures alike { (value : ℕ → ℕ) → IsValued self.old value → value x ≡ word_of value result }
        ensures same { HaveSameWords self.old self.new }
        ensures roots { (y : ℕ) → IsRoot self.old y → IsRoot self.new y }
    {
        let node = self.node(x);
        let above = self.node(node.parent);
        let up = Term {
            node: above.parent,
            offset: node.offset.wrapping_add(above.offset),
        };
        self.put(
            x,
            ClassNode {
                parent: up.node,
                offset: up.offset,
                set: node.set,
            },
        );
        up
    }

    /// The term of the root of a class that has the same word as this term. It shortens the ways
    /// that it went, and the words of all nodes stay the same.
    pub fn find(&mut self, term: Term) -> Term
        requires { term.node < length self.old }
        ensures len { length self.new ≡ length self.old }
        ensures lower { result.node ≤ term.node }
        ensures root { IsRoot self.new result.node }
        ensures alike { (value : ℕ → ℕ) → IsValued self.old value → word_of value result ≡ word_of value term }
        ensures same { HaveSameWords self.old self.new }
        ensures roots { (y : ℕ) → IsRoot self.old y → IsRoot self.new y }
    {
        let mut at = term;
        while !self.is_root(at.node) {
            let up = self.shorten(at.node);
            at = Term {
                node: up.node,
                offset: up.offset.wrapping_add(at.offset),
            };
        }
        at
    }

    /// Cuts the set of a node to the words that another set has, too. Answers whether it changed.
    fn cut(&mut self, x: u32, set: Both) -> Result<bool, Impossible>
        requires { x < length self.old }
        ensures len { length self.new ≡ length self.old }
        ensures roots { (y : ℕ) → IsRoot self.old y → IsRoot self.new y }
        ensures keeps { OnOk result ((value : ℕ → ℕ) → IsValued self.old value → both_has set (value x) ≡ true → IsValued self.new value) }
        ensures tells { OnOk result ((value : ℕ → ℕ) → IsValued self.new value → (IsValued self.old value) × (both_has set (value x) ≡ true)) }
        ensures refuses { OnErr result ((value : ℕ → ℕ) → IsValued self.old value → both_has set (value x) ≡ true → ⊥) }
    {
        let node = self.node(x);
        match node.set.meet(set) {
            None => Err(Impossible),
            Some(met) => {
                self.put(
                    x,
                    ClassNode {
                        parent: node.parent,
                        offset: node.offset,
                        set: met,
                    },
                );
                Ok(met != node.set)
            }
        }
    }

    /// Hangs a root on a node of a smaller number, so that both terms have the same word.
    fn link(&mut self, root: Term, onto: Term)
        requires inside { root.node < length self.old }
        requires order { onto.node < root.node }
        requires root { IsRoot self.old root.node }
        ensures len { length self.new ≡ length self.old }
        ensures keeps { (value : ℕ → ℕ) → IsValued self.old value → word_of value root ≡ word_of value onto → IsValued self.new value }
        ensures tells { (value : ℕ → ℕ) → IsValued self.new value → (IsValued self.old value) × (word_of value root ≡ word_of value onto) }
    {
        let node = self.node(root.node);
        self.put(
            root.node,
            ClassNode {
                parent: onto.node,
                offset: onto.offset.wrapping_sub(root.offset),
                set: node.set,
            },
        );
    }

    /// Joins the class of a root to that of a node of a smaller number.
    fn join_root(&mut self, root: Term, onto: Term) -> Result<(), Impossible>
        requires inside { root.node < length self.old }
        requires order { onto.node < root.node }
        requires root { IsRoot self.old root.node }
        ensures len { length self.new ≡ length self.old }
        ensures keeps { OnOk result ((value : ℕ → ℕ) → IsValued self.old value → word_of value root ≡ word_of value onto → IsValued self.new value) }
        ensures tells { OnOk result ((value : ℕ → ℕ) → IsValued self.new value → (IsValued self.old value) × (word_of value root ≡ word_of value onto)) }
        ensures refuses { OnErr result ((value : ℕ → ℕ) → IsValued self.old value → word_of value root ≡ word_of value onto → ⊥) }
    {
        let node = self.node(root.node);
        let by = root.offset.wrapping_sub(onto.offset);
        self.cut(onto.node, shifted(node.set, by))?;
        self.link(root, onto);
        Ok(())
    }

    /// Puts two terms into one class: the words that are left are exactly those for which both
    /// terms have the same word. Answers whether they were in two classes before. Refuses where no
    /// words have it.
    pub fn join(&mut self, a: Term, b: Term) -> Result<bool, Impossible>
        requires first { a.node < length self.old }
        requires second { b.node < length self.old }
        ensures len { length self.new ≡ length self.old }
        ensures keeps { OnOk result ((value : ℕ → ℕ) → IsValued self.old value → word_of value a ≡ word_of value b → IsValued self.new value) }
        ensures tells { OnOk result ((value : ℕ → ℕ) → IsValued self.new value → (IsValued self.old value) × (word_of value a ≡ word_of value b)) }
        ensures refuses { OnErr result ((value : ℕ → ℕ) → IsValued self.old value → word_of value a ≡ word_of value b → ⊥) }
    {
        let first = self.find(a);
        let second = self.find(b);
        if first.node == second.node {
            if first.offset == second.offset {
                return Ok(false);
            }
            return Err(Impossible);
        }
        if first.node < second.node {
            self.join_root(second, first)?;
        } else {
            self.join_root(first, second)?;
        }
        Ok(true)
    }

    /// Cuts the set of a class to the words for which a term is in `set`. Answers whether the set
    /// of the class changed. Refuses where no words have it.
    pub fn learn(&mut self, term: Term, set: Both) -> Result<bool, Impossible>
        requires { term.node < length self.old }
        ensures len { length self.new ≡ length self.old }
        ensures keeps { OnOk result ((value : ℕ → ℕ) → IsValued self.old value → both_has set (word_of value term) ≡ true → IsValued self.new value) }
        ensures tells { OnOk result (KeepsWords self.new self.old) }
        ensures refuses { OnErr result ((value : ℕ → ℕ) → IsValued self.old value → both_has set (word_of value term) ≡ true → ⊥) }
    {
        let root = self.find(term);
        let by = 0u32.wrapping_sub(root.offset);
        self.cut(root.node, shifted(set, by))
    }

    /// A set that has the word of a term, by that of its class.
    pub fn set_of(&mut self, term: Term) -> Both
        requires { term.node < length self.old }
        ensures len { length self.new ≡ length self.old }
        ensures has { (value : ℕ → ℕ) → IsValued self.old value → both_has result (word_of value term) ≡ true }
        ensures same { HaveSameWords self.old self.new }
    {
        let root = self.find(term);
        let node = self.node(root.node);
        shifted(node.set, root.offset)
    }
}
