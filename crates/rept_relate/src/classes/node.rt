//! One node of the classes, and a node with a constant.

use rept_known::Both;

/// A node stands for one word. Its word is that of its parent and an offset, modulo 2^32, and it is
/// in the node's set. A root is its own parent.
#[derive(Clone, Copy, Debug)]
pub struct ClassNode {
    pub(crate) parent: u32,
    pub(crate) offset: u32,
    pub(crate) set: Both,
}

/// The word of a node and a constant, modulo 2^32.
#[derive(Clone, Copy, PartialEq, Eq, Debug)]
pub struct Term {
    /// the number of the node
    pub node: u32,
    /// what is added to its word
    pub offset: u32,
}
