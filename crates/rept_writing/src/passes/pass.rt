//! How far the rules of each row were applied.

ghost use Rattle.std.specs.Prelude.{◌≡◌, ◌<◌, ℕ, true, false, IfOk, Some, length, slice_get, set};
ghost use Rattle.rept_writing.specs.declared.passes.pass.Pass.{Pass};

use std::alloc::{AllocError as OutOfMemory, Global};
use std::marker::Model;

/// How far a row's rules were applied.
#[derive(Clone, Copy)]
pub enum Pass {
    /// They weren't.
    Never,
    /// They were, when so many of the row's registers and bytes were known, and all that they let
    /// one conclude was learnt.
    With(u32),
    /// They were, and something that they let one conclude wasn't learnt.
    Cut,
}

/// Whether rules were applied, all that they let one conclude was learnt, and so many cells were
/// known then.
pub fn is_with(pass: Pass, cells: u32) -> bool
    ensures yes { result ≡ true → pass ≡ Pass.With cells }
    ensures no { result ≡ false → pass ≡ Pass.With cells → ⊥ }
{
    match pass {
        Pass::With(known) => known == cells,
        Pass::Never | Pass::Cut => false,
    }
}

/// How far the rules of each row were applied.
#[derive(Drop)]
pub struct RuleProgress {
    list: Vec<Pass>,
}

impl Model for RuleProgress {
    ghost use Rattle.std.specs.Prelude.{List};
    ghost use Rattle.rept_writing.specs.declared.passes.pass.Pass.{Pass};

    ghost Value = { List Pass };

    ghost view = { λ p. p.list.items };
}

impl RuleProgress {
    /// No row's rules were applied, of so many rows.
    pub fn new(alloc: Global, count: usize) -> Result<RuleProgress, OutOfMemory>
        ensures length { IfOk result (λ p. length p ≡ count) }
        ensures never { IfOk result (λ p. (i : ℕ) (x : Pass) → slice_get p i ≡ Some x → x ≡ Pass.Never) }
    {
        let list = vec![in alloc; Pass::Never; count]?;
        Ok(RuleProgress { list })
    }

    /// How far the rules of a row were applied.
    pub fn at(&self, i: u32) -> Pass
        requires { i < length self.now }
        ensures { slice_get self.now i ≡ Some result }
    {
        let list = self.list.as_slice();
        list[i as usize]
    }

    /// Keeps how far the rules of a row were applied.
    pub fn put(&mut self, i: u32, pass: Pass)
        requires { i < length self.old }
        ensures { self.new ≡ set self.old i pass }
    {
        self.list[i as usize] = pass;
    }

    /// No row's rules were applied.
    pub fn clear(&mut self)
        ensures length { length self.new ≡ length self.old }
        ensures never { (i : ℕ) (x : Pass) → slice_get self.new i ≡ Some x → x ≡ Pass.Never }
    {
        forget(&mut self.list);
    }
}

/// Makes each of them `Never`.
fn forget(list: &mut [Pass])
    ensures length { length list.new ≡ length list.old }
    ensures never { (i : ℕ) (x : Pass) → slice_get list.new i ≡ Some x → x ≡ Pass.Never }
{
    let count = list.len();
    for i in 0..count {
        list[i] = Pass::Never;
    }
}
