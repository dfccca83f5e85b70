//! What a conclusion of a row of an atomic instruction rests on.

ghost use Rattle.std.specs.Prelude.{◌≡◌, ◌+◌, ◌<◌, ◌≤◌, ◌^◌, ◌++◌, ℕ, length};
ghost use Rattle.smallvec.specs.SmallVec.{HasRoomFor};
ghost use Rattle.rept_amo.specs.Needs.{source_needs, access_needs};

use crate::form::AtomicAccess;
use crate::number;
use rept_isa::AmoOp;
use rept_reason::When;
use rept_rules::rest::{Needs, need_both, need_bytes, need_register};

/// The words that the source rests on.
fn need_words(needs: &mut Needs, op: AmoOp, base: u32)
    requires { HasRoomFor needs.old 8 }
    ensures items { needs.new.items ≡ needs.old.items ++ source_needs op base }
    ensures capacity { needs.new.capacity ≡ needs.old.capacity }
{
    match op {
        AmoOp::Swap => need_bytes(needs, When::After, base, 4),
        _ => {
            need_bytes(needs, When::Before, base, 4);
            need_bytes(needs, When::After, base, 4);
        }
    }
}

/// Adds what a conclusion by this rule rests on.
pub fn add_needs(needs: &mut Needs, x: &AtomicAccess, rule: u8)
    requires { HasRoomFor needs.old 9 }
    ensures items { needs.new.items ≡ needs.old.items ++ access_needs x.now rule }
    ensures capacity { needs.new.capacity ≡ needs.old.capacity }
{
    let form = x.form;
    match rule {
        number::READ => {
            need_register(needs, When::Before, form.rs1);
            need_bytes(needs, When::Before, x.base, 4);
        }
        number::WRITTEN => {
            need_both(needs, form.rs1, form.rs2);
            need_bytes(needs, When::Before, x.base, 4);
        }
        number::READ_BACK => {
            need_register(needs, When::Before, form.rs1);
            need_register(needs, When::After, form.rd);
        }
        number::SOURCE => {
            need_register(needs, When::Before, form.rs1);
            need_words(needs, form.op, x.base);
        }
        number::WORD_BACK => {
            need_both(needs, form.rs1, form.rs2);
            need_bytes(needs, When::After, x.base, 4);
        }
        _ => {
            need_both(needs, form.rs1, form.rs2);
            need_register(needs, When::After, form.rd);
        }
    }
}
