//! Answers that no report changes.

ghost use Rattle.std.specs.Prelude.{◌≡◌, IfOk};
ghost use Rattle.rept_stub.specs.Early.{early_reply, early_selection};

use crate::answers::fixed;
use crate::description::description;
use crate::pieces::{part, whole};
use rept_remote::{GdbRequest, TargetObject, ThreadName};
use rept_word::{OutOfMemory, Text};
use std::alloc::Global;

/// The answer to a request, where it is the same over each report and for each thread, as long as
/// nothing moved and no thread was selected. None for every other request. The only refusal is out
/// of memory.
pub fn early_answer(alloc: Global, request: GdbRequest) -> Result<Option<Text>, OutOfMemory>
    ensures { IfOk result (λ text. text ≡ early_reply request) }
{
    match request {
        GdbRequest::Features
        | GdbRequest::NoAcknowledgments
        | GdbRequest::Moves
        | GdbRequest::Attached
        | GdbRequest::Unknown => Ok(Some(whole(alloc, fixed(request))?)),
        GdbRequest::Part(TargetObject::Description, offset, count) => {
            Ok(Some(part(alloc, description(), offset, count)?))
        }
        GdbRequest::SelectThread(name) | GdbRequest::SelectMoving(name) => {
            early_selection(alloc, name)
        }
        _ => Ok(None),
    }
}

/// The answer where a thread is selected.
fn early_selection(alloc: Global, name: ThreadName) -> Result<Option<Text>, OutOfMemory>
    ensures { IfOk result (λ text. text ≡ early_selection name) }
{
    match name {
        ThreadName::Any => Ok(Some(whole(alloc, b"OK")?)),
        _ => Ok(None),
    }
}
