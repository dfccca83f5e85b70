//! From what is known of a path to what follows besides.

ghost use Rattle.std.specs.Prelude.{◌≡◌, ◌+◌, ◌<◌, ◌^◌, ℕ, length, IfOk, Err, OnOk, OnErr};
ghost use Rattle.rept_narrow.specs.Admitted.{Story};
ghost use Rattle.rept_infer.specs.Holding.{Keeps, Refuses, IsFinerHolding};
ghost use Rattle.rept_infer.specs.Path.{IsStoryOf, known_in, path_reader, told_in};

use crate::calls::settled_from;
use crate::finding::{Found, rounds};
use crate::fixed::FixedPath;
use crate::path::InferredPath;
use crate::stop::InferStop;
use rept_narrow::{Empty, InferPath, KnownPath, Lanes, PathPremises, Table};
use std::alloc::Global;

/// What follows of a path, over what is known of it before. In each admitted execution in which that
/// is true, what is told is true; nothing that was known gets lost, and no set gets wider. Where it
/// answers a contradiction, what is known before is true in no admitted execution.
pub fn infer<'a, K: KnownPath, P: PathPremises>(
    alloc: Global,
    path: InferPath<'a>,
    known: &'a K,
    premises: &'a P,
) -> Result<InferredPath<'a, K, P>, InferStop>
    requires few { length path.rows.now + 1 < 2 ^ 32 }
    ensures holds { IfOk result (λ t. (story : Story) → IsStoryOf story path.entry.rows.now path.entry.image_end (P.premises premises.now) → Keeps story (known_in (path_reader K.set K.byte P.premises) known.now) (told_in (path_reader K.set K.byte P.premises) t)) }
    ensures finer { IfOk result (λ t. IsFinerHolding (told_in (path_reader K.set K.byte P.premises) t) (known_in (path_reader K.set K.byte P.premises) known.now)) }
    ensures impossible { (empty : Empty) → result ≡ Err (InferStop.Contradiction empty) → (story : Story) → IsStoryOf story path.entry.rows.now path.entry.image_end (P.premises premises.now) → Refuses story (known_in (path_reader K.set K.byte P.premises) known.now) }
{
    let rows = path.rows;
    let last = rows.len() as u32;
    let table = match Table::of_known(alloc, known, last + 1) {
        Err(_) => return Err(InferStop::OutOfMemory),
        Ok(table) => table,
    };
    let fixed = FixedPath {
        known,
        premises,
        settled: settled_from(&table, rows),
        last,
    };
    let first = Found {
        table,
        on: Lanes::new(alloc),
        back: Lanes::new(alloc),
        related: false,
    };
    match rounds(first, (alloc, path), &fixed, premises) {
        Err(stop) => Err(stop),
        Ok(found) => {
            let Found {
                table,
                on,
                back,
                ..
            } = found;
            let settled = settled_from(&table, rows);
            Ok(InferredPath {
                last,
                known,
                premises,
                table,
                on,
                back,
                settled,
            })
        }
    }
}
