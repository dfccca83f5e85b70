//! What is said of the row that last wrote.

ghost use Rattle.rept_timeline.specs.Paths.{timeline};
ghost use Rattle.std.specs.Prelude.{◌≡◌, ◌<◌, ℕ, IsSome};
ghost use Rattle.rept_report.specs.Spots.{spot};
ghost use Rattle.rept_report.specs.Last.Latest.{CanAsk, IsLastWriter, IsMaybe, IsNoneFrom, IsPossibleWriter, IsSought, is_certain};

use crate::RunPaths;
use crate::last::search::LastRowSearch;
use rept_report::{RowWrites, SoughtByte, SoughtRows, Writer};

/// What is said of the row that last wrote, where each of the rows that are sought may have written
/// and no other did.
pub fn possible_writer<M: RowWrites>(paths: &RunPaths<'_>, rows: &M, sought: SoughtRows) -> Writer
    requires ready { CanAsk (timeline paths.now) (M.ready rows.now) sought }
    requires none { IsNoneFrom (IsSought (timeline paths.now) (M.writes rows.now) sought) sought.end }
    ensures { IsPossibleWriter (timeline paths.now).moments (IsSought (timeline paths.now) (M.writes rows.now) sought) result }
{
    let search = LastRowSearch {
        paths,
        rows,
        sought,
    };
    search.writer()
}

/// Whether a row writes each byte that it may write, and lies wholly before a moment.
fn is_certain<M: RowWrites>(paths: &RunPaths<'_>, rows: &M, row: u32, moment: u32) -> bool
    requires row { IsSome ((timeline paths.now).legs.row row) }
    requires ready { M.ready rows.now row }
    ensures { result ≡ is_certain (timeline paths.now).moments (M.writes rows.now) moment row }
{
    rows.is_sure(row) && paths.is_past(row, moment)
}

/// What is said of the row that last wrote a byte before a moment.
pub fn last_writer<M: RowWrites>(paths: &RunPaths<'_>, rows: &M, byte: SoughtByte) -> Writer
    requires ready { (i : ℕ) → i < (timeline paths.now).legs.count → M.ready rows.now i }
    requires none { IsNoneFrom (IsMaybe (timeline paths.now) (M.writes rows.now) (spot byte.moment byte.address)) byte.end }
    ensures { IsLastWriter (timeline paths.now) (M.writes rows.now) (spot byte.moment byte.address) result }
{
    let moment = byte.moment;
    let address = Some(byte.address);
    let end = byte.end;
    match possible_writer(
        paths,
        rows,
        SoughtRows {
            moment,
            address,
            end,
        },
    ) {
        Writer::MayWrite(row) => {
            if is_certain(paths, rows, row, moment) {
                Writer::Writes(row)
            } else {
                Writer::MayWrite(row)
            }
        }
        other => other,
    }
}
