//! The rows of one station.

ghost use Rattle.std.specs.Prelude.{◌≡◌, [], map, IfOk};
ghost use Rattle.rank_papers.specs.ReportLines.{named_in};
ghost use Rattle.rank_parts.specs.InPieces.{rows_with};

use ghcn_fields::Memory;
use ghcn_files::StationId;
use rank_papers::Row;
use std::alloc::Global;

/// The rows of a station, in their order, if that many belong to it.
///
/// Most stations have none, and then the rows aren't looked at.
pub(crate) fn own_rows(
    alloc: Global,
    rows: &[Row],
    id: &StationId,
    count: u64,
) -> Result<Vec<Row>, Memory>
    requires { count ≡ 0 → rows_with id.now (map named_in rows.now) ≡ [] }
    ensures { IfOk result (λ own. map named_in own.items ≡ rows_with id.now (map named_in rows.now)) }
{
    if count == 0 {
        return Ok(Vec::new(alloc));
    }
    rows_of(alloc, rows, id)
}

/// The rows of a station, in their order.
fn rows_of(alloc: Global, rows: &[Row], id: &StationId) -> Result<Vec<Row>, Memory>
    ensures { IfOk result (λ own. map named_in own.items ≡ rows_with id.now (map named_in rows.now)) }
{
    let mut own = Vec::new(alloc);
    for row in rows {
        if row.candidate.id == *id {
            own.push(copy_of(alloc, row)?)?;
        }
    }
    Ok(own)
}

/// A copy of a row.
fn copy_of(alloc: Global, row: &Row) -> Result<Row, Memory>
    ensures { IfOk result (λ copy. named_in copy ≡ named_in row.now) }
{
    Ok(Row {
        candidate: row.candidate,
        name: Vec::from_slice(alloc, row.name.as_slice())?,
    })
}
