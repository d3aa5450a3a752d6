//! The lines of the series that the data of a part hold.

ghost use Rattle.std.specs.Prelude.{◌≡◌, Some, map, IfOk};
ghost use Rattle.std.specs.Option.{option_copied};
ghost use Rattle.rank_papers.specs.Certificate.{count_of};
ghost use Rattle.rank_papers.specs.ReportLines.{named_in};
ghost use Rattle.rank_query.specs.Meaning.Asked.{IsAsked};
ghost use Rattle.rank_papers.specs.Papers.{of_rows};
ghost use Rattle.rank_parts.specs.InPieces.{worst_of};
ghost use Rattle.rank_parts.specs.Parts as parts;
ghost use Rattle.rank_parts.specs.Seen.{AreSeen, IsSeen};

use crate::rows::own_rows;
use crate::series::is_own;
use ghcn_fields::Memory;
use ghcn_series::Data;
use rank_check::{Paper, Refusal, Why, check_line};
use rank_papers::{Line, Row, candidates_of, row_counts};
use rank_query::Query;
use rank_scores::Candidate;
use std::alloc::Global;

/// The refusal of the first line of these data's series that fails a test.
pub(crate) fn lines_fault(
    alloc: Global,
    dataset: &Data,
    query: &Query,
    rows: &[Row],
    lines: &[Line],
) -> Result<Option<Refusal>, Memory>
    requires { AreSeen query.now (map named_in rows.now) lines.now }
    ensures { IfOk result (λ fault. fault
        ≡ parts.first_refused (parts.why_of_line query.now dataset.now (map named_in rows.now)) 4 lines.now) }
{
    let candidates = candidates_of(alloc, rows)?;
    let counts = row_counts(alloc, candidates.as_slice(), lines)?;
    for place in 0..lines.len() {
        let why = line_why(alloc, dataset, query, rows, &lines[place], counts[place])?;
        if let Some(why) = why {
            let line = place as u64 + 4;
            return Ok(Some(Refusal::new(Paper::Certificate, line, why)));
        }
    }
    Ok(None)
}

/// Why a line is refused that has that many rows: the first test that it fails, if its series is one
/// of these data.
fn line_why(
    alloc: Global,
    dataset: &Data,
    query: &Query,
    rows: &[Row],
    line: &Line,
    count: u64,
) -> Result<Option<Why>, Memory>
    requires seen { IsSeen query.now (map named_in rows.now) line.now }
    requires count { count ≡ count_of (of_rows (map named_in rows.now)) line.now }
    ensures { IfOk result (λ why. why ≡ parts.why_of_line query.now dataset.now (map named_in rows.now) line.now) }
{
    let Some(series) = dataset.series(&line.id, query.element()) else {
        return Ok(None);
    };
    let Some(station) = dataset.stations().get(&line.id) else {
        return Ok(None);
    };
    if !is_own(query, station, Some(series)) {
        return Ok(None);
    }
    let own = own_rows(alloc, rows, &line.id, count)?;
    let worst = worst_of(query, rows);
    Ok(check_line(
        query,
        station,
        Some(series),
        line,
        count,
        own.as_slice(),
        worst,
    ))
}

/// The last row, if there are as many as were asked for.
fn worst_of<'a>(query: &Query, rows: &'a [Row]) -> Option<&'a Candidate>
    ensures asked { IsAsked query.now }
    ensures worst { option_copied result ≡ worst_of query.now.k (map named_in rows.now) }
{
    let row = rows.get(query.k() as usize - 1)?;
    Some(&row.candidate)
}
