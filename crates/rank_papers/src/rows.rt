//! The rows of a report: their candidates, and the k-th score.

ghost use Rattle.std.specs.Prelude.{◌≡◌, IfOk};
ghost use Rattle.rank_query.specs.Meaning.Asked.{IsAsked};
ghost use Rattle.rank_papers.specs.Certificate.{kth_of_best};
ghost use Rattle.rank_papers.specs.Papers as papers;

use crate::Row;
use ghcn_fields::Memory;
use rank_query::Query;
use rank_scores::Candidate;
use std::alloc::Global;

/// The candidates of rows.
pub fn candidates_of(alloc: Global, rows: &[Row]) -> Result<Vec<Candidate>, Memory>
    ensures { IfOk result (λ found. found.items ≡ papers.candidates_of rows.now) }
{
    Ok(rows.iter().map(|row| row.candidate).collect(alloc)?)
}

/// The score of the k-th row, if there are that many.
pub fn kth_score(query: &Query, rows: &[Row]) -> Option<i64>
    ensures asked { IsAsked query.now }
    ensures kth { result ≡ kth_of_best query.now.k (papers.candidates_of rows.now) }
{
    let row = rows.get(query.k() as usize - 1)?;
    Some(row.candidate.score)
}
