//! The line of a query, which a report and a certificate have, and whether two have the same.

ghost use Rattle.std.specs.Prelude.{◌≡◌, IfOk};
ghost use Rattle.rank_papers.specs.Lines as lines;
ghost use Rattle.rank_papers.specs.Papers as papers;

use crate::lines::{are_printable, field_from};
use crate::report_text::push_query;
use ghcn_fields::Memory;
use rank_query::Query;
use std::alloc::Global;
use std::str;

/// The query whose line this is.
pub(crate) fn query_of(
    alloc: Global,
    paper: &mut Vec<u8>,
    line: &[u8],
) -> Result<Option<Query>, Memory>
    ensures { IfOk result (λ query. query ≡ lines.query_in line.now) }
{
    let Some(query) = query_of_text(field_from(line, 6)) else {
        return Ok(None);
    };
    paper.clear();
    push_query(alloc, paper, &query)?;
    Ok(if paper.as_slice() == line {
        Some(query)
    } else {
        None
    })
}

/// The query that a text denotes, if its bytes can be printed.
fn query_of_text(text: &[u8]) -> Option<Query>
    ensures { result ≡ lines.query_of_text text.now }
{
    if !are_printable(text) {
        return None;
    }
    let Ok(text) = str::from_utf8(text) else {
        unreachable!();
    };
    match Query::parse(text) {
        Ok(query) => Some(query),
        Err(_) => None,
    }
}

/// Whether two queries have one canonical text.
pub fn is_same_query(alloc: Global, a: &Query, b: &Query) -> Result<bool, Memory>
    ensures { IfOk result (λ same. same ≡ papers.same_query a.now b.now) }
{
    let (one, other) = (a.text(alloc)?, b.text(alloc)?);
    Ok(one.as_bytes() == other.as_bytes())
}
