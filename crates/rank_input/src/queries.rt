//! A list of queries, one a line.

ghost use Rattle.std.specs.Prelude.{◌≡◌, true, IfOk, IfErr};
ghost use Rattle.std.specs.List.{All, AllZip, Any};
ghost use Rattle.ghcn_files.specs.declared.element.Element.{Element};
ghost use Rattle.ghcn_files.specs.Elements.{is_kept};
ghost use Rattle.rank_query.specs.Meaning.Asked.{score_element};
ghost use Rattle.rank_query.specs.Meaning.Asks.{Asks};
ghost use Rattle.rank_input.specs.Queries.{query_lines, IsBadLine, IsFirstBadQuery};

use ghcn_fields::{Memory, lines};
use ghcn_files::Keep;
use rank_query::{Query, QueryFault};
use std::alloc::{AllocFailed, Global};
use std::str;

/// Why a list of queries is refused: its first line that isn't a query decides. Lines count from 1.
#[derive(Clone, Copy, Debug, PartialEq, Eq)]
pub enum QueriesFault {
    /// A line isn't a query, and this is its error.
    Line { line: u64, fault: QueryFault },
    /// A line isn't UTF-8.
    NotText(u64),
    /// Out of memory. It can come at any allocation, so it has no place in the order.
    Memory(Memory),
}

impl<T: Drop> From<AllocFailed<T>> for QueriesFault {
    ghost use Rattle.std.specs.Prelude.{◌≡◌, true};
    ghost use Rattle.rank_input.specs.Queries.{is_memory};

    ghost from_gives = { λ _ fault. is_memory fault ≡ true };

    fn from(_refused: AllocFailed<T>) -> Self {
        QueriesFault::Memory(Memory)
    }
}

/// The queries of a list in its order, one a line; or the error of the first line that isn't one. Lines end as those
/// of other files do. A list without a line is read as one empty line, which isn't a query.
pub fn read_queries(alloc: Global, text: &[u8]) -> Result<Vec<Query>, QueriesFault>
    ensures ok { IfOk result (λ queries. AllZip Asks (query_lines text.now) queries.items) }
    ensures err { IfErr result (IsFirstBadQuery text.now) }
{
    let mut queries = Vec::new(alloc);
    for (number, line) in lines(text) {
        queries.push(query_of_line(number, line)?)?;
    }
    if queries.is_empty() {
        queries.push(query_of_line(1, b"")?)?;
    }
    Ok(queries)
}

/// The query of a line with this number, or why the line isn't one.
fn query_of_line(number: u64, line: &[u8]) -> Result<Query, QueriesFault>
    ensures ok { IfOk result (Asks line.now) }
    ensures err { IfErr result (IsBadLine number line.now) }
{
    let Ok(line) = str::from_utf8(line) else {
        return Err(QueriesFault::NotText(number));
    };
    match Query::parse(line) {
        Ok(query) => Ok(query),
        Err(fault) => Err(QueriesFault::Line {
            line: number,
            fault,
        }),
    }
}

/// The elements whose values some queries need: each query's own, and no other.
pub fn needed_by(queries: &[Query]) -> Keep
    ensures own { All (λ q. is_kept result (score_element q.score) ≡ true) queries.now }
    ensures no_other { (e : Element) → is_kept result e ≡ true
        → Any (λ q. score_element q.score ≡ e) queries.now }
{
    let mut keep = Keep::nothing();
    for query in queries {
        keep = keep.with(query.element());
    }
    keep
}
