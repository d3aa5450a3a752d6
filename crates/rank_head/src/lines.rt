//! The lines of a certificate: their order, and their counts.

ghost use Rattle.std.specs.Prelude.{◌≡◌, ◌<◌, ◌==◌, ◌++◌, map, length, replicate, IfOk, IfSome};
ghost use Rattle.std.specs.List.{zip};
ghost use Rattle.ghcn_fields.specs.Faults.{first_failing};
ghost use Rattle.rank_papers.specs.ReportLines.{named_in};
ghost use Rattle.rank_papers.specs.Papers.{neighbours};
ghost use Rattle.rank_head.specs.FirstPlaces.{IsFirstPlace};
ghost use Rattle.rank_head.specs.HeadTests as tests;

use crate::HeadFault;
use crate::rows::scanned_fault;
use ghcn_fields::Memory;
use rank_papers::{Line, Row};
use std::alloc::Global;

/// The refusal of the first line whose ID doesn't come after that of the line before it. The second
/// line of a series is line 5 of the certificate.
pub(crate) fn rise_fault(lines: &[Line]) -> Option<HeadFault>
    ensures { result ≡ first_failing (tests.rising_tests lines.now) }
{
    let place = first_not_rising(lines)?;
    Some(HeadFault::NotRising {
        line: place as u64 + 5,
    })
}

/// The place of the first line whose ID doesn't come before that of the next.
fn first_not_rising(lines: &[Line]) -> Option<usize>
    ensures place { IsFirstPlace (λ two. tests.stands_before two.0.id two.1.id)
        (neighbours lines.now) result }
    ensures within { IfSome result (λ place. place < length lines.now) }
{
    let [_, behind @ ..] = lines else {
        return None;
    };
    let mut pairs = lines.iter().zip(behind.iter());
    pairs.position(|(line, next)| !line.id.cmp(&next.id).is_lt())
}

/// The refusal of the first row that belongs to no series that was scanned, or otherwise of the first
/// count, if there are any, that isn't the number of rows of its line's station. The first line of a series
/// is line 4 of the certificate.
pub(crate) fn count_fault(
    alloc: Global,
    rows: &[Row],
    lines: &[Line],
    counts: &[u64],
) -> Result<Option<HeadFault>, Memory>
    requires { tests.IdsRise lines.now }
    ensures { IfOk result (λ fault. fault
        ≡ first_failing (tests.scanned_tests lines.now (map named_in rows.now)
        ++ tests.count_tests (map named_in rows.now) lines.now counts.now)) }
{
    let mut wanted = no_rows(alloc, lines.len())?;
    let fault = scanned_fault(lines, rows, &mut wanted);
    if fault.is_some() {
        return Ok(fault);
    }
    Ok(miscount(counts, wanted.as_slice()))
}

/// The counts of that many lines before a row is counted.
fn no_rows(alloc: Global, lines: usize) -> Result<Vec<u64>, Memory>
    ensures { IfOk result (λ counts. counts.items ≡ replicate lines 0) }
{
    let mut counts = Vec::new(alloc);
    counts.resize(lines, 0)?;
    Ok(counts)
}

/// The refusal of the first count that isn't the one that is wanted.
fn miscount(counts: &[u64], wanted: &[u64]) -> Option<HeadFault>
    ensures { result ≡ first_failing (tests.matching_tests counts.now wanted.now) }
{
    let place = first_miscounted(counts, wanted)?;
    Some(HeadFault::NotCounted {
        line: place as u64 + 4,
    })
}

/// The place of the first count that isn't the one that is wanted.
fn first_miscounted(counts: &[u64], wanted: &[u64]) -> Option<usize>
    ensures place { IsFirstPlace (λ two. two.0 == two.1) (zip counts.now wanted.now) result }
    ensures within { IfSome result (λ place. place < length counts.now) }
{
    let mut pairs = counts.iter().zip(wanted.iter());
    pairs.position(|(count, wanted)| count != wanted)
}
