//! The tests of the lines of a certificate, one line after the other.

ghost use Rattle.std.specs.Prelude.{◌≡◌, Some, true, ◌<◌, ◌==◌, length, slice_get, int_le, not, ◌||◌};
ghost use Rattle.std.specs.Option.{option_copied, option_map_or};
ghost use Rattle.rank_scores.specs.Order as order;
ghost use Rattle.rank_check.specs.FoundFaults.{IsFaultOfLine, IsFaultOfLineAt, IsFaultOfLines};

use crate::refusal::Refusal;
use crate::survey::Top;
use crate::verdict::Why;
use rank_papers::{Line, Paper};
use rank_scores::bound_is_below;

/// The first test that a line fails, after the lines before it, if the certificate has this k-th
/// score and these counts, and that many of the report's rows belong to each line's station.
pub(crate) fn lines_fault(
    kth: Option<i64>,
    wanted: &[u64],
    counts: &[u64],
    lines: &[Line],
    tops: &[Top],
) -> Option<Refusal>
    requires { length wanted.now ≡ length lines.now }
    ensures { IsFaultOfLines kth wanted.now counts.now lines.now tops.now result }
{
    for place in 0..lines.len() {
        let fault = fault_at(kth, wanted, counts, lines, place, top_at(tops, place));
        if fault.is_some() {
            return fault;
        }
    }
    None
}

/// The morsel of a place, if there is one.
fn top_at(tops: &[Top], place: usize) -> Option<&Top>
    ensures { option_copied result ≡ slice_get tops.now place }
{
    tops.get(place)
}

/// The count of a place, if there is one.
fn count_at(counts: &[u64], place: usize) -> Option<u64>
    ensures { result ≡ slice_get counts.now place }
{
    counts.get(place).copied()
}

/// The first test that the line at a place fails.
fn fault_at(
    kth: Option<i64>,
    wanted: &[u64],
    counts: &[u64],
    lines: &[Line],
    place: usize,
    top: Option<&Top>,
) -> Option<Refusal>
    requires within { place < length lines.now }
    requires many { length wanted.now ≡ length lines.now }
    ensures { IsFaultOfLineAt kth wanted.now counts.now lines.now place
        (option_copied top.entry) result }
{
    let count = count_at(counts, place);
    line_fault(
        kth,
        wanted[place],
        &lines[place],
        place as u64 + 4,
        count,
        top,
    )
}

/// The first test that a line fails, by the number of rows of its station, its number, its count, and
/// what was found of the morsel of its place.
fn line_fault(
    kth: Option<i64>,
    wanted: u64,
    line: &Line,
    number: u64,
    count: Option<u64>,
    top: Option<&Top>,
) -> Option<Refusal>
    ensures { IsFaultOfLine kth wanted number line.now count (option_copied top.entry) result }
{
    let top = match top {
        Some(top) if top.id == line.id => top,
        _ => {
            return Some(Refusal::new(Paper::Certificate, number, Why::OtherSeries));
        }
    };
    if !is_at_most(top, line) {
        return Some(Refusal::new(Paper::Certificate, number, Why::NoBound));
    }
    if !may_stand(kth, line) {
        return Some(Refusal::new(Paper::Certificate, number, Why::NotBelow));
    }
    if !is_counted(wanted, count) {
        return Some(Refusal::new(Paper::Certificate, number, Why::NotCounted));
    }
    None
}

/// Whether a count, if there is one, is the number of rows of a line's station.
fn is_counted(wanted: u64, count: Option<u64>) -> bool
    ensures { result ≡ option_map_or (λ n. n == wanted) count true }
{
    match count {
        Some(count) => count == wanted,
        None => true,
    }
}

/// Whether no candidate of a morsel is above a line's bound.
pub(crate) fn is_at_most(top: &Top, line: &Line) -> bool
    ensures { result ≡ option_map_or (λ score. int_le score line.now.bound) top.now.highest true }
{
    match top.highest {
        Some(highest) => highest <= line.bound,
        None => true,
    }
}

/// Whether a line isn't a skip, or a skip below the k-th score.
pub(crate) fn may_stand(kth: Option<i64>, line: &Line) -> bool
    ensures { result ≡ (not line.now.skipped || order.bound_is_below kth line.now.bound) }
{
    !line.skipped || bound_is_below(kth, line.bound)
}
