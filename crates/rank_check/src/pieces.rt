//! A certificate in pieces: one line by itself, and one station without a line. Neither check takes memory,
//! and pieces may be checked in any order, on any machines.

ghost use Rattle.std.specs.Prelude.{◌≡◌, ◌↔◌, None, length, map, not};
ghost use Rattle.std.specs.List.{list_all};
ghost use Rattle.std.specs.Option.{option_copied};
ghost use Rattle.ghcn_fields.specs.Faults.{first_failing};
ghost use Rattle.rank_papers.specs.ReportLines.{named_in};
ghost use Rattle.rank_papers.specs.Papers.{candidates_of};
ghost use Rattle.rank_scores.specs.Candidates.{candidates};
ghost use Rattle.rank_check.specs.Pieces as pieces;
ghost use Rattle.rank_check.specs.Reach as reach;
ghost use Rattle.rank_check.specs.Survey as survey;
ghost use Rattle.rank_check.specs.Tests as tests;

use crate::lines::{is_at_most, may_stand};
use crate::survey::Top;
use crate::tally::raised;
use crate::verdict::Why;
use ghcn_files::Station;
use ghcn_series::Series;
use rank_papers::{Line, Row, trimmed};
use rank_query::Query;
use rank_scores::{Candidate, Sink, has_admitted_day, precedes, scan};

/// Checks one line of a certificate of version 2 by itself. Returns the first test that the line fails, and `None`
/// if and only if the line is right.
///
/// The series is that of the station and the query's element. `printed` is the line's count, 0 on a
/// `skip`. The rows are those of the report with the station's ID, in their order. `worst` is the report's last
/// row if the report has k rows. The series is scanned once, and once more for each row.
pub fn check_line(
    query: &Query,
    station: &Station,
    series: Option<&Series>,
    line: &Line,
    printed: u64,
    rows: &[Row],
    worst: Option<&Candidate>,
) -> Option<Why>
    requires { pieces.AreRowsWithin (option_copied worst) (candidates_of rows.now) }
    ensures first { result ≡ first_failing (pieces.piece_tests query.now station.now (option_copied series.entry)
        line.now printed (map named_in rows.now) (option_copied worst.entry)) }
    ensures accepted { (result ≡ None) ↔ pieces.IsRightPiece query.now station.now (option_copied series.entry)
        line.now printed (map named_in rows.now) (option_copied worst.entry) }
{
    first_fault(query, station, series, line, printed, rows, worst)
}

/// The first test that a line fails by itself.
fn first_fault(
    query: &Query,
    station: &Station,
    series: Option<&Series>,
    line: &Line,
    printed: u64,
    rows: &[Row],
    worst: Option<&Candidate>,
) -> Option<Why>
    ensures { result ≡ first_failing (pieces.piece_tests query.now station.now (option_copied series.entry)
        line.now printed (map named_in rows.now) (option_copied worst.entry)) }
{
    let own = match series {
        Some(own) if station.id == line.id && is_morsel(query, station, series) => own,
        _ => return Some(Why::OtherSeries),
    };
    if printed != rows.len() as u64 {
        return Some(Why::NotCounted);
    }
    if !are_candidates(query, station, own, rows) {
        return Some(Why::NotACandidate);
    }
    line_fault(query, own, line, rows, worst)
}

/// The first test that a line fails whose rows are candidates.
fn line_fault(
    query: &Query,
    series: &Series,
    line: &Line,
    rows: &[Row],
    worst: Option<&Candidate>,
) -> Option<Why>
    ensures { result ≡ first_failing (pieces.last_tests query.now series.now line.now
        (candidates_of rows.now) (option_copied worst.entry)) }
{
    let found = reach(query, series, rows, worst.copied());
    if found.left_out {
        return Some(Why::NotBest);
    }
    let top = Top {
        id: line.id,
        highest: found.highest,
    };
    if !is_at_most(&top, line) {
        return Some(Why::NoBound);
    }
    if !may_stand(score_of(worst), line) {
        return Some(Why::NotBelow);
    }
    None
}

/// Checks one station without a line by itself: whether its series isn't a morsel of the query.
///
/// The series is that of the station and the query's element.
pub fn check_absent(query: &Query, station: &Station, series: Option<&Series>) -> bool
    ensures { result ≡ not (pieces.is_morsel query.now station.now (option_copied series.entry)) }
{
    !is_morsel(query, station, series)
}

/// Whether the query admits a station and a day of its series.
fn is_morsel(query: &Query, station: &Station, series: Option<&Series>) -> bool
    ensures { result ≡ pieces.is_morsel query.now station.now (option_copied series.entry) }
{
    match series {
        Some(series) => query.admits_station(station) && has_admitted_day(series, query),
        None => false,
    }
}

/// The score of the worst row, if there is one.
fn score_of(worst: Option<&Candidate>) -> Option<i64>
    ensures { result ≡ pieces.score_of (option_copied worst.entry) }
{
    match worst {
        Some(worst) => Some(worst.score),
        None => None,
    }
}

/// Whether each row is a candidate of the series, with the station's name.
fn are_candidates(query: &Query, station: &Station, series: &Series, rows: &[Row]) -> bool
    ensures { result
        ≡ list_all (λ row. pieces.is_row_of query.now station.now series.now (named_in row)) rows.now }
{
    rows.iter()
        .all(|row| is_row_of(query, station, series, row))
}

/// Whether a row is a candidate of the series, with the station's name.
fn is_row_of(query: &Query, station: &Station, series: &Series, row: &Row) -> bool
    ensures { result ≡ pieces.is_row_of query.now station.now series.now (named_in row.now) }
{
    is_candidate(query, series, &row.candidate) && trimmed(&station.name) == row.name.as_slice()
}

/// Whether a candidate is one of the series.
fn is_candidate(query: &Query, series: &Series, candidate: &Candidate) -> bool
    ensures { result ≡ tests.is_one_of (candidates query.now series.now) candidate.now }
{
    let mut wanted = Wanted {
        candidate: *candidate,
        found: false,
    };
    scan(series, query, &mut wanted);
    wanted.found
}

/// A candidate that is looked for among those that are offered.
#[derive(Clone, Copy, Debug)]
pub(crate) struct Wanted {
    pub(crate) candidate: Candidate,
    /// Whether it was among them.
    pub(crate) found: bool,
}

impl Sink for Wanted {
    ghost use Rattle.rank_check.specs.Reach.{wanted_by};

    ghost taken = { wanted_by };

    fn offer(&mut self, candidate: Candidate) {
        self.found = self.found || candidate.cmp(&self.candidate).is_eq();
    }
}

/// What the candidates of a series are to the rows of its station, and their greatest score.
fn reach<'a>(
    query: &Query,
    series: &Series,
    rows: &'a [Row],
    worst: Option<Candidate>,
) -> Reached<'a>
    ensures left_out { result.left_out
        ≡ not (pieces.has_all query.now worst (candidates_of rows.now) series.now) }
    ensures highest { result.highest ≡ survey.top_score (candidates query.now series.now) }
{
    let mut found = Reached {
        rows,
        worst,
        left_out: false,
        highest: None,
    };
    scan(series, query, &mut found);
    found
}

/// Rows, and what is known of them from the candidates that were offered.
#[derive(Clone, Copy, Debug)]
pub(crate) struct Reached<'a> {
    pub(crate) rows: &'a [Row],
    pub(crate) worst: Option<Candidate>,
    /// Whether a candidate that is the worst row or precedes it isn't a row.
    pub(crate) left_out: bool,
    /// The greatest score of them.
    pub(crate) highest: Option<i64>,
}

impl<'a> Sink for Reached<'a> {
    ghost use Rattle.rank_check.specs.Reach.{reached_by};

    ghost taken = { reached_by };

    fn offer(&mut self, candidate: Candidate) {
        self.highest = Some(raised(self.highest, candidate.score));
        self.left_out = self.left_out || is_missing(self.rows, self.worst, &candidate);
    }
}

/// Whether a candidate is the worst row or precedes it, and isn't a row.
fn is_missing(rows: &[Row], worst: Option<Candidate>, candidate: &Candidate) -> bool
    ensures { result ≡ reach.is_missing rows.now worst candidate.now }
{
    is_within(worst, candidate) && !is_printed(rows, candidate)
}

/// Whether a candidate is the worst row or precedes it.
fn is_within(worst: Option<Candidate>, candidate: &Candidate) -> bool
    ensures { result ≡ pieces.is_within_worst worst candidate.now }
{
    match worst {
        Some(worst) => precedes(candidate, &worst) || candidate.cmp(&worst).is_eq(),
        None => true,
    }
}

/// Whether a candidate is that of a row.
fn is_printed(rows: &[Row], candidate: &Candidate) -> bool
    ensures { result ≡ reach.is_printed rows.now candidate.now }
{
    rows.iter().any(|row| row.candidate.cmp(candidate).is_eq())
}
