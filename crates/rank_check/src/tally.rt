//! Candidates, counted against the rows of a report.
//!
//! The rows' candidates are marks in the order of all candidates. What is offered is counted at the first mark that
//! it precedes, so that what precedes a row was counted at the marks that the row doesn't precede.

ghost use Rattle.std.specs.Prelude.{◌≡◌, ◌≤◌, true, false, [], map, fold, length, None, IfOk, IfSome, IfNone};
ghost use Rattle.ghcn_series.specs.Says.{in_64_bits};
ghost use Rattle.rank_scores.specs.Candidates.{candidates};
ghost use Rattle.rank_papers.specs.Papers as read;
ghost use Rattle.rank_check.specs.Survey as survey;
ghost use Rattle.rank_check.specs.Marks as order;

use ghcn_fields::Memory;
use ghcn_series::Series;
use rank_papers::{Row, candidates_of};
use rank_query::Query;
use rank_scores::{Candidate, FloorSink, Sink, precedes, scan_to_floor};
use std::alloc::Global;
use std::marker::Model;

/// A row's candidate, and what is known of it from the candidates that were offered.
#[derive(Clone, Copy, Debug)]
pub(crate) struct Met {
    pub(crate) candidate: Candidate,
    /// Whether it is among them.
    pub(crate) present: bool,
    /// How many of them precede it.
    pub(crate) ahead: u64,
}

impl Met {
    /// Takes what is known from other candidates into account.
    pub(crate) fn add(&mut self, other: &Met)
        ensures { self.new ≡ survey.met_both self.old other.now }
    {
        self.present = self.present || other.present;
        self.ahead = self.ahead.saturating_add(other.ahead);
    }
}

/// A row's candidate, as a mark in the order of the candidates that are offered.
#[derive(Clone, Copy, Debug)]
pub(crate) struct Mark {
    pub(crate) candidate: Candidate,
    /// Whether it was offered itself.
    pub(crate) present: bool,
    /// How many were offered that precede it, and no mark before it.
    pub(crate) fresh: u64,
}

impl Mark {
    /// Takes a candidate into account that may be the mark's own.
    fn show(&mut self, candidate: &Candidate)
        ensures { self.new ≡ order.shown_by candidate.now self.old }
    {
        self.present = self.present || candidate.cmp(&self.candidate).is_eq();
    }

    /// Takes a candidate into account that precedes the mark, and no mark before it.
    fn count(&mut self)
        ensures { self.new ≡ order.counted_mark self.old }
    {
        self.fresh = self.fresh.saturating_add(1);
    }
}

/// The rows of a report against all candidates that were offered.
#[derive(Drop)]
pub(crate) struct Tally {
    /// In the order of the report.
    rows: Vec<Candidate>,
    /// The same in the order of candidates.
    marks: Vec<Mark>,
    /// No row comes after this one, so that most candidates end at one comparison.
    last: Option<Candidate>,
    count: u64,
    highest: Option<i64>,
}

impl Model for Tally {
    ghost use Rattle.std.specs.Prelude.{map};
    ghost use Rattle.rank_check.specs.Survey.{Tally};
    ghost use Rattle.rank_check.specs.Marks.{AreMarked, known};

    ghost Value = { Tally };

    ghost view = { λ t. record {
      rows = map (known t.marks.items) t.rows.items;
      count = t.count;
      highest = t.highest;
    } };

    ghost invariant = { λ t. AreMarked t.last t.rows.items t.marks.items };
}

impl Tally {
    /// The rows before any candidate.
    pub(crate) fn of(alloc: Global, rows: &[Row]) -> Result<Tally, Memory>
        ensures { IfOk result (λ made. made ≡ survey.nothing_offered (read.candidates_of rows.now)) }
    {
        let rows = candidates_of(alloc, rows)?;
        let marks = marks_of(alloc, rows.as_slice())?;
        Ok(Tally {
            last: last_of(rows.as_slice()),
            rows,
            marks,
            count: 0,
            highest: None,
        })
    }

    /// Offers the candidates of a series, and returns the greatest score of them.
    pub(crate) fn scan(&mut self, series: &Series, query: &Query) -> Option<i64>
        ensures taken { self.new ≡ fold survey.tally_with (survey.reset self.old) (candidates query.now series.now) }
        ensures highest { result ≡ self.new.highest }
    {
        self.highest = None;
        scan_to_floor(series, query, self);
        self.highest
    }

    /// How many candidates were offered.
    pub(crate) fn count(&self) -> u64
        ensures { result ≡ self.now.count }
    {
        self.count
    }

    /// The rows with what is known of each.
    pub(crate) fn rows(&self, alloc: Global) -> Result<Vec<Met>, Memory>
        ensures { IfOk result (λ rows. rows.items ≡ self.now.rows) }
    {
        known_rows(alloc, self.rows.as_slice(), self.marks.as_slice())
    }
}

impl Sink for Tally {
    ghost use Rattle.rank_check.specs.Survey.{tally_with};

    ghost taken = { tally_with };

    #[inline(always)]
    fn offer(&mut self, candidate: Candidate) {
        self.count = self.count.saturating_add(1);
        self.highest = Some(raised(self.highest, candidate.score));
        // Of a long series most candidates end here.
        if may_reach(&self.last, candidate.score) {
            meet(&self.last, &mut self.marks, candidate);
        }
    }
}

impl FloorSink for Tally {
    ghost use Rattle.rank_check.specs.Survey.{IsFloor};

    ghost is_floor = { IsFloor };

    /// The lesser of the last row's score and the greatest score so far.
    #[inline(always)]
    fn floor(&self) -> Option<i64>
        ensures floor { IfSome result (λ floor. survey.IsFloor self.now floor) }
        ensures none { IfNone result (self.now.highest ≡ None) }
    {
        let highest = self.highest?;
        Some(match &self.last {
            Some(last) => highest.min(last.score),
            None => highest,
        })
    }

    /// Counts candidates that precede no row and don't raise the greatest score.
    #[inline(always)]
    fn pass_over(&mut self, _floor: i64, count: u32) {
        self.count = self.count.saturating_add(count as u64);
    }
}

/// Takes one more candidate into account, unless it comes after the last row.
// Few candidates score as much as the last row, so it isn't built into the loops over days.
#[inline(never)]
fn meet(last: &Option<Candidate>, marks: &mut Vec<Mark>, candidate: Candidate)
    requires { order.AreMarksInOrder marks.old.items }
    ensures same { order.candidates_at marks.new.items ≡ order.candidates_at marks.old.items }
    ensures reached { survey.reaches last.now candidate ≡ true →
        order.Meets candidate marks.old.items marks.new.items }
    ensures behind { survey.reaches last.now candidate ≡ false → marks.new.items ≡ marks.old.items }
{
    if reaches(last, &candidate) {
        meet_marks(marks.as_mut_slice(), &candidate);
    }
}

/// Takes one more candidate into account at the marks of some.
fn meet_marks(marks: &mut [Mark], candidate: &Candidate)
    requires { order.AreMarksInOrder marks.old }
    ensures { order.Meets candidate.now marks.old marks.new }
{
    let place = place_of(marks, candidate);
    if may_be_marked(marks, place, candidate) {
        show_all(marks, candidate);
    }
    count_at(marks, place);
}

/// The place of the first mark that the candidate precedes, or the number of all marks.
fn place_of(marks: &[Mark], candidate: &Candidate) -> usize
    requires { order.AreMarksInOrder marks.now }
    ensures bound { result ≤ length marks.now }
    ensures place { order.IsPlace (order.candidates_at marks.now) candidate.now result }
{
    if precedes_all(marks, candidate) {
        return 0;
    }
    marks.partition_point(|mark| !precedes(candidate, &mark.candidate))
}

/// Whether the candidate precedes the first mark.
///
/// If a report's rows have low scores nearly all candidates do, and end at this comparison.
fn precedes_all(marks: &[Mark], candidate: &Candidate) -> bool
    ensures { result ≡ order.precedes_first candidate.now marks.now }
{
    match marks.first() {
        Some(first) => precedes(candidate, &first.candidate),
        None => false,
    }
}

/// Whether a mark may be of the candidate: it ties with the mark before its place.
///
/// No two candidates of a query tie, so this is so at most once for each row.
fn may_be_marked(marks: &[Mark], place: usize, candidate: &Candidate) -> bool
    requires { place ≤ length marks.now }
    ensures { result ≡ order.ties_before place marks.now candidate.now }
{
    match place.checked_sub(1) {
        Some(before) => !precedes(&marks[before].candidate, candidate),
        None => false,
    }
}

/// Takes a candidate into account at the marks that may be of it.
fn show_all(marks: &mut [Mark], candidate: &Candidate)
    ensures { marks.new ≡ map (order.shown_by candidate.now) marks.old }
{
    for mark in marks {
        mark.show(candidate);
    }
}

/// Takes a candidate into account that precedes the mark at a place first.
fn count_at(marks: &mut [Mark], place: usize)
    ensures { marks.new ≡ order.counted_at place marks.old }
{
    if place < marks.len() {
        marks[place].count();
    }
}

/// The greater of a score and those before it.
#[inline(always)]
pub(crate) fn raised(highest: Option<i64>, score: i64) -> i64
    ensures { result ≡ survey.raised highest score }
{
    match highest {
        Some(highest) => highest.max(score),
        None => score,
    }
}

/// Marks for candidates, of which nothing is known yet.
fn marks_of(alloc: Global, rows: &[Candidate]) -> Result<Vec<Mark>, Memory>
    ensures { IfOk result (λ marks. order.AreUnmet rows.now marks.items) }
{
    let mut ordered = Vec::new(alloc);
    ordered.extend_from_slice(rows)?;
    ordered.sort()?;
    unmet(alloc, ordered.as_slice())
}

/// A mark for each candidate, of which nothing is known yet.
fn unmet(alloc: Global, ordered: &[Candidate]) -> Result<Vec<Mark>, Memory>
    ensures { IfOk result (λ marks. marks.items ≡ map order.unmet ordered.now) }
{
    let mut marks = Vec::new(alloc);
    for candidate in ordered {
        marks.push(Mark {
            candidate: *candidate,
            present: false,
            fresh: 0,
        })?;
    }
    Ok(marks)
}

/// What marks know of each of some candidates.
fn known_rows(alloc: Global, rows: &[Candidate], marks: &[Mark]) -> Result<Vec<Met>, Memory>
    requires { order.AreMarksInOrder marks.now }
    ensures { IfOk result (λ found. found.items ≡ map (order.known marks.now) rows.now) }
{
    let mut found = Vec::new(alloc);
    for row in rows {
        found.push(known(marks, row))?;
    }
    Ok(found)
}

/// What marks know of a candidate.
fn known(marks: &[Mark], candidate: &Candidate) -> Met
    requires { order.AreMarksInOrder marks.now }
    ensures { result ≡ order.known marks.now candidate.now }
{
    let place = place_of(marks, candidate);
    Met {
        candidate: *candidate,
        present: is_met(marks, place, candidate),
        ahead: counted(&marks[..place]),
    }
}

/// Whether the mark before a place is the candidate's, and was offered.
fn is_met_before(marks: &[Mark], place: usize, candidate: &Candidate) -> bool
    requires { place ≤ length marks.now }
    ensures { result ≡ order.is_met_before place marks.now candidate.now }
{
    match place.checked_sub(1) {
        Some(before) => is_met_at(&marks[before], candidate),
        None => false,
    }
}

/// Whether a candidate with this place has a mark that was offered.
fn is_met(marks: &[Mark], place: usize, candidate: &Candidate) -> bool
    requires { place ≤ length marks.now }
    ensures { result ≡ order.is_met marks.now candidate.now }
{
    // Nearly each row's own mark comes right before its place.
    is_met_before(marks, place, candidate) || is_met_anywhere(marks, candidate)
}

/// Whether a candidate has a mark that was offered.
fn is_met_anywhere(marks: &[Mark], candidate: &Candidate) -> bool
    ensures { result ≡ order.is_met marks.now candidate.now }
{
    for mark in marks {
        if is_met_at(mark, candidate) {
            return true;
        }
    }
    false
}

/// Whether the mark is the candidate's, and was offered.
fn is_met_at(mark: &Mark, candidate: &Candidate) -> bool
    ensures { result ≡ order.is_met_at candidate.now mark.now }
{
    mark.present && mark.candidate.cmp(candidate).is_eq()
}

/// How many were counted at some marks.
fn counted(marks: &[Mark]) -> u64
    ensures { result ≡ in_64_bits (order.counted marks.now) }
{
    let mut ahead = 0u64;
    for mark in marks {
        ahead = ahead.saturating_add(mark.fresh);
    }
    ahead
}

/// A row that no other comes after, if there are rows.
fn last_of(rows: &[Candidate]) -> Option<Candidate>
    ensures { survey.IsLast result rows.now }
{
    let mut last = None;
    for row in rows {
        last = Some(later(last, row));
    }
    last
}

/// The candidate, or the last one if the candidate doesn't come after it.
fn later(last: Option<Candidate>, candidate: &Candidate) -> Candidate
    ensures { result ≡ survey.later last candidate.now }
{
    match last {
        Some(last) => if candidate.cmp(&last).is_le() {
            last
        } else {
            *candidate
        },
        None => *candidate,
    }
}

/// Whether there is a last row, and this isn't a lower score than its own.
#[inline(always)]
fn may_reach(last: &Option<Candidate>, score: i64) -> bool
    ensures { result ≡ order.may_reach last.now score }
{
    match last {
        Some(last) => last.score <= score,
        None => false,
    }
}

/// Whether there is a last row, and the candidate doesn't come after it.
fn reaches(last: &Option<Candidate>, candidate: &Candidate) -> bool
    ensures { result ≡ survey.reaches last.now candidate.now }
{
    match last {
        Some(last) => candidate.cmp(last).is_le(),
        None => false,
    }
}
