//! The scan of a series for its candidates.

ghost use Rattle.std.specs.Prelude.{◌≡◌};
ghost use Rattle.std.specs.List.{fold};
ghost use Rattle.ghcn_series.specs.Series.{IsSeries};
ghost use Rattle.rank_scores.specs.Candidates.{candidates, contenders, contenders_among};
ghost use Rattle.rank_scores.specs.Extremes.{score_by};
ghost use Rattle.rank_scores.specs.Leading.{held_with};
ghost use Rattle.rank_scores.specs.Meaning.Candidates as meaning;

use crate::admitted::Admitted;
use crate::extreme::Extreme;
use crate::floor::{FloorSink, Floorless, is_passed_over};
use crate::leading::Leading;
use crate::spell::{Spell, scan_spells};
use crate::window::scan_windows;
use crate::{Candidate, Sink};
use ghcn_files::StationId;
use ghcn_series::{BlockDays, Series};
use rank_query::{Per, Query, Score};

/// Offers each candidate of the series once, by increasing first day.
///
/// The station is taken as admitted, and the series as one of the query's element.
pub fn scan<S: Sink>(series: &Series, query: &Query, sink: &mut S)
    ensures { sink.new ≡ fold S.taken sink.old (candidates query.now series.now) }
{
    let mut all = Floorless { sink };
    scan_to_floor(series, query, &mut all);
}

/// Offers the candidates of the series by increasing first day, as `scan` does.
///
/// A part has admitted days of one block of 32 days. If single days are ranked and no day of a part reaches the sink's
/// floor, the sink is given the number of these days alone. If spells are ranked and the floor is above 32 days, it is
/// given the number of those that lie within a part, except for the first and the last one. If windows are ranked and
/// no value is negative, it is given the number of those that end in some days of a part that follow one another, if
/// these and the days before them that such windows have are below the floor in sum. If the best of groups are asked
/// for, not each of these is a candidate, and all candidates are offered.
pub fn scan_to_floor<S: FloorSink>(series: &Series, query: &Query, sink: &mut S)
    ensures { sink.new ≡ fold S.taken sink.old (candidates query.now series.now) }
{
    match query.per() {
        Per::Each => scan_contenders(series, query, sink),
        Per::Station | Per::Year => scan_groups(series, query, sink),
    }
}

/// Offers each contender of the series, except for days of parts of which none reaches the sink's floor, for spells
/// within a part that are too short for it, and for windows whose days are below it in sum: of these the sink is given
/// the number alone.
fn scan_contenders<S: FloorSink>(series: &Series, query: &Query, sink: &mut S)
    ensures offered { sink.new ≡ fold S.taken sink.old (contenders query.now series.now) }
    ensures series { IsSeries series.now }
{
    let id = series.id();
    match query.score() {
        Score::Highest(_) => scan_days(id, series, query, Extreme::Highest, sink),
        Score::Lowest(_) => scan_days(id, series, query, Extreme::Lowest, sink),
        Score::Sum(n, _) => scan_windows(id, series, query, n, sink),
        Score::Dry => scan_spells(id, series, query, Spell::Dry, sink),
        Score::Wet => scan_spells(id, series, query, Spell::Wet, sink),
        Score::Hot(least) => scan_spells(id, series, query, Spell::Hot(least), sink),
        Score::Cold(most) => scan_spells(id, series, query, Spell::Cold(most), sink),
    }
}

/// Offers the best contender of each group.
#[inline(never)]
fn scan_groups<S: Sink>(series: &Series, query: &Query, sink: &mut S)
    ensures { sink.new ≡ fold S.taken sink.old (candidates query.now series.now) }
{
    let mut leading = Leading::of(query.per(), sink);
    scan_to_leading(series, query, &mut leading);
    let Leading {
        per: _,
        group,
        sink,
    } = leading;
    if let Some(open) = group {
        sink.offer(open.best);
    }
}

/// Offers each contender of the series to what holds the best of the open group.
fn scan_to_leading<S: Sink>(series: &Series, query: &Query, leading: &mut Leading<S>)
    ensures same_sink { leading.new.sink.ghost_name ≡ leading.old.sink.ghost_name }
    ensures held { (leading.new.group, leading.new.sink.now) ≡ fold (held_with leading.old.per S.taken)
        (leading.old.group, leading.old.sink.now) (contenders query.now series.now) }
    ensures series { IsSeries series.now }
{
    // Not each contender below a floor is a candidate, so each is offered.
    let mut all = Floorless { sink: leading };
    scan_contenders(series, query, &mut all);
}

/// Offers each admitted day, except for those of parts of which no day reaches the sink's floor: of
/// these parts the sink is given the number of days.
fn scan_days<S: FloorSink>(
    id: StationId,
    series: &Series,
    query: &Query,
    extreme: Extreme,
    sink: &mut S,
)
    ensures { sink.new ≡ fold S.taken sink.old
        (contenders_among id (meaning.Days (score_by extreme)) (meaning.admitted query.now series.now)) }
{
    let mut admitted = Admitted::of(series, query);
    while let Some(part) = admitted.next_part() {
        if !is_passed_over(&part, extreme, sink) {
            offer_days(id, part, extreme, sink);
        }
    }
}

/// Offers each day of a part, by the number that ranks it.
#[inline(always)]
fn offer_days<S: Sink>(id: StationId, part: BlockDays, extreme: Extreme, sink: &mut S)
    ensures { sink.new ≡ fold S.taken sink.old
        (contenders_among id (meaning.Days (score_by extreme)) part.entry) }
{
    for (day, value) in part {
        sink.offer(Candidate {
            id,
            first: day,
            last: day,
            score: extreme.score(value),
        });
    }
}
