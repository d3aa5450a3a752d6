//! Spells: longest runs of consecutive days, each admitted and usable, whose values pass a test.

ghost use Rattle.std.specs.Prelude.{◌≡◌, true, false, IsTrue, Some, None, is_some, filter, []};
ghost use Rattle.std.specs.List.{fold};
ghost use Rattle.std.specs.Option.{option_map_or};
ghost use Rattle.ghcn_files.specs.declared.station.StationId.{StationId};
ghost use Rattle.rank_scores.specs.Spells.{can_be_asked};
ghost use Rattle.rank_scores.specs.Spells as spells;
ghost use Rattle.rank_scores.specs.Candidates.{test_of, contenders_among};
ghost use Rattle.rank_scores.specs.Meaning.Candidates as meaning;

use crate::admitted::{Admitted, comes_next};
use crate::floor::FloorSink;
use crate::{Candidate, Sink};
use ghcn_fields::Day;
use ghcn_files::StationId;
use ghcn_series::{BlockDays, Series};
use rank_query::Query;

/// 1 mm, in tenths of a millimetre.
const ONE_MILLIMETRE: i32 = 10;

/// Which days a spell has, by their values: precipitation (ETCCDI), or the maximum or the minimum
/// temperature.
#[derive(Clone, Copy, Debug)]
pub enum Spell {
    /// Less than 1 mm.
    Dry,
    /// At least 1 mm.
    Wet,
    /// At least this many tenths of a degree Celsius.
    Hot(i32),
    /// At most this many tenths of a degree Celsius.
    Cold(i32),
}

impl Spell {
    /// Whether there is a value, in tenths of a millimetre or of a degree, and a day that has it is of
    /// the kind.
    pub fn passes(self, value: Option<i32>) -> bool
        ensures { result ≡ option_map_or (test_of self) value false }
    {
        match (self, value) {
            (_, None) => false,
            (Spell::Dry, Some(value)) => value < ONE_MILLIMETRE,
            (Spell::Wet, Some(value)) => value >= ONE_MILLIMETRE,
            (Spell::Hot(least), Some(value)) => value >= least,
            (Spell::Cold(most), Some(value)) => value <= most,
        }
    }

    /// Leaves out the days that aren't of the kind.
    #[inline(always)]
    fn keep(self, days: &mut BlockDays)
        requires { IsTrue (can_be_asked self) }
        ensures { days.new ≡ filter (λ x. test_of self x.1) days.old }
    {
        match self {
            Spell::Dry => days.keep_below(ONE_MILLIMETRE),
            Spell::Wet => days.keep_from(ONE_MILLIMETRE),
            Spell::Hot(least) => days.keep_from(least),
            Spell::Cold(most) => days.keep_below(most + 1),
        }
    }
}

/// The days of a block: no spell within one is longer.
const BLOCK_DAYS: i64 = 32;

/// Offers each spell, once a day of the kind came that isn't in it any more, except for those within a part that are too
/// short for the sink's floor: of these the sink is given the number alone.
///
/// Of a part the days of the kind are found together, and those in a row are added together.
#[inline(always)]
pub(crate) fn scan_spells<S: FloorSink>(
    id: StationId,
    series: &Series,
    query: &Query,
    spell: Spell,
    sink: &mut S,
)
    requires { IsTrue (can_be_asked spell) }
    ensures { sink.new ≡ fold S.taken sink.old
        (contenders_among id (meaning.Spells (test_of spell)) (meaning.admitted query.now series.now)) }
{
    let mut run = Run::none();
    let mut admitted = Admitted::of(series, query);
    while let Some(mut part) = admitted.next_part() {
        spell.keep(&mut part);
        add_runs_to_floor(id, &mut run, part, sink);
    }
    offer_spell(id, &run, sink);
}

/// Adds the runs of a part to the open spell, and offers each spell that ends. The last one stays open.
#[inline(always)]
fn add_runs<S: Sink>(id: StationId, run: &mut Run, mut part: BlockDays, sink: &mut S)
    ensures { spells.EndAlike S.taken id (sink.old, (spells.spell_in run.old, part.entry))
        (sink.new, (spells.spell_in run.new, [])) }
{
    while let Some((first, last)) = part.next_run() {
        add_run(id, run, first, last, sink);
    }
}

/// Adds the runs of a part as `add_runs` does. If the sink's floor is above a block's days, the runs between the first
/// and the last one aren't looked at one by one: the branches that this takes can't be predicted.
#[inline(always)]
fn add_runs_to_floor<S: FloorSink>(id: StationId, run: &mut Run, mut part: BlockDays, sink: &mut S)
    ensures { spells.EndAlike S.taken id (sink.old, (spells.spell_in run.old, part.entry))
        (sink.new, (spells.spell_in run.new, [])) }
{
    let Some((first, last)) = part.next_run() else {
        return;
    };
    add_run(id, run, first, last, sink);
    if part.is_empty() {
        return;
    }
    offer_spell(id, run, sink);
    *run = Run::none();
    pass_over_runs(&mut part, sink);
    add_runs(id, run, part, sink);
}

/// If the sink's floor is above a block's days, takes the runs of a part before the last one, and gives the sink their
/// number. No spell is open before or after.
#[inline(always)]
fn pass_over_runs<S: FloorSink>(part: &mut BlockDays, sink: &mut S)
    ensures { (id : StationId) → spells.EndAlike S.taken id (sink.old, (None, part.old)) (sink.new, (None, part.new)) }
{
    match sink.floor() {
        Some(floor) if floor > BLOCK_DAYS => {
            let passed = part.take_to_last_run();
            sink.pass_over(floor, passed);
        }
        _ => {}
    }
}

/// Adds days in a row, from a first to a last one, to the open spell, if they go on with it. Otherwise they begin a
/// spell, and the open one is offered.
#[inline(always)]
fn add_run<S: Sink>(id: StationId, run: &mut Run, first: Day, last: Day, sink: &mut S)
    ensures begun { spells.spell_in run.new ≡ Some (spells.first_with (spells.spell_in run.old) first, last) }
    ensures offered { sink.new ≡ fold S.taken sink.old (spells.ended_by id (spells.spell_in run.old) first) }
{
    if run.goes_on(first) {
        run.last = last;
    } else {
        offer_spell(id, run, sink);
        run.begin(first, last);
    }
}

/// A spell that days may still be added to, if one is open.
#[derive(Drop)]
struct Run {
    is_open: bool,
    first: Day,
    last: Day,
}

impl Run {
    /// No spell is open.
    fn none() -> Self
        ensures { spells.spell_in result ≡ None }
    {
        Run {
            is_open: false,
            first: Day::numbered(0),
            last: Day::numbered(0),
        }
    }

    /// Whether a spell is open that goes on with a day of the kind: the day comes after its last one.
    #[inline(always)]
    fn goes_on(&self, day: Day) -> bool
        ensures { result ≡ is_some (spells.goes_on (spells.spell_in self.now) day true) }
    {
        self.is_open && comes_next(self.last, day)
    }

    /// Begins again with days of the kind, from a first to a last one.
    #[inline(always)]
    fn begin(&mut self, first: Day, last: Day)
        ensures { spells.spell_in self.new ≡ Some (first, last) }
    {
        self.is_open = true;
        self.first = first;
        self.last = last;
    }
}

/// Offers a spell, if one is open, as that many days.
#[inline(always)]
fn offer_spell<S: Sink>(id: StationId, run: &Run, sink: &mut S)
    ensures { sink.new ≡ fold S.taken sink.old (spells.spell_list id (spells.spell_in run.now)) }
{
    if run.is_open {
        let (first, last) = (run.first, run.last);
        sink.offer(Candidate {
            id,
            first,
            last,
            score: last.number() as i64 + 1 - first.number() as i64,
        });
    }
}
