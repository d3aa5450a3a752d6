//! The canonical text of a query.

ghost use Rattle.std.specs.Prelude.{◌≡◌, ◌∷◌, IfOk, IsTrue, Some, string_bytes};
ghost use Rattle.std.specs.Fmt.{WritesOnOk};
ghost use Rattle.std.specs.List.{list_all};
ghost use Rattle.ghcn_fields.specs.Meaning.NumberTexts.{four_places, four_places_of, tenths};
ghost use Rattle.ghcn_files.specs.Meaning.Ids.{is_visible};
ghost use Rattle.rank_query.specs.Meaning.Asked.{is_region};
ghost use Rattle.rank_query.specs.Meaning.QueryTexts.{query_text, score_words, region_words, season_words};
ghost use Rattle.rank_query.specs.Meaning.QueryTexts.{period_words, per_words};
ghost use Rattle.rank_query.specs.Printed.{spaced};

use crate::{Per, Query, Region, Score, Season};
use ghcn_fields::{Day, Memory, write_date};
use std::alloc::Global;
use std::{fmt, str};

impl Query {
    /// The canonical text, which is read again as this query.
    pub fn text(&self, alloc: Global) -> Result<String, Memory>
        ensures { IfOk result (λ text. string_bytes text ≡ query_text self.now) }
    {
        Ok(format!(in alloc; "{self}")?)
    }
}

/// Writes the canonical text.
impl fmt::Display for Query {
    ghost output = { λ q. Some (query_text q) };

    fn fmt<W: fmt::Write>(&self, f: &mut fmt::Formatter<W>) -> fmt::Result {
        let k = self.k;
        write!(f, "top {k}")?;
        write_score(f, self.score)?;
        write_region(f, &self.region)?;
        write_season(f, self.season)?;
        write_period(f, self.period)?;
        write_per(f, self.per)
    }
}

fn write_score<W: fmt::Write>(f: &mut fmt::Formatter<W>, score: Score) -> fmt::Result
    ensures { WritesOnOk W.write_str_gives f.old result (spaced (score_words score)) f.new }
{
    match score {
        Score::Highest(element) => write!(f, " highest {element}"),
        Score::Lowest(element) => write!(f, " lowest {element}"),
        Score::Sum(days, element) => write!(f, " sum {days} {element}"),
        Score::Dry => f.write_str(" dry"),
        Score::Wet => f.write_str(" wet"),
        Score::Hot(degrees) => {
            f.write_str(" hot")?;
            write_tenths(f, degrees)
        }
        Score::Cold(degrees) => {
            f.write_str(" cold")?;
            write_tenths(f, degrees)
        }
    }
}

/// A blank and a number of tenths, with one decimal.
fn write_tenths<W: fmt::Write>(f: &mut fmt::Formatter<W>, number: i32) -> fmt::Result
    ensures { WritesOnOk W.write_str_gives f.old result (32 ∷ tenths number) f.new }
{
    let sign = if number < 0 { " -" } else { " " };
    let magnitude = number.unsigned_abs();
    let (whole, tenth) = (magnitude / 10, magnitude % 10);
    write!(f, "{sign}{whole}.{tenth}")
}

fn write_region<W: fmt::Write>(f: &mut fmt::Formatter<W>, region: &Region) -> fmt::Result
    requires { IsTrue (is_region region.now) }
    ensures { WritesOnOk W.write_str_gives f.old result (spaced (region_words region.now)) f.new }
{
    match region {
        Region::Everywhere => Ok(()),
        Region::Inside {
            south,
            west,
            north,
            east,
        } => write_box(f, *south, *west, *north, *east),
        Region::Country(code) => {
            f.write_str(" country ")?;
            write_visible(f, code)
        }
        Region::State(code) => {
            f.write_str(" state ")?;
            write_visible(f, code)
        }
        Region::Only(id) => {
            f.write_str(" station ")?;
            write_visible(f, &id.0)
        }
    }
}

fn write_box<W: fmt::Write>(
    f: &mut fmt::Formatter<W>,
    south: i32,
    west: i32,
    north: i32,
    east: i32,
) -> fmt::Result
    ensures { WritesOnOk W.write_str_gives f.old result
        (spaced (region_words (Region.Inside south west north east))) f.new }
{
    f.write_str(" box")?;
    write_degrees(f, south)?;
    write_degrees(f, west)?;
    write_degrees(f, north)?;
    write_degrees(f, east)
}

/// A blank and a number of ten-thousandths of a degree, with four decimals.
fn write_degrees<W: fmt::Write>(f: &mut fmt::Formatter<W>, number: i32) -> fmt::Result
    ensures { WritesOnOk W.write_str_gives f.old result (32 ∷ four_places number) f.new }
{
    f.write_str(if number < 0 { " -" } else { " " })?;
    write_four_places(f, number.unsigned_abs())
}

fn write_four_places<W: fmt::Write>(f: &mut fmt::Formatter<W>, number: u32) -> fmt::Result
    ensures { WritesOnOk W.write_str_gives f.old result (four_places_of number) f.new }
{
    let whole = number / 10_000;
    let (first, second) = (number / 1_000 % 10, number / 100 % 10);
    let (third, fourth) = (number / 10 % 10, number % 10);
    write!(f, "{whole}.{first}{second}{third}{fourth}")
}

fn write_season<W: fmt::Write>(f: &mut fmt::Formatter<W>, season: Season) -> fmt::Result
    ensures { WritesOnOk W.write_str_gives f.old result (spaced (season_words season)) f.new }
{
    match season {
        Season::AllYear => Ok(()),
        Season::Months(first, last) => write!(f, " months {first}..{last}"),
        Season::Dates(first, last) => write_days(f, first, last),
    }
}

/// A season's first and last day, without their years.
fn write_days<W: fmt::Write>(f: &mut fmt::Formatter<W>, first: Day, last: Day) -> fmt::Result
    ensures { WritesOnOk W.write_str_gives f.old result (spaced (season_words (Season.Dates first last))) f.new }
{
    f.write_str(" days ")?;
    write_visible(f, &write_date(first)[5..])?;
    f.write_str("..")?;
    write_visible(f, &write_date(last)[5..])
}

fn write_period<W: fmt::Write>(f: &mut fmt::Formatter<W>, period: Option<(Day, Day)>) -> fmt::Result
    ensures { WritesOnOk W.write_str_gives f.old result (spaced (period_words period)) f.new }
{
    let Some((first, last)) = period else {
        return Ok(());
    };
    f.write_str(" from ")?;
    write_visible(f, &write_date(first))?;
    f.write_str(" to ")?;
    write_visible(f, &write_date(last))
}

fn write_per<W: fmt::Write>(f: &mut fmt::Formatter<W>, per: Per) -> fmt::Result
    ensures { WritesOnOk W.write_str_gives f.old result (spaced (per_words per)) f.new }
{
    match per {
        Per::Each => Ok(()),
        Per::Station => f.write_str(" per station"),
        Per::Year => f.write_str(" per year"),
    }
}

fn write_visible<W: fmt::Write>(f: &mut fmt::Formatter<W>, bytes: &[u8]) -> fmt::Result
    requires { IsTrue (list_all is_visible bytes.now) }
    ensures { WritesOnOk W.write_str_gives f.old result bytes.now f.new }
{
    f.write_str(str::from_utf8(bytes).unwrap())
}
