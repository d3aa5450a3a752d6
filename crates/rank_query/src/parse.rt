//! Reading a query text from left to right, up to the first error.

ghost use Rattle.std.specs.Prelude.{◌≡◌, ◌≤◌, length, Some, IfOk, IfErr, IsTrue};
ghost use Rattle.rank_query.specs.Meaning.Asked.{Query, IsAsked, is_score, is_region, is_season, is_period};
ghost use Rattle.rank_query.specs.Meaning.QueryTexts.{query_text};
ghost use Rattle.rank_query.specs.Spelling.{IsSpelling};
ghost use Rattle.rank_query.specs.FaultKinds.{IsFaultAmong};
ghost use Rattle.rank_query.specs.FaultPlaces.{StandsIn};
ghost use Rattle.rank_query.specs.Readers.{Gives};
ghost use Rattle.rank_query.specs.Reading as reading;
ghost use Rattle.rank_query.specs.Meaning.Words.{words_of};

use crate::values::{
    code, date, dates, degrees, element, fall, group, heat, keyword, months, needed, number,
    temperature,
};
use crate::words::Words;
use crate::{Per, Query, QueryFault, Region, Score, Season};
use ghcn_fields::Day;
use ghcn_files::StationId;

/// The longest query text, in bytes.
const LONGEST: usize = 256;

/// The greatest number of rows that can be asked for.
const MOST_ROWS: u64 = 1000;

/// The greatest number of days that are added up.
const MOST_DAYS: u64 = 366;

/// The latitude of the north pole, in ten-thousandths of a degree.
const MOST_NORTH: i32 = 900_000;

/// The greatest longitude, in ten-thousandths of a degree.
const MOST_EAST: i32 = 1_800_000;

impl Query {
    /// The query that a text denotes. Of several errors the first from the left is reported.
    pub fn parse(text: &str) -> Result<Query, QueryFault>
        // Which query it is, or which error.
        ensures read { result ≡ reading.read_query text.now }
        // What is read as a query can be asked, and the text spells it.
        ensures spelt { IfOk result (λ q. IsAsked q × IsSpelling text.now q) }
        // What spells a query is read as it.
        ensures only { (q : Query) → IsAsked q → IsSpelling text.now q → length text.now ≤ 256
            → result ≡ Ok q }
        // So is its canonical text.
        ensures canonical { (q : Query) → IsAsked q → text.now ≡ query_text q → result ≡ Ok q }
        // An error is at the first word with which no query goes on.
        ensures fault { IfErr result (λ fault. StandsIn text.now fault) }
        // Which error it is follows from what the grammar has at the word's place.
        ensures kind { IfErr result (λ fault. IsFaultAmong fault (words_of text.now)) }
    {
        query_of_text(text)
    }
}

#[tactic(auto, unfolding(crate::specs::Reading::read_query))]
fn query_of_text(text: &str) -> Result<Query, QueryFault>
    ensures { result ≡ reading.read_query text.now }
{
    if text.len() > LONGEST {
        return Err(QueryFault::QueryTooLong);
    }
    query_of(&mut Words::of(text))
}

#[tactic(auto, unfolding(crate::specs::Reading::read_words))]
fn query_of(words: &mut Words) -> Result<Query, QueryFault>
    ensures { result ≡ reading.read_words words.old }
{
    keyword(words, b"top")?;
    let k = number(words, 1, MOST_ROWS)?;
    let score = score(words)?;
    let region = region(words)?;
    let season = season(words)?;
    let period = period(words)?;
    let per = per(words)?;
    match words.next() {
        Some((at, _)) => Err(QueryFault::UnexpectedWord(at)),
        None => Ok(Query {
            k,
            score,
            region,
            season,
            period,
            per,
        }),
    }
}

#[tactic(auto, unfolding(crate::specs::Reading::score_at, crate::specs::Reading::no_score_at))]
fn score(words: &mut Words) -> Result<Score, QueryFault>
    ensures read { Gives (λ s. (s, words.new)) result (reading.score_at words.old) }
    ensures asked { IfOk result (λ s. IsTrue (is_score s)) }
{
    if words.take_if(b"highest") {
        return Ok(Score::Highest(element(words)?));
    }
    if words.take_if(b"lowest") {
        return Ok(Score::Lowest(temperature(words)?));
    }
    if words.take_if(b"sum") {
        return sum(words);
    }
    if words.take_if(b"dry") {
        return Ok(Score::Dry);
    }
    if words.take_if(b"wet") {
        return Ok(Score::Wet);
    }
    if words.take_if(b"hot") {
        return Ok(Score::Hot(heat(words)?));
    }
    if words.take_if(b"cold") {
        return Ok(Score::Cold(heat(words)?));
    }
    let (at, _) = needed(words)?;
    Err(QueryFault::UnexpectedWord(at))
}

/// That many days, and what is added up over them.
#[tactic(auto, unfolding(crate::specs::Reading::sum_at))]
fn sum(words: &mut Words) -> Result<Score, QueryFault>
    ensures read { Gives (λ s. (s, words.new)) result (reading.sum_at words.old) }
    ensures asked { IfOk result (λ s. IsTrue (is_score s)) }
{
    let days = number(words, 1, MOST_DAYS)?;
    Ok(Score::Sum(days as u16, fall(words)?))
}

#[tactic(auto, unfolding(crate::specs::Reading::region_at))]
fn region(words: &mut Words) -> Result<Region, QueryFault>
    ensures read { Gives (λ r. (r, words.new)) result (reading.region_at words.old) }
    ensures asked { IfOk result (λ r. IsTrue (is_region r)) }
{
    if words.take_if(b"box") {
        return edges(words);
    }
    if words.take_if(b"country") {
        return Ok(Region::Country(code(words)?));
    }
    if words.take_if(b"state") {
        return Ok(Region::State(code(words)?));
    }
    if words.take_if(b"station") {
        return Ok(Region::Only(StationId(code(words)?)));
    }
    Ok(Region::Everywhere)
}

/// The box of these edges: south, west, north and east.
#[tactic(auto, unfolding(crate::specs::Reading::box_at))]
fn edges(words: &mut Words) -> Result<Region, QueryFault>
    ensures read { Gives (λ r. (r, words.new)) result (reading.box_at words.old) }
    ensures asked { IfOk result (λ r. IsTrue (is_region r)) }
{
    let south = degrees(words, -MOST_NORTH, MOST_NORTH)?;
    let west = degrees(words, -MOST_EAST, MOST_EAST)?;
    let north = degrees(words, south, MOST_NORTH)?;
    let east = degrees(words, -MOST_EAST, MOST_EAST)?;
    Ok(Region::Inside {
        south,
        west,
        north,
        east,
    })
}

#[tactic(auto, unfolding(crate::specs::Reading::season_at))]
fn season(words: &mut Words) -> Result<Season, QueryFault>
    ensures read { Gives (λ s. (s, words.new)) result (reading.season_at words.old) }
    ensures asked { IfOk result (λ s. IsTrue (is_season s)) }
{
    if words.take_if(b"months") {
        let (first, last) = months(words)?;
        return Ok(Season::Months(first, last));
    }
    if words.take_if(b"days") {
        let (first, last) = dates(words)?;
        return Ok(Season::Dates(first, last));
    }
    Ok(Season::AllYear)
}

#[tactic(auto, unfolding(crate::specs::Reading::period_at))]
fn period(words: &mut Words) -> Result<Option<(Day, Day)>, QueryFault>
    ensures read { Gives (λ p. (p, words.new)) result (reading.period_at words.old) }
    ensures asked { IfOk result (λ p. IsTrue (is_period p)) }
{
    if words.take_if(b"from") {
        return Ok(Some(days(words)?));
    }
    Ok(None)
}

/// The first and the last day of a period.
#[tactic(auto, unfolding(crate::specs::Reading::days_at))]
fn days(words: &mut Words) -> Result<(Day, Day), QueryFault>
    ensures read { Gives (λ p. (p, words.new)) result (reading.days_at words.old) }
    ensures asked { IfOk result (λ p. IsTrue (is_period (Some p))) }
{
    let first = date(words)?;
    keyword(words, b"to")?;
    let last = date(words)?;
    if last.number() < first.number() {
        return Err(QueryFault::EmptyPeriod);
    }
    Ok((first, last))
}

#[tactic(auto, unfolding(crate::specs::Reading::per_at))]
fn per(words: &mut Words) -> Result<Per, QueryFault>
    ensures { Gives (λ g. (g, words.new)) result (reading.per_at words.old) }
{
    if words.take_if(b"per") {
        return group(words);
    }
    Ok(Per::Each)
}
