//! A query, and what it admits.

ghost use Rattle.std.specs.Prelude.{◌≡◌, ◌≤◌, nat_le, ℤ, ◌≤ℤ◌, IsTrue};
ghost use Rattle.ghcn_fields.specs.Meaning.Days.{is_day};
ghost use Rattle.rank_query.specs.Meaning.Admits as meaning;
ghost use Rattle.rank_query.specs.Admits as admits;
ghost use Rattle.rank_query.specs.Meaning.Asked.{score_element, IsAsked};
ghost use Rattle.rank_query.specs.Asked.{season_months, season_days};

use crate::{Per, Region, Score, Season};
use ghcn_fields::Day;
use ghcn_files::{Element, Station};
use std::marker::Model;

/// What is asked: the k best by a score, in a region, a season and a period, and of which groups only the best counts.
#[derive(Clone, Copy, Debug)]
pub struct Query {
    pub(crate) k: u64,
    pub(crate) score: Score,
    pub(crate) region: Region,
    pub(crate) season: Season,
    pub(crate) period: Option<(Day, Day)>,
    pub(crate) per: Per,
}

impl Model for Query {
    ghost use Rattle.rank_query.specs.Meaning.Asked.{Query, IsAsked};

    ghost Value = { Query };

    ghost view = { λ q. record {
      k = q.k;
      score = q.score;
      region = q.region;
      season = q.season;
      period = q.period;
      per = q.per;
    } };

    ghost invariant = { λ q. IsAsked (record {
      k = q.k;
      score = q.score;
      region = q.region;
      season = q.season;
      period = q.period;
      per = q.per;
    }) };

    ghost inverse = { λ q. record {
      k = q.k;
      score = q.score;
      region = q.region;
      season = q.season;
      period = q.period;
      per = q.per;
    } };
}

impl Query {
    /// How many of the best are asked for, 1 to 1000.
    pub fn k(&self) -> u64
        ensures k { result ≡ self.now.k }
        ensures asked { IsAsked self.now }
    {
        self.k
    }

    /// What is ranked.
    pub fn score(&self) -> Score
        ensures score { result ≡ self.now.score }
        ensures asked { IsAsked self.now }
    {
        self.score
    }

    /// Which stations are admitted.
    pub fn region(&self) -> Region
        ensures { result ≡ self.now.region }
    {
        self.region
    }

    /// The first and the last month of the season, 1 to 12, if it is given by months. If the first is
    /// greater, the season goes over the turn of the year.
    pub fn season(&self) -> Option<(u8, u8)>
        ensures season { result ≡ season_months self.now.season }
        ensures asked { IsAsked self.now }
    {
        match self.season {
            Season::Months(first, last) => Some((first, last)),
            Season::AllYear | Season::Dates(_, _) => None,
        }
    }

    /// The first and the last day of the season, if it is given by days: days of the year 2000, which
    /// stand for these days of every year. If the first is later, the season goes over the turn of the
    /// year.
    pub fn days(&self) -> Option<(Day, Day)>
        ensures days { result ≡ season_days self.now.season }
        ensures asked { IsAsked self.now }
    {
        match self.season {
            Season::Dates(first, last) => Some((first, last)),
            Season::AllYear | Season::Months(_, _) => None,
        }
    }

    /// The first and the last day of the period, both included, if one is given.
    pub fn period(&self) -> Option<(Day, Day)>
        ensures { result ≡ self.now.period }
    {
        self.period
    }

    /// How contenders are grouped: of each group only the best is ranked.
    pub fn per(&self) -> Per
        ensures { result ≡ self.now.per }
    {
        self.per
    }

    /// The element that the score is about.
    pub fn element(&self) -> Element
        ensures element { result ≡ score_element self.now.score }
        ensures asked { IsAsked self.now }
    {
        match self.score {
            Score::Highest(element) => element,
            Score::Lowest(element) => element,
            Score::Sum(_, element) => element,
            Score::Dry => Element::Prcp,
            Score::Wet => Element::Prcp,
            Score::Hot(_) => Element::Tmax,
            Score::Cold(_) => Element::Tmin,
        }
    }

    /// Whether the region holds the station.
    pub fn admits_station(&self, station: &Station) -> bool
        ensures { result ≡ admits.admits_station self.now station.now }
    {
        self.region.holds(station)
    }

    /// Whether the period and the season hold the day. If one isn't given, it holds all days of the
    /// years 1 to 9999.
    pub fn admits_day(&self, day: Day) -> bool
        ensures { result ≡ meaning.admits_day self.now day }
    {
        self.is_in_period(day) && self.season.holds(day)
    }

    fn is_in_period(&self, day: Day) -> bool
        ensures { result ≡ meaning.period_holds self.now.period day }
    {
        let number = day.number();
        match self.period {
            None => true,
            Some((first, last)) => first.number() <= number && number <= last.number(),
        }
    }

    /// Whether the query admits the day, and a number up to which the days from it on are alike in that.
    ///
    /// A caller that steps through days by number asks at most once a month, and at the edges of a season of days.
    pub fn admits_from(&self, day: Day) -> (bool, i32)
        ensures on { day ≤ℤ result.1 }
        ensures alike { (d : ℤ) → IsTrue (is_day d) → day ≤ℤ d → d ≤ℤ result.1
            → meaning.admits_day self.now d ≡ result.0 }
    {
        let (in_period, period_to) = self.period_from(day);
        if !in_period {
            return (false, period_to);
        }
        let (in_season, season_to) = self.season_from(day);
        (in_season, season_to.min(period_to))
    }

    /// Whether the period holds the day, and a number up to which the days from it on are alike in that.
    fn period_from(&self, day: Day) -> (bool, i32)
        ensures on { day ≤ℤ result.1 }
        ensures alike { (d : ℤ) → IsTrue (is_day d) → day ≤ℤ d → d ≤ℤ result.1
            → meaning.period_holds self.now.period d ≡ result.0 }
    {
        match self.period {
            None => (true, i32::MAX),
            Some((first, _)) if day.number() < first.number() => (false, first.number() - 1),
            Some((_, last)) if day.number() <= last.number() => (true, last.number()),
            Some(_) => (false, i32::MAX),
        }
    }

    /// Whether the season holds the day, and a number up to which the days from it on are alike in that.
    fn season_from(&self, day: Day) -> (bool, i32)
        ensures on { day ≤ℤ result.1 }
        ensures alike { (d : ℤ) → IsTrue (is_day d) → day ≤ℤ d → d ≤ℤ result.1
            → meaning.season_holds self.now.season d ≡ result.0 }
    {
        self.season.holds_from(day)
    }
}
