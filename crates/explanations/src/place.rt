//! The places of a query, and what is allowed at each.

ghost use Rattle.std.specs.Prelude.{◌≡◌};
ghost use Rattle.explanations.specs.Places.{words_at, words_wanted};

use crate::query::Wanted;

/// A place in a query, by what is allowed there.
#[derive(Clone, Copy, Debug, PartialEq, Eq)]
pub(crate) enum Place {
    Top,
    Rows,
    Score,
    Element,
    Temperature,
    Days,
    Fall,
    Heat,
    Region,
    South,
    West,
    North,
    East,
    Code,
    Station,
    Season,
    Months,
    Dates,
    Period,
    FirstDay,
    To,
    LastDay,
    Per,
    Group,
    End,
}

impl Place {
    /// The place after a word that is allowed at this one.
    pub(crate) fn after(self, word: &[u8]) -> Place {
        match self {
            Place::Top => Place::Rows,
            Place::Rows => Place::Score,
            Place::Score => after_score(word),
            Place::Days => Place::Fall,
            Place::Element | Place::Temperature | Place::Fall | Place::Heat => Place::Region,
            Place::Region => after_region(word),
            Place::South => Place::West,
            Place::West => Place::North,
            Place::North => Place::East,
            Place::East | Place::Code | Place::Station => Place::Season,
            Place::Season => after_season(word),
            Place::Months | Place::Dates => Place::Period,
            Place::Period => after_period(word),
            Place::FirstDay => Place::To,
            Place::To => Place::LastDay,
            Place::LastDay => Place::Per,
            Place::Per => Place::Group,
            Place::Group | Place::End => Place::End,
        }
    }

    /// What is allowed at the place.
    pub(crate) fn wanted(self) -> Wanted
        ensures { words_wanted result ≡ words_at self }
    {
        match self {
            Place::Top => Wanted::Form("top"),
            Place::Rows => Wanted::Form("a number from 1 to 1000"),
            Place::Score => Wanted::OneOf("highest lowest sum dry wet hot cold"),
            Place::Element => Wanted::OneOf("PRCP SNOW SNWD TMAX TMIN"),
            Place::Temperature => Wanted::OneOf("TMAX TMIN"),
            Place::Days => Wanted::Form("a number from 1 to 366"),
            Place::Fall => Wanted::OneOf("PRCP SNOW"),
            Place::Heat => Wanted::Form("a number from -100 to 100 with at most one decimal"),
            Place::Region => Wanted::OneOf("box country state station months days from per"),
            Place::South => Wanted::Form("a latitude from -90 to 90"),
            Place::West | Place::East => Wanted::Form("a longitude from -180 to 180"),
            Place::North => Wanted::Form("a latitude from that of the southern edge to 90"),
            Place::Code => Wanted::Form("a code of two characters"),
            Place::Station => Wanted::Form("an ID of eleven characters"),
            Place::Season => Wanted::OneOf("months days from per"),
            Place::Months => Wanted::Form("two months from 1 to 12, written A..B"),
            Place::Dates => Wanted::Form("two days of a year, written MM-DD..MM-DD"),
            Place::Period => Wanted::OneOf("from per"),
            Place::FirstDay | Place::LastDay => Wanted::Form(
                "a date from 0001-01-01 to 9999-12-31",
            ),
            Place::To => Wanted::Form("to"),
            Place::Per => Wanted::Form("per"),
            Place::Group => Wanted::OneOf("station year"),
            Place::End => Wanted::Nothing,
        }
    }
}

/// The place after the first word of a score.
fn after_score(word: &[u8]) -> Place {
    match word {
        b"highest" => Place::Element,
        b"lowest" => Place::Temperature,
        b"sum" => Place::Days,
        b"hot" | b"cold" => Place::Heat,
        _ => Place::Region,
    }
}

/// The place after the first word of a region, or of what may follow without one.
fn after_region(word: &[u8]) -> Place {
    match word {
        b"box" => Place::South,
        b"country" | b"state" => Place::Code,
        b"station" => Place::Station,
        _ => after_season(word),
    }
}

/// The place after the first word of a season, or of what may follow without one.
fn after_season(word: &[u8]) -> Place {
    match word {
        b"months" => Place::Months,
        b"days" => Place::Dates,
        _ => after_period(word),
    }
}

/// The place after the first word of a period or a group.
fn after_period(word: &[u8]) -> Place {
    match word {
        b"per" => Place::Group,
        _ => Place::FirstDay,
    }
}
