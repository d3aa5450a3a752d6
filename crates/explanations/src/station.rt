//! Errors of lines of the station list.

ghost use Rattle.std.specs.Prelude.{◌≡◌, option_map};
ghost use Rattle.explanations.specs.Texts.{Says, found_text, line_text};
ghost use Rattle.explanations.specs.Station.{station_found, station_kind, station_there, station_wanted};

use crate::explanation::{Explanation, Found, columns};
use ghcn_files::{StationWhy, Stations, StationsFault};
use std::alloc::Global;

/// Whether a line has this error by itself, or may be a repeated station.
pub(crate) fn has_error(alloc: Global, line: &[u8], why: StationWhy) -> bool {
    match Stations::read(alloc, line) {
        Ok(_) => why == StationWhy::Duplicate,
        Err(StationsFault::StationLine { why: found, .. }) => found == why,
        Err(_) => false,
    }
}

/// The error of the line of this number, with the line if it is known.
pub(crate) fn explained<'a>(
    path: &'a str,
    number: u64,
    why: StationWhy,
    line: Option<&'a [u8]>,
) -> Explanation<'a>
    ensures { Says result (line_text path.now number (station_found why (option_map (λ l. l.now) line.entry))
        (station_wanted why)) }
{
    Explanation::Line {
        path,
        line: number,
        found: found(why, line),
        wanted: wanted(why),
    }
}

/// What a line with an error has, if the line is known, and otherwise the kind of the error.
fn found(why: StationWhy, line: Option<&[u8]>) -> Found<'_>
    ensures { found_text result ≡ station_found why (option_map (λ l. l.now) line.entry) }
{
    match line {
        None => Found::Kind(kind(why)),
        Some(line) => there(why, line),
    }
}

/// The kind of an error.
fn kind(why: StationWhy) -> &'static str
    ensures { result.now ≡ station_kind why }
{
    match why {
        StationWhy::Short => "too few columns",
        StationWhy::BadId => "a bad ID",
        StationWhy::BadLatitude => "a bad latitude",
        StationWhy::BadLongitude => "a bad longitude",
        StationWhy::BadElevation => "a bad elevation",
        StationWhy::Duplicate => "a station again",
    }
}

/// What a line has in place of what is asked for.
fn there(why: StationWhy, line: &[u8]) -> Found<'_>
    ensures { found_text result ≡ station_there why line.now }
{
    match why {
        StationWhy::Short => Found::Columns(line.len() as u64),
        StationWhy::BadId | StationWhy::Duplicate => columns(line, 1, 11),
        StationWhy::BadLatitude => columns(line, 13, 20),
        StationWhy::BadLongitude => columns(line, 22, 30),
        StationWhy::BadElevation => columns(line, 32, 37),
    }
}

/// What a line without the error has.
fn wanted(why: StationWhy) -> &'static str
    ensures { result.now ≡ station_wanted why }
{
    match why {
        StationWhy::Short => "a line of the station list has at least 30",
        StationWhy::BadId => "an ID has eleven visible characters",
        StationWhy::BadLatitude => "a latitude is a number from -90 to 90",
        StationWhy::BadLongitude => "a longitude is a number from -180 to 180",
        StationWhy::BadElevation => "an elevation is a number or blank",
        StationWhy::Duplicate => "an earlier line has this ID",
    }
}
