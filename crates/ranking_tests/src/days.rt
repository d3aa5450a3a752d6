//! Daily files of a station, made of stretches of days.

use ghcn_fields::Day;
use ghcn_files::{Element, StationId, Stations};
use ghcn_series::Data;
use std::alloc::{AllocError, Global};
use std::fmt::Write;

pub(crate) const A: StationId = StationId(*b"ZZA00000001");

pub(crate) const B: StationId = StationId(*b"ZZA00000002");

pub(crate) const C: StationId = StationId(*b"ZZA00000003");

const STATIONS: &[u8] = b"\
ZZA00000001  10.0000   20.0000  100.0    ALPHA\n\
ZZA00000002  10.0000   21.0000  100.0    BETA\n";

/// That many days from this one on, each with this group of eight columns in its line.
pub(crate) type Stretch = (i32, i32, &'static str);

// Day 18262 is 2020-01-01.
#[rattlefmt::skip]
pub(crate) const TURN_OF_THE_YEAR: [Stretch; 7] = [
    (18_258, 1, "   10   "), (18_259, 1, "   20   "), (18_260, 1, "   30   "), (18_261, 1, "   40   "),
    (18_262, 1, "    5   "), (18_263, 1, "    6   "), (18_264, 1, "    7   "),
];

/// The groups of a month's days, of which some are missing.
type Month = [&'static str; 31];

/// Writes the line of a month, if it has a day.
fn push_month(
    text: &mut String,
    id: &str,
    element: Element,
    (year, month): (u16, u8),
    groups: &Month,
) -> Result<(), AllocError> {
    if groups.iter().all(|it| it.is_empty()) {
        return Ok(());
    }
    write!(text, "{id}{year:04}{month:02}{element}")?;
    for group in groups {
        text.push_str(if group.is_empty() { "-9999   " } else { group })?;
    }
    text.push_str("\n")
}

/// Writes the lines of a station and an element of these days, from the first to the last.
fn push_days(text: &mut String, id: &str, element: Element, stretches: &[Stretch]) -> Option<()> {
    let mut time = (0, 0);
    let mut groups = [""; 31];
    for (first, count, group) in stretches {
        for later in 0..*count {
            let (year, month, day) = Day::with_number(first.saturating_add(later))?.civil();
            if time != (year, month) {
                push_month(text, id, element, time, &groups).ok()?;
                time = (year, month);
                groups = [""; 31];
            }
            if let Some(place) = groups.get_mut((day as usize).saturating_sub(1)) {
                *place = *group;
            }
        }
    }
    push_month(text, id, element, time, &groups).ok()
}

/// The data of station A with an element of these days.
pub(crate) fn data_of(alloc: Global, element: Element, stretches: &[Stretch]) -> Option<Data> {
    data_at(alloc, "ZZA00000001", element, stretches)
}

/// The data of a station, A or B by its ID, with an element of these days.
pub(crate) fn data_at(
    alloc: Global,
    id: &str,
    element: Element,
    stretches: &[Stretch],
) -> Option<Data> {
    let mut text = String::new(alloc);
    push_days(&mut text, id, element, stretches)?;
    let stations = Stations::read(alloc, STATIONS).ok()?;
    Data::read(alloc, stations, &[text.as_bytes()]).ok()
}
