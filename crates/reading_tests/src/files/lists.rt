//! Worked examples of station lists.

use ghcn_files::StationWhy::{BadElevation, BadId, BadLatitude, BadLongitude, Duplicate, Short};
use ghcn_files::{StationId, StationWhy, Stations, StationsFault};
use std::alloc::{AllocError, Global};

const ALPHA: &[u8] = b"ZZA00000001  10.0000   20.0000  100.0    ALPHA";

/// Three listed stations, with Windows line ends, a blank line and no end of the last line.
const THREE: &[u8] = b"ZZA00000001  10.0000   20.0000  100.0    ALPHA\r\n   \r\n\
ZZA00000002 -90.0000  180.0000 -999.9 NY BRAVO\r\nZZA00000003  12.0000   22.0000";

/// How many stations a list has, or why it is refused.
fn count_of(alloc: Global, text: &[u8]) -> Result<u64, StationsFault> {
    let stations = Stations::read(alloc, text)?;
    Ok(stations.len())
}

fn refused(line: u64, why: StationWhy) -> Result<u64, StationsFault> {
    Err(StationsFault::StationLine { line, why })
}

#[test]
fn station_lists(rt: HostRuntime) {
    let cases: [(&[u8], Result<u64, StationsFault>); 15] = [
        (b"", Ok(0)),
        (b"\n  \n", Ok(0)),
        (THREE, Ok(3)),
        (b"ZZA00000001  10.0000   20.0000", Ok(1)),
        (b"ZZA00000001  10.0000   20.000", refused(1, Short)),
        (b"\n\nZZA0000 001  10.0000   20.0000\n", refused(3, BadId)),
        (b"ZZA00000001  91.0000   20.0000", refused(1, BadLatitude)),
        (b"ZZA00000001            20.0000", refused(1, BadLatitude)),
        (b"ZZA00000001  10.0000 -180.0001", refused(1, BadLongitude)),
        (
            b"ZZA00000001  10.0000   20.0000  10..0",
            refused(1, BadElevation),
        ),
        (
            b"ZZA00000001  10.0000   20.0000\nZZA00000001  11.0000   21.0000",
            refused(2, Duplicate),
        ),
        (
            b"ZZA00000001  10.0000   20.0000\nZZA00000001  11.0000   21.0000\nshort",
            refused(2, Duplicate),
        ),
        (
            b"ZZA00000001  10.0000   20.0000\nZZA00000001  11.0000   21.0000 x",
            refused(2, BadElevation),
        ),
        (
            b"ZZA00000002  10.0000   20.0000\n\nZZA00000001  11.0000   21.0000\n\
ZZA00000002  12.0000   22.0000\nshort",
            refused(4, Duplicate),
        ),
        (
            b"ZZA00000002  10.0000   20.0000\nZZA00000001  11.0000   21.0000\nshort\n\
ZZA00000002  12.0000   22.0000",
            refused(3, Short),
        ),
    ];
    for (text, expected) in cases {
        assert_eq!(rt; count_of(rt.alloc(), text), expected, "at {text:?}");
    }
}

#[test]
fn a_station_line_cut_to_each_length(rt: HostRuntime) {
    for columns in 1..=46 {
        let expected = match columns {
            1..=29 => refused(1, Short),
            33..=36 => refused(1, BadElevation),
            _ => Ok(1),
        };
        let found = count_of(rt.alloc(), &ALPHA[..columns]);
        assert_eq!(rt; found, expected, "at {columns} columns");
    }
}

/// A station's latitude, longitude, elevation and state.
type Facts = (i32, i32, Option<i32>, [u8; 2]);

fn facts_of(stations: &Stations, id: &StationId) -> Option<Facts> {
    let found = stations.get(id)?;
    Some((
        found.latitude,
        found.longitude,
        found.elevation,
        found.state,
    ))
}

/// The place and the facts of an ID among the three.
fn found_of_three(alloc: Global, id: &StationId) -> Option<(Option<u64>, Option<Facts>)> {
    let stations = Stations::read(alloc, THREE).ok()?;
    Some((stations.place(id), facts_of(&stations, id)))
}

/// The ID at a place among the three, if there is one.
fn id_of_three(alloc: Global, place: u64) -> Option<Option<[u8; 11]>> {
    let stations = Stations::read(alloc, THREE).ok()?;
    match stations.at(place) {
        Some(station) => Some(Some(station.id.0)),
        None => Some(None),
    }
}

#[test]
fn stations_by_id_and_by_place(rt: HostRuntime) {
    let cases: [(&[u8; 11], Option<u64>, Option<Facts>); 4] = [
        (
            b"ZZA00000001",
            Some(0),
            Some((100_000, 200_000, Some(1_000), *b"  ")),
        ),
        (
            b"ZZA00000002",
            Some(1),
            Some((-900_000, 1_800_000, None, *b"NY")),
        ),
        (
            b"ZZA00000003",
            Some(2),
            Some((120_000, 220_000, None, *b"  ")),
        ),
        (b"ZZA00000004", None, None),
    ];
    for (id, place, facts) in cases {
        let found = found_of_three(rt.alloc(), &StationId(*id));
        assert_eq!(rt; found, Some((place, facts)), "{id:?}");
    }
    let second = id_of_three(rt.alloc(), 1);
    assert_eq!(rt; second, Some(Some(*b"ZZA00000002")));
    assert_eq!(rt; id_of_three(rt.alloc(), 3), Some(None));
}

/// The places of the second and of a missing ID among the three, of another owner, after the first owner is gone.
fn places_of_another_owner(alloc: Global) -> Option<(Option<u64>, Option<u64>)> {
    let another = Stations::read(alloc, THREE).ok()?.share().ok()?;
    Some((
        another.place(&StationId(*b"ZZA00000002")),
        another.place(&StationId(*b"ZZA00000004")),
    ))
}

#[test]
fn shared_stations_outlive_their_first_owner(rt: HostRuntime) {
    assert_eq!(rt; places_of_another_owner(rt.alloc()), Some((Some(1), None)));
}

/// A list of stations whose IDs and latitudes have these digits, in this order.
pub(super) fn list_of(alloc: Global, digits: &[u8]) -> Result<Vec<u8>, AllocError> {
    let mut text = Vec::new(alloc);
    for digit in digits {
        let mut line = *b"ZZA00000000  00.0000   20.0000\n";
        line[10] = *digit;
        line[13] = *digit;
        text.extend_from_slice(&line)?;
    }
    Ok(text)
}

/// The place of a digit's ID and the latitude of its station.
pub(super) type Found = (Option<u64>, Option<i32>);

pub(super) const NOWHERE: Found = (None, None);

fn found_by(stations: &Stations, digit: u8) -> Found {
    let mut id = StationId(*b"ZZA00000000");
    id.0[10] = digit;
    let latitude = match stations.get(&id) {
        Some(station) => Some(station.latitude),
        None => None,
    };
    (stations.place(&id), latitude)
}

/// What the digits from 1 to 4 find.
pub(super) fn four_of(stations: &Stations) -> [Found; 4] {
    [
        found_by(stations, b'1'),
        found_by(stations, b'2'),
        found_by(stations, b'3'),
        found_by(stations, b'4'),
    ]
}

/// What these digits find in such a list, or why it is refused.
fn found_in(alloc: Global, digits: &[u8]) -> Option<Result<[Found; 4], StationsFault>> {
    let text = list_of(alloc, digits).ok()?;
    match Stations::read(alloc, &text) {
        Ok(stations) => Some(Ok(four_of(&stations))),
        Err(fault) => Some(Err(fault)),
    }
}

/// What a digit finds whose station is at a place.
pub(super) fn at(place: u64, latitude: i32) -> Found {
    (Some(place), Some(latitude))
}

#[test]
fn lists_in_any_order(rt: HostRuntime) {
    let (one, two, three, four) = (100_000, 200_000, 300_000, 400_000);
    let cases: [(&[u8], [Found; 4]); 9] = [
        (b"1", [at(0, one), NOWHERE, NOWHERE, NOWHERE]),
        (b"24", [NOWHERE, at(0, two), NOWHERE, at(1, four)]),
        (b"42", [NOWHERE, at(1, two), NOWHERE, at(0, four)]),
        (b"1234", [at(0, one), at(1, two), at(2, three), at(3, four)]),
        (b"4321", [at(3, one), at(2, two), at(1, three), at(0, four)]),
        (b"2341", [at(3, one), at(0, two), at(1, three), at(2, four)]),
        (b"4123", [at(1, one), at(2, two), at(3, three), at(0, four)]),
        (b"1324", [at(0, one), at(2, two), at(1, three), at(3, four)]),
        (b"3412", [at(2, one), at(3, two), at(0, three), at(1, four)]),
    ];
    for (digits, expected) in cases {
        let found = found_in(rt.alloc(), digits);
        assert_eq!(rt; found, Some(Ok(expected)), "at {digits:?}");
    }
}

#[test]
fn ids_that_repeat_in_any_order(rt: HostRuntime) {
    let cases: [(&[u8], u64); 11] = [
        (b"11", 2),
        (b"1231", 4),
        (b"1232", 4),
        (b"1233", 4),
        (b"12331", 4),
        (b"3213", 4),
        (b"3212", 4),
        (b"3211", 4),
        (b"1321", 4),
        (b"1323", 4),
        (b"13244", 5),
    ];
    for (digits, line) in cases {
        let found = found_in(rt.alloc(), digits);
        let why = StationWhy::Duplicate;
        let fault = StationsFault::StationLine { line, why };
        assert_eq!(rt; found, Some(Err(fault)), "at {digits:?}");
    }
}

#[test]
fn ids_that_are_the_same(rt: HostRuntime) {
    let id = StationId(*b"ZZA00000001");
    let cases: [(&[u8; 11], bool); 5] = [
        (b"ZZA00000001", true),
        (b"ZZA00000002", false),
        (b"ZZA00001001", false),
        (b"ZZA0000A001", false),
        (b"YZA00000001", false),
    ];
    for (other, same) in cases {
        assert_eq!(rt; id.is_same(&StationId(*other)), same, "{other:?}");
    }
}

/// The state and the name of a list's first station.
fn names_of(alloc: Global, text: &[u8]) -> Option<([u8; 2], [u8; 30])> {
    let stations = Stations::read(alloc, text).ok()?;
    let station = stations.at(0)?;
    Some((station.state, station.name))
}

#[test]
fn names_are_made_printable(rt: HostRuntime) {
    let text = b"ZZA00000001  10.0000   20.0000        \xe9Y S\xc3\xa3o Paulo\t";
    let expected = (*b"?Y", *b"S??o Paulo?                   ");
    assert_eq!(rt; names_of(rt.alloc(), text), Some(expected));
}

/// A line as NOAA's list has it, and its end.
const WHOLE: &[u8; 86] =
    b"ZZA00000001  10.1234  -20.5678  100.9 NY A NAME OF EXACTLY 30 COLUMNS   GSN     72503\n";

#[test]
fn a_whole_line_cut_to_each_length(rt: HostRuntime) {
    for columns in 37..=85_usize {
        let mut padded = [b' '; 85];
        padded[..columns].copy_from_slice(&WHOLE[..columns]);
        let mut name = [b' '; 30];
        name.copy_from_slice(&padded[41..71]);
        let found = names_of(rt.alloc(), &WHOLE[..columns]);
        let expected = ([padded[38], padded[39]], name);
        assert_eq!(rt; found, Some(expected), "at {columns} columns");
    }
}

/// How many stations a list of four whole lines has, or why it is refused. Its IDs fall and rise, the last one is the
/// second again, and a byte of the third line is another one.
fn count_with(alloc: Global, column: usize, byte: u8) -> Option<Result<u64, StationsFault>> {
    let mut text = Vec::new(alloc);
    for digit in b"9252" {
        let mut line = *WHOLE;
        line[10] = *digit;
        if *digit == b'5' {
            *line.get_mut(column)? = byte;
        }
        text.extend_from_slice(&line).ok()?;
    }
    Some(count_of(alloc, &text))
}

#[test]
fn first_faults_of_whole_lines_in_no_order(rt: HostRuntime) {
    let cases: [(usize, u8, Result<u64, StationsFault>); 9] = [
        (5, b' ', refused(3, BadId)),
        (15, b'x', refused(3, BadLatitude)),
        (16, b' ', refused(3, BadLatitude)),
        (25, b'x', refused(3, BadLongitude)),
        (29, b' ', refused(3, BadLongitude)),
        (34, b'x', refused(3, BadElevation)),
        (25, b'\n', refused(3, Short)),
        (60, b'\t', refused(4, Duplicate)),
        (80, b'\n', refused(4, Short)),
    ];
    for (column, byte, expected) in cases {
        let found = count_with(rt.alloc(), column, byte);
        assert_eq!(rt; found, Some(expected), "byte {byte} at {column}");
    }
}

/// A station list of that many lines, whose IDs count up from 0.
pub(super) fn many_stations(alloc: Global, lines: u32) -> Result<Vec<u8>, AllocError> {
    let mut text = Vec::new(alloc);
    for number in 0..lines {
        let mut line = *b"ZZ000000000  10.0000   20.0000\n";
        let mut rest = number;
        for column in (2..11).rev() {
            line[column] = b'0' + (rest % 10) as u8;
            rest /= 10;
        }
        text.extend_from_slice(&line)?;
    }
    Ok(text)
}

/// How many stations a list of that many lines has, or why it is refused.
fn count_of_many(alloc: Global, lines: u32) -> Option<Result<u64, StationsFault>> {
    let text = many_stations(alloc, lines).ok()?;
    Some(count_of(alloc, &text))
}

#[test]
fn as_many_stations_as_a_list_may_have(rt: HostRuntime) {
    let full = count_of_many(rt.alloc(), 1_048_576);
    assert_eq!(rt; full, Some(Ok(1_048_576)));
    let past = count_of_many(rt.alloc(), 1_048_577);
    assert_eq!(rt; past, Some(Err(StationsFault::TooManyStations)));
}
