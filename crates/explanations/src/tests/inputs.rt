//! What is said about errors of the station list, and about other errors of an input.

use super::*;

/// An error of a line, the line, what is said, and what is said if the line isn't known.
const BAD_STATIONS: [(StationWhy, &str, &str, &str); 6] = [
    (
        StationWhy::Short,
        "EGE00123161",
        "11 columns; a line of the station list has at least 30",
        "too few columns; a line of the station list has at least 30",
    ),
    (
        StationWhy::BadId,
        "EGE 0123161  31.1992   29.9364   -1.0",
        "columns 1 to 11: 'EGE 0123161'; an ID has eleven visible characters",
        "a bad ID; an ID has eleven visible characters",
    ),
    (
        StationWhy::BadLatitude,
        "EGE00123161  91.1992   29.9364   -1.0",
        "columns 13 to 20: ' 91.1992'; a latitude is a number from -90 to 90",
        "a bad latitude; a latitude is a number from -90 to 90",
    ),
    (
        StationWhy::BadLongitude,
        "EGE00123161  31.1992   29,9364   -1.0",
        "columns 22 to 30: '  29,9364'; a longitude is a number from -180 to 180",
        "a bad longitude; a longitude is a number from -180 to 180",
    ),
    (
        StationWhy::BadElevation,
        "EGE00123161  31.1992   29.9364   -1m",
        "columns 32 to 37: '  -1m'; an elevation is a number or blank",
        "a bad elevation; an elevation is a number or blank",
    ),
    (
        StationWhy::Duplicate,
        STATION,
        "columns 1 to 11: 'EGE00123161'; an earlier line has this ID",
        "a station again; an earlier line has this ID",
    ),
];

#[test]
fn errors_of_station_lines(rt: HostRuntime) -> Result<(), Fail> {
    let alloc = rt.alloc();
    for (why, text, expected, kind) in BAD_STATIONS {
        let fault = Fault::StationLine { line: 1, why };
        let found = line_with_error(alloc, fault, text.as_bytes());
        let (known, unknown) = (said(alloc, fault, found)?, said(alloc, fault, None)?);
        assert_eq!(rt; known.strip_prefix("stations.txt:1: "), Some(expected));
        assert_eq!(rt; unknown.strip_prefix("stations.txt:1: "), Some(kind));
        let good = line_with_error(alloc, fault, STATION.as_bytes());
        assert_eq!(rt; good.is_some(), why == StationWhy::Duplicate);
    }
    Ok(())
}

/// Errors that aren't of a line, and what is said.
const OTHERS: [(Fault, &str); 13] = [
    (
        Fault::TooManyStations,
        "stations.txt: a station list has at most 1048576 stations",
    ),
    (
        Fault::Memory(Memory),
        "out of memory: the system gave no more",
    ),
    (Fault::TooManyFiles, "at most 1048576 daily files are read"),
    (Fault::BadWorkers, "--workers: 1 to 64 workers may run"),
    (
        Fault::BadGuess,
        "--guess: a score is from -2147483648 to 2147483648",
    ),
    (Fault::QueryTooLong, "a query has at most 256 bytes"),
    (
        Fault::UnexpectedWord(4),
        "top 3 lowest PRCP: PRCP is none of TMAX TMIN",
    ),
    (
        Fault::QueryEnds,
        "top 3 lowest PRCP: one of box country state station months days from per has to follow",
    ),
    (
        Fault::OutOfLimits(2),
        "top 3: 3 isn't a number from 1 to 1000",
    ),
    (Fault::BadDate(1), "top: top isn't top"),
    (
        Fault::BadBox(3),
        "top 3 lowest: lowest is none of highest lowest sum dry wet hot cold",
    ),
    (
        Fault::EmptyPeriod,
        "top 3 lowest PRCP: its second day is before its first",
    ),
    (
        Fault::UnexpectedWord(5),
        "top 3 lowest PRCP: it has no such word",
    ),
];

#[test]
fn other_errors_of_an_input(rt: HostRuntime) -> Result<(), Fail> {
    let alloc = rt.alloc();
    for (fault, expected) in OTHERS {
        assert_eq!(rt; said(alloc, fault, None)?.as_str(), expected);
    }
    Ok(())
}
