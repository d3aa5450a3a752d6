//! Why a line of a station list or of a daily file is refused.

use ghcn_fields::Memory;
use std::fmt;
use thiserror::Error;

/// The first test that a station line fails, in the order of the tests.
#[derive(Clone, Copy, Debug, PartialEq, Eq, Error)]
pub enum StationWhy {
    /// It has fewer than 30 columns.
    Short,
    /// Its ID isn't eleven visible bytes.
    BadId,
    /// Its latitude isn't a number from -90 to 90 degrees.
    BadLatitude,
    /// Its longitude isn't a number from -180 to 180 degrees.
    BadLongitude,
    /// Its elevation is neither blank nor a number.
    BadElevation,
    /// An earlier line has its ID.
    Duplicate,
}

impl fmt::Display for StationWhy {
    ghost use Rattle.std.specs.Prelude.{Some};
    ghost use Rattle.ghcn_files.specs.FaultTexts.{station_why_text};

    ghost output = { λ why. Some (station_why_text why) };

    fn fmt<W: fmt::Write>(&self, f: &mut fmt::Formatter<W>) -> fmt::Result {
        f.write_str(match self {
            StationWhy::Short => "Short",
            StationWhy::BadId => "BadId",
            StationWhy::BadLatitude => "BadLatitude",
            StationWhy::BadLongitude => "BadLongitude",
            StationWhy::BadElevation => "BadElevation",
            StationWhy::Duplicate => "Duplicate",
        })
    }
}

/// Why a station list is refused: its first line with an error decides.
#[derive(Clone, Copy, Debug, PartialEq, Eq, Error)]
pub enum StationsFault {
    /// The first failing test of the first line with an error, by the line's number from 1.
    StationLine { line: u64, why: StationWhy },
    /// A line without an error of its own would be one station more than 2^20.
    TooManyStations,
    /// Out of memory. It can come at any allocation, so it has no place in the order.
    Memory(Memory),
}

impl fmt::Display for StationsFault {
    ghost use Rattle.std.specs.Prelude.{Some};
    ghost use Rattle.ghcn_files.specs.FaultTexts.{stations_fault_text};

    ghost output = { λ fault. Some (stations_fault_text fault) };

    fn fmt<W: fmt::Write>(&self, f: &mut fmt::Formatter<W>) -> fmt::Result {
        match self {
            StationsFault::StationLine { line, why } => {
                write!(f, "refused 1 StationLine line {line} {why}")
            }
            StationsFault::TooManyStations => f.write_str("refused 2 TooManyStations"),
            StationsFault::Memory(memory) => write!(f, "{memory}"),
        }
    }
}

/// The first test that a line of a daily file fails, in the order of the tests.
#[derive(Clone, Copy, Debug, PartialEq, Eq, Error)]
pub enum LineWhy {
    /// It has fewer than 21 columns, or fewer than 266 and one of the five elements.
    Short,
    /// It has a byte other than a blank past column 269.
    TooLong,
    /// Its ID isn't eleven visible bytes.
    BadId,
    /// Its year isn't a number from 1 to 9999.
    BadYear,
    /// Its month isn't a number from 1 to 12.
    BadMonth,
    /// The value of this day of the month, the first such one, isn't a number.
    BadValue(u8),
}

impl fmt::Display for LineWhy {
    ghost use Rattle.std.specs.Prelude.{Some};
    ghost use Rattle.ghcn_files.specs.FaultTexts.{line_why_text};

    ghost output = { λ why. Some (line_why_text why) };

    fn fmt<W: fmt::Write>(&self, f: &mut fmt::Formatter<W>) -> fmt::Result {
        match self {
            LineWhy::Short => f.write_str("Short"),
            LineWhy::TooLong => f.write_str("TooLong"),
            LineWhy::BadId => f.write_str("BadId"),
            LineWhy::BadYear => f.write_str("BadYear"),
            LineWhy::BadMonth => f.write_str("BadMonth"),
            LineWhy::BadValue(day) => write!(f, "BadValue {day}"),
        }
    }
}
