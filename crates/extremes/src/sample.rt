//! The texts that the program ranks without arguments: one station with one value.

/// A station list of one station.
pub const STATIONS: &[u8] = b"ZZA00000001  10.0000   20.0000  100.0    ALPHA\n";

/// A daily file of one line: 31.1 degrees as the maximum of 2020-07-01.
pub const DAILY: &[u8] =
    b"ZZA00000001202007TMAX  311   -9999   -9999   -9999   -9999   -9999   -9999   -9999   -9999   -9999   -9999   -9999   -9999   -9999   -9999   -9999   -9999   -9999   -9999   -9999   -9999   -9999   -9999   -9999   -9999   -9999   -9999   -9999   -9999   -9999   -9999   \n";

/// The query.
pub const QUERY: &str = "top 1 highest TMAX";
