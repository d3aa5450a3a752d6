//! Data of three stations, and the report and the certificate of the best one of these.

use ghcn_files::{StationId, Stations};
use ghcn_series::Data;
use std::alloc::{AllocError, Global};
use std::fmt::Write;

pub(crate) const A: StationId = StationId(*b"ZZA00000001");

pub(crate) const B: StationId = StationId(*b"ZZA00000002");

pub(crate) const C: StationId = StationId(*b"ZZA00000003");

pub(crate) const STATIONS: &[u8] = b"\
ZZA00000001  10.0000   20.0000  100.0    ALPHA
ZZA00000002  11.0000   21.0000  100.0    BRAVO
ZZA00000003  12.0000   22.0000  100.0    CHARLIE
";

/// Writes the line of a station's highest temperatures of the first days of July 2020.
pub(crate) fn push_month(text: &mut String, id: &str, values: &[i32]) -> Result<(), AllocError> {
    write!(text, "{id}202007TMAX")?;
    for day in 0..31 {
        let value = values.get(day).copied().unwrap_or(-9999);
        write!(text, "{value:>5}   ")?;
    }
    text.push_str("\n")
}

/// What a file says of the stations of a list.
pub(crate) fn read(alloc: Global, list: &[u8], text: &[u8]) -> Option<Data> {
    let stations = Stations::read(alloc, list).ok()?;
    Data::read(alloc, stations, &[text]).ok()
}

/// The data of the three stations, if memory is there.
pub(crate) fn usual_data(alloc: Global) -> Option<Data> {
    let mut text = String::new(alloc);
    push_month(&mut text, "ZZA00000001", &[311, 305]).ok()?;
    push_month(&mut text, "ZZA00000002", &[311]).ok()?;
    push_month(&mut text, "ZZA00000003", &[250]).ok()?;
    read(alloc, STATIONS, text.as_bytes())
}

/// The report of the best one.
pub(crate) const REPORT: &str = "extremes report 1
query top 1 highest TMAX
1 ZZA00000001 2020-07-01 2020-07-01 31.1 C ALPHA
end 1
";

/// The certificate of the best one.
pub(crate) const CERTIFICATE: &str = "extremes certificate 2
query top 1 highest TMAX
kth 311
scan ZZA00000001 311 1
scan ZZA00000002 311 0
skip ZZA00000003 250
end 3
";
