//! Files in pieces of which `tests/grow` refuses one allocation after the other.
//!
//! A test prints `memory` if the reader met the refusal, and `answered` if it returned what it
//! has to. It prints nothing if the station list met it.

ghost use Rattle.ghcn_series.specs.Cut.{HasFedSome};
ghost use Rattle.ghcn_series.specs.Gathered.{HasReadByRows};

use crate::lines::line_of;
use ghcn_fields::{Day, Memory};
use ghcn_files::{Element, Keep, StationId, Stations};
use ghcn_series::{Cutter, Data, DataFault, RowReader};
use std::alloc::Global;
use std::test::Fail;

const STATIONS: &[u8] = b"ZZA00000001  10.0000   20.0000  100.0    ALPHA
ZZA00000002  11.0000   21.0000  100.0    BRAVO
";

/// A month whose first value is 311, and whose other days are missing.
fn month_of(head: &[u8; 21]) -> [u8; 269] {
    line_of(head, &[(1, b"  311   ")])
}

/// Feeds the bytes one by one.
fn fed(mut reader: Cutter<RowReader>, bytes: &[u8]) -> Cutter<RowReader>
    requires { HasFedSome HasReadByRows reader }
    ensures { HasFedSome HasReadByRows result }
{
    for byte in bytes {
        reader.piece(&[*byte]);
    }
    reader
}

/// Feeds a month's line, which ends by a carriage return and a line feed.
fn with_month(reader: Cutter<RowReader>, head: &[u8; 21]) -> Cutter<RowReader>
    requires { HasFedSome HasReadByRows reader }
    ensures { HasFedSome HasReadByRows result }
{
    fed(fed(reader, &month_of(head)), b"\r\n")
}

/// What two files hold: a month before the one that comes first, a month of another station and
/// element, one of a station that isn't listed, and a last line without its line feed.
fn read_pieces(alloc: Global, stations: Stations) -> Result<Data, DataFault> {
    let reader = Cutter::<RowReader>::new(alloc, stations, Keep::everything())?;
    let reader = with_month(reader, b"ZZA00000001202007TMAX");
    let reader = with_month(reader, b"ZZA00000001202006TMAX");
    let reader = with_month(reader, b"ZZA00000002202007PRCP");
    let reader = with_month(reader, b"ZZA00000009202007TMAX");
    let mut reader = with_month(reader, b"ZZA00000001202008TMAX");
    reader.end_of_file();
    let reader = fed(reader, &month_of(b"ZZA00000001202009TMAX"));
    let (data, _warnings) = reader.finish()?;
    Ok(data)
}

/// Whether the data have a first value of each month from June to September, and one line was
/// skipped.
fn is_whole(data: &Data) -> Option<bool> {
    let series = data.series(&StationId(*b"ZZA00000001"), Element::Tmax)?;
    for month in 6..10 {
        if series.value(Day::of(2020, month, 1)?) != Some(311) {
            return Some(false);
        }
    }
    Some(data.unlisted() == 1)
}

/// Whether the files are read whole, if the station list is.
fn whole_pieces(alloc: Global) -> Option<Result<bool, DataFault>> {
    let stations = Stations::read(alloc, STATIONS).ok()?;
    let data = read_pieces(alloc, stations);
    Some(data.map(|it| is_whole(&it) == Some(true)))
}

#[test]
fn files_in_pieces(rt: HostRuntime) -> Result<(), Fail> {
    match whole_pieces(rt.alloc()) {
        None => {}
        Some(Ok(whole)) => {
            assert!(rt; whole);
            println!(rt; "answered")?;
        }
        Some(Err(fault)) => {
            assert_eq!(rt; fault, DataFault::Memory(Memory));
            println!(rt; "memory")?;
        }
    }
    Ok(())
}
