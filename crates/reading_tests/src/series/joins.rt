//! Readers that were each fed a share of the files, joined.

ghost use Rattle.std.specs.Prelude.{◌≡◌, IfOk, IfSome, Ok};
ghost use Rattle.ghcn_files.specs.Elements.{everything};
ghost use Rattle.ghcn_files.specs.Listed.{listed};
ghost use Rattle.ghcn_series.specs.Cut.{HasFed, HasFedSome};
ghost use Rattle.ghcn_series.specs.Fed.{Files};
ghost use Rattle.ghcn_series.specs.Gathered.{HasReadByRows};

use super::{A, B, JULY, STATIONS, has_series};
use crate::lines::{line_of, text_of};
use ghcn_fields::Memory;
use ghcn_files::{Element, Keep, LineWhy, Stations};
use ghcn_series::{Cutter, DailyWhy, DataFault, Foreign, LinePlace, OddLines, RowReader, Warnings};
use std::alloc::Global;

/// The listed stations.
fn stations(alloc: Global) -> Result<Stations, DataFault>
    ensures { IfOk result (λ stations. listed STATIONS.now ≡ Ok stations) }
{
    match Stations::read(alloc, STATIONS) {
        Ok(stations) => Ok(stations),
        Err(_) => Err(DataFault::Memory(Memory)),
    }
}

/// A reader that was fed these files, which are ended, and bytes of one more.
fn fed(
    alloc: Global,
    stations: Stations,
    files: &[&[u8]],
    bytes: &[u8],
) -> Result<Cutter<RowReader>, DataFault>
    ensures { IfOk result (λ reader. (files : Files) × HasFed HasReadByRows reader
        (record { keep = everything; stations = stations; files = files })) }
{
    let mut reader = Cutter::<RowReader>::new(alloc, stations, Keep::everything())?;
    for file in files {
        reader.piece(file);
        reader.end_of_file();
    }
    reader.piece(bytes);
    Ok(reader)
}

/// A reader of all files, if two readers that were each fed a share of them can be joined.
fn joined(
    alloc: Global,
    files: &[&[u8]],
    bytes: &[u8],
    others: &[&[u8]],
    more: &[u8],
) -> Result<Option<Cutter<RowReader>>, DataFault>
    ensures { IfOk result (λ reader. IfSome reader (HasFedSome HasReadByRows)) }
{
    let first = fed(alloc, stations(alloc)?, files, bytes)?;
    let next = fed(alloc, stations(alloc)?, others, more)?;
    match first.join(next) {
        Ok(both) => Ok(both),
        Err(memory) => Err(DataFault::Memory(memory)),
    }
}

/// What files say of July: whether each station has its day, how many lines belong to other stations, and what a run
/// warns of.
type July = (bool, bool, u64, Warnings);

fn july_in(reader: Cutter<RowReader>) -> Result<July, DataFault>
    requires { HasFedSome HasReadByRows reader }
{
    let (data, warnings) = reader.finish()?;
    Ok((
        has_series(&data, &A, Element::Tmax, &[(JULY, 311)]),
        has_series(&data, &B, Element::Tmax, &[(JULY, 290)]),
        data.unlisted(),
        warnings,
    ))
}

/// What two shares of files say, if they can be joined.
fn of_two(alloc: Global, files: &[&[u8]], others: &[&[u8]]) -> Result<Option<July>, DataFault> {
    of_parts(alloc, files, b"", others, b"")
}

/// The same of two shares that each end with a part of a file.
fn of_parts(
    alloc: Global,
    files: &[&[u8]],
    bytes: &[u8],
    others: &[&[u8]],
    more: &[u8],
) -> Result<Option<July>, DataFault> {
    match joined(alloc, files, bytes, others, more)? {
        Some(reader) => Ok(Some(july_in(reader)?)),
        None => Ok(None),
    }
}

/// What all files say to one reader.
fn of_one(alloc: Global, files: &[&[u8]]) -> Result<Option<July>, DataFault> {
    Ok(Some(july_in(fed(alloc, stations(alloc)?, files, b"")?)?))
}

/// Which stations have their day, how many lines belong to others, and the numbers of foreign files and of odd lines, each
/// with the first one.
fn found(
    days: (bool, bool),
    unlisted: u64,
    foreign: (u64, Option<u64>),
    odd: (u64, Option<(u64, u64)>),
) -> Result<Option<July>, DataFault> {
    let warnings = Warnings {
        foreign: Foreign {
            count: foreign.0,
            first: foreign.1,
        },
        odd: OddLines {
            count: odd.0,
            first: odd.1.map(|(file, line)| LinePlace { file, line }),
        },
    };
    Ok(Some((days.0, days.1, unlisted, warnings)))
}

#[test]
fn shares_are_read_as_all_files(rt: HostRuntime) {
    let a = line_of(b"ZZA00000001202007TMAX", &[(1, b"  311   ")]);
    let b = line_of(b"ZZA00000002202007TMAX", &[(1, b"  290   ")]);
    let alloc = rt.alloc();
    let both = found((true, true), 0, (0, None), (0, None));
    assert_eq!(rt; of_two(alloc, &[&a], &[&b]), both);
    assert_eq!(rt; of_two(alloc, &[&b], &[&a]), both);
    assert_eq!(rt; of_one(alloc, &[&b, &a]), both);
    let first = found((true, false), 0, (0, None), (0, None));
    assert_eq!(rt; of_two(alloc, &[], &[&a]), first);
    assert_eq!(rt; of_two(alloc, &[&a], &[]), first);
}

#[test]
fn shares_are_counted_as_all_files(rt: HostRuntime) {
    let a = line_of(b"ZZA00000001202007TMAX", &[(1, b"  311   ")]);
    let b = line_of(b"ZZA00000002202007TMAX", &[(1, b"  290   ")]);
    let unlisted = line_of(b"ZZX00000001202007TMAX", &[(1, b"  290   ")]);
    let table = *b"STATION,DATE,ELEMENT,VALUE\n";
    let alloc = rt.alloc();
    let third = found((true, false), 2, (1, Some(2)), (1, Some((2, 1))));
    assert_eq!(rt;
        of_two(alloc, &[&unlisted, &a], &[&table, &unlisted]),
        third
    );
    assert_eq!(rt; of_one(alloc, &[&unlisted, &a, &table, &unlisted]), third);
    let second = found((false, true), 0, (2, Some(1)), (2, Some((1, 1))));
    assert_eq!(rt; of_two(alloc, &[&b, &table], &[&table, b""]), second);
    assert_eq!(rt; of_one(alloc, &[&b, &table, &table, b""]), second);
}

/// A file that is cut after a line is read as if it weren't: odd lines have their numbers, and a file is foreign if
/// its part after blank lines is.
#[test]
fn parts_of_files_are_read_as_files(rt: HostRuntime) -> Result<(), DataFault> {
    let alloc = rt.alloc();
    let odd = *b"ZZA00000001202007----";
    let first = line_of(b"ZZA00000001202007TMAX", &[(1, b"  311   ")]);
    let second = line_of(b"ZZA00000002202007TMAX", &[(1, b"  290   ")]);
    let a = text_of(alloc, &[&odd, &first], b"\n")?;
    let b = text_of(alloc, &[b"", &second, &odd], b"\n")?;
    let both = text_of(alloc, &[&a, &b], b"")?;
    let odd_lines = found((true, true), 0, (0, None), (2, Some((0, 1))));
    assert_eq!(rt; of_one(alloc, &[&both]), odd_lines);
    assert_eq!(rt; of_parts(alloc, &[], &a, &[&b], b""), odd_lines);
    assert_eq!(rt; of_parts(alloc, &[], &a, &[], &b), odd_lines);
    let fifth = found((false, true), 0, (0, None), (1, Some((1, 5))));
    assert_eq!(rt; of_parts(alloc, &[b""], b"\n\n", &[&b], b""), fifth);
    assert_eq!(rt; of_parts(alloc, &[b""], b"\n\n", &[], &b), fifth);
    let next = found((false, true), 0, (1, Some(1)), (2, Some((1, 3))));
    assert_eq!(rt;
        of_parts(
            alloc,
            &[b""],
            b"\n\n",
            &[b"STATION,DATE,ELEMENT,VALUE\n", &b],
            b""
        ),
        next
    );
    Ok(())
}

/// Whether two readers can't be joined that were each fed a share of files.
fn are_apart(
    alloc: Global,
    files: &[&[u8]],
    bytes: &[u8],
    others: &[&[u8]],
    more: &[u8],
) -> Result<bool, DataFault> {
    Ok(joined(alloc, files, bytes, others, more)?.is_none())
}

#[test]
fn shares_that_stay_apart(rt: HostRuntime) {
    let a = line_of(b"ZZA00000001202007TMAX", &[(1, b"  311   ")]);
    let august = line_of(b"ZZA00000001202008SNOW", &[(1, b"    1   ")]);
    let b = line_of(b"ZZA00000002202007TMAX", &[(1, b"  290   ")]);
    let alloc = rt.alloc();
    assert_eq!(rt; are_apart(alloc, &[&a], b"", &[&b], b""), Ok(false));
    assert_eq!(rt; are_apart(alloc, &[&a], b"", &[&a], b""), Ok(true));
    assert_eq!(rt; are_apart(alloc, &[&a], b"", &[&b, &august], b""), Ok(true));
    assert_eq!(rt; are_apart(alloc, &[&a], b"\n", &[&b], b""), Ok(false));
    assert_eq!(rt; are_apart(alloc, &[&a], b" ", &[&b], b""), Ok(true));
    assert_eq!(rt; are_apart(alloc, &[&a], b"", &[&b], b"x"), Ok(false));
    let unknown = *b"ZZA00000001202007WT01\n";
    assert_eq!(rt; are_apart(alloc, &[], &unknown, &[&b], b""), Ok(true));
    assert_eq!(rt; are_apart(alloc, &[], b"", &[&unknown, &b], b""), Ok(false));
    assert_eq!(rt; are_apart(alloc, &[], &unknown, &[], &b), Ok(true));
    assert_eq!(rt; are_apart(alloc, &[&a, b"x"], b"", &[&b], b""), Ok(true));
    assert_eq!(rt; are_apart(alloc, &[&a], b"", &[b"x", &b], b""), Ok(true));
}

/// The error of a line after the files of two shares.
fn fault_after(
    alloc: Global,
    files: &[&[u8]],
    others: &[&[u8]],
    line: &[u8],
) -> Result<Option<DataFault>, DataFault> {
    match joined(alloc, files, b"", others, b"")? {
        Some(mut reader) => {
            reader.piece(line);
            Ok(reader.finish().err())
        }
        None => Ok(None),
    }
}

/// The error of the first line of the fourth file.
fn fourth(why: DailyWhy) -> Result<Option<DataFault>, DataFault> {
    Ok(Some(DataFault::DailyLine {
        file: 4,
        line: 1,
        why,
    }))
}

#[test]
fn joined_readers_go_on(rt: HostRuntime) {
    let a = line_of(b"ZZA00000001202007TMAX", &[(1, b"  311   ")]);
    let b = line_of(b"ZZA00000002202007TMAX", &[(1, b"  290   ")]);
    let alloc = rt.alloc();
    let again = fourth(DailyWhy::DuplicateMonth);
    let short = fourth(DailyWhy::Line(LineWhy::Short));
    assert_eq!(rt; fault_after(alloc, &[&a], &[&b, b""], &a), again);
    assert_eq!(rt; fault_after(alloc, &[&a, b""], &[&b], &b), again);
    assert_eq!(rt; fault_after(alloc, &[&a, b""], &[&b], b"x"), short);
}
