//! Files that come in pieces.

ghost use Rattle.std.specs.Prelude.{IfOk};
ghost use Rattle.ghcn_series.specs.Cut.{HasFedSome};
ghost use Rattle.ghcn_series.specs.Gathered.{HasReadByRows};

use super::cutters::{fault_by_lines, found_by_lines};
use super::{A, JULY, STATIONS, has_series};
use crate::lines::line_of;
use ghcn_fields::Memory;
use ghcn_files::{Element, Keep, LineWhy, Stations};
use ghcn_series::{
    Cutter, DailyWhy, Data, DataFault, Foreign, LinePlace, OddLines, RowReader, Warnings,
};
use std::alloc::Global;

/// A reader of the two stations' files.
fn reader(alloc: Global) -> Result<Cutter<RowReader>, DataFault>
    ensures { IfOk result (HasFedSome HasReadByRows) }
{
    match Stations::read(alloc, STATIONS) {
        Ok(stations) => Cutter::<RowReader>::new(alloc, stations, Keep::everything()),
        Err(_) => Err(DataFault::Memory(Memory)),
    }
}

/// A reader that has taken this piece.
fn fed(alloc: Global, piece: &[u8]) -> Result<Cutter<RowReader>, DataFault>
    ensures { IfOk result (HasFedSome HasReadByRows) }
{
    let mut reader = reader(alloc)?;
    reader.piece(piece);
    Ok(reader)
}

/// What a file says whose bytes come in two pieces.
fn read_cut(alloc: Global, front: &[u8], behind: &[u8]) -> Result<Data, DataFault> {
    let mut reader = fed(alloc, front)?;
    reader.piece(behind);
    data_of(reader)
}

/// The data of what a reader was fed.
pub(crate) fn data_of(reader: Cutter<RowReader>) -> Result<Data, DataFault>
    requires { HasFedSome HasReadByRows reader }
{
    let (data, _warnings) = reader.finish()?;
    Ok(data)
}

/// What a file says whose bytes come one by one.
pub(crate) fn read_by_bytes(mut reader: Cutter<RowReader>, text: &[u8]) -> Result<Data, DataFault>
    requires { HasFedSome HasReadByRows reader }
{
    for byte in text {
        reader.piece(&[*byte]);
    }
    data_of(reader)
}

/// Three lines with carriage returns: July, an empty line, and another one.
fn three_lines(last: &[u8; 21]) -> [u8; 544] {
    let mut text = [b'\r'; 544];
    text[..269].copy_from_slice(&line_of(b"ZZA00000001202007TMAX", &[(1, b"  311   ")]));
    text[270] = b'\n';
    text[272] = b'\n';
    text[273..542].copy_from_slice(&line_of(last, &[(1, b"  322   ")]));
    text[543] = b'\n';
    text
}

/// The days of July and August, with their values.
const SUMMER: [(i32, i32); 2] = [(JULY, 311), (JULY + 31, 322)];

/// A month that the third line repeats.
const REPEATED: DataFault = DataFault::DailyLine {
    file: 1,
    line: 3,
    why: DailyWhy::DuplicateMonth,
};

/// Whether a text that is cut holds the days of July and August.
fn gives_cut(alloc: Global, front: &[u8], behind: &[u8]) -> Result<bool, DataFault> {
    let data = read_cut(alloc, front, behind)?;
    Ok(has_series(&data, &A, Element::Tmax, &SUMMER))
}

/// Whether it does if its bytes come one by one.
fn gives_by_bytes(alloc: Global, text: &[u8]) -> Result<bool, DataFault> {
    let data = read_by_bytes(reader(alloc)?, text)?;
    Ok(has_series(&data, &A, Element::Tmax, &SUMMER))
}

/// The first place at which a text is cut and then isn't read as this.
fn first_wrong_cut(alloc: Global, text: &[u8], expected: Result<bool, DataFault>) -> Option<usize> {
    for end in 0..=text.len() {
        if gives_cut(alloc, &text[..end], &text[end..]) != expected {
            return Some(end);
        }
    }
    None
}

#[test]
fn cut_anywhere(rt: HostRuntime) {
    let text = three_lines(b"ZZA00000001202008TMAX");
    assert_eq!(rt; first_wrong_cut(rt.alloc(), &text, Ok(true)), None);
    assert_eq!(rt; gives_by_bytes(rt.alloc(), &text), Ok(true));
    let again = three_lines(b"ZZA00000001202007TMAX");
    assert_eq!(rt; first_wrong_cut(rt.alloc(), &again, Err(REPEATED)), None);
    assert_eq!(rt; gives_by_bytes(rt.alloc(), &again), Err(REPEATED));
}

/// The lines of July and of August, the second with these bytes after its columns: some, blanks, and its end.
fn long_line(alloc: Global, first: &[u8], blanks: usize, end: &[u8]) -> Result<Vec<u8>, Memory> {
    let mut text = Vec::new(alloc);
    text.extend_from_slice(&line_of(b"ZZA00000001202007TMAX", &[(1, b"  311   ")]))?;
    text.push(b'\n')?;
    text.extend_from_slice(&line_of(b"ZZA00000001202008TMAX", &[(1, b"  322   ")]))?;
    text.extend_from_slice(first)?;
    for _ in 0..blanks {
        text.push(b' ')?;
    }
    text.extend_from_slice(end)?;
    Ok(text)
}

/// Whether these lines give the days of July and August if their bytes come one by one, and if the last comes alone.
fn gives_long(
    alloc: Global,
    first: &[u8],
    blanks: usize,
    end: &[u8],
) -> Result<(Result<bool, DataFault>, Result<bool, DataFault>), Memory> {
    let text = long_line(alloc, first, blanks, end)?;
    let (front, behind) = text.split_at(text.len().saturating_sub(1));
    let cut = gives_cut(alloc, front, behind);
    Ok((gives_by_bytes(alloc, &text), cut))
}

#[test]
fn long_lines_in_pieces(rt: HostRuntime) {
    let long = Err(DataFault::DailyLine {
        file: 1,
        line: 2,
        why: DailyWhy::Line(LineWhy::TooLong),
    });
    let cases: [(&[u8], usize, &[u8], Result<bool, DataFault>); 12] = [
        (b"", 0, b"\r", Ok(true)),
        (b"", 1, b"\r\n", Ok(true)),
        (b"", 2, b"\r\n", Ok(true)),
        (b"", 700, b"", Ok(true)),
        (b"", 700, b"\r", Ok(true)),
        (b"", 700, b"\r\n", Ok(true)),
        (b"", 700, b"\r\r\n", long),
        (b"", 700, b"\r \n", long),
        (b"", 700, b"x", long),
        (b"x", 0, b"\n", long),
        (b"x", 700, b"\r\n", long),
        (b"\r", 700, b"", long),
    ];
    for (first, blanks, end, expected) in cases {
        let found = gives_long(rt.alloc(), first, blanks, end);
        assert_eq!(rt;
            found,
            Ok((expected, expected)),
            "{first:?}, {blanks} blanks and {end:?}"
        );
    }
}

/// A reader with that many files more, all of them empty.
fn with_files(mut reader: Cutter<RowReader>, count: u32) -> Cutter<RowReader>
    requires { HasFedSome HasReadByRows reader }
    ensures { HasFedSome HasReadByRows result }
{
    for _ in 0..count {
        reader.end_of_file();
    }
    reader
}

/// The error of a text after which these bytes and that many files come.
fn fault_before(alloc: Global, text: &[u8], behind: &[u8], files: u32) -> Option<DataFault> {
    match fed(alloc, text) {
        Ok(mut reader) => {
            reader.piece(behind);
            with_files(reader, files).finish().err()
        }
        Err(fault) => Some(fault),
    }
}

#[test]
fn first_fault_is_kept(rt: HostRuntime) {
    let text = three_lines(b"ZZA00000001202007TMAX");
    let most = 1 << 20;
    let cases: [(&[u8], u32, DataFault); 5] = [
        (b"", 0, REPEATED),
        (b"ZZ\n", 0, REPEATED),
        (b"", most, REPEATED),
        (b"ZZ\n", most, REPEATED),
        (b"", most + 1, DataFault::TooManyFiles),
    ];
    for (behind, files, fault) in cases {
        let found = fault_before(rt.alloc(), &text, behind, files);
        assert_eq!(rt; found, Some(fault), "behind {behind:?} and {files} files");
        let by_lines = fault_by_lines(rt.alloc(), &text, behind, files);
        assert_eq!(rt;
            by_lines,
            found,
            "behind {behind:?} and {files} files by lines"
        );
    }
}

/// The error of a month that the second file has, and the third again after two lines.
fn fault_of_files(alloc: Global, month: &[u8]) -> Result<Option<DataFault>, DataFault> {
    let mut reader = reader(alloc)?;
    reader.end_of_file();
    reader.piece(month);
    reader.end_of_file();
    reader.piece(b"\n \r");
    reader.piece(b"\n");
    reader.piece(month);
    Ok(reader.finish().err())
}

#[test]
fn files_end_where_they_are_ended(rt: HostRuntime) {
    let july = line_of(b"ZZA00000001202007TMAX", &[(1, b"  311   ")]);
    let fault = DataFault::DailyLine {
        file: 3,
        line: 3,
        why: DailyWhy::DuplicateMonth,
    };
    assert_eq!(rt; fault_of_files(rt.alloc(), &july), Ok(Some(fault)));
}

/// The foreign files and odd lines among some files, each of which comes in halves.
fn warnings_of(alloc: Global, files: &[&[u8]]) -> Result<Warnings, DataFault> {
    let mut reader = reader(alloc)?;
    for file in files {
        let (front, behind) = file.split_at(file.len() / 2);
        reader.piece(front);
        reader.piece(behind);
        reader.end_of_file();
    }
    let (_data, warnings) = reader.finish()?;
    Ok(warnings)
}

/// The foreign files and odd lines among some files, by a reader of files and by a cutter, and how many files, lines and
/// blank lines the cutter finds.
type Shown = (Warnings, Warnings, (u64, u64, u64));

/// What both show of files.
fn shown(alloc: Global, files: &[&[u8]]) -> Result<Shown, DataFault> {
    let warnings = warnings_of(alloc, files)?;
    let found = found_by_lines(alloc, Keep::everything(), files)?;
    let counts = (found.files, found.lines, found.blank);
    Ok((warnings, found.warnings, counts))
}

/// The numbers of foreign files and of odd lines, each with the first one, by both readers, and these counts.
fn told(
    foreign: (u64, Option<u64>),
    odd: (u64, Option<(u64, u64)>),
    counts: (u64, u64, u64),
) -> Result<Shown, DataFault> {
    let warnings = Warnings {
        foreign: Foreign {
            count: foreign.0,
            first: foreign.1,
        },
        odd: OddLines {
            count: odd.0,
            first: odd.1.map(|(file, line)| LinePlace { file, line }),
        },
    };
    Ok((warnings, warnings, counts))
}

#[test]
fn files_without_one_of_the_elements(rt: HostRuntime) {
    let july = line_of(b"ZZA00000001202007TMAX", &[(1, b"  311   ")]);
    let other = line_of(b"ZZA00000001202007WESD", &[(1, b"  311   ")]);
    let unlisted = line_of(b"ZZX00000001202007SNWD", &[(1, b"  311   ")]);
    let both = three_lines(b"ZZA00000001202007WESD");
    let table = *b"STATION,DATE,ELEMENT,VALUE\n";
    let alloc = rt.alloc();
    assert_eq!(rt;
        shown(alloc, &[&july, b"", b" \r\n\n"]),
        told((0, None), (0, None), (3, 3, 2))
    );
    assert_eq!(rt;
        shown(alloc, &[&july, &other, &table]),
        told((2, Some(1)), (1, Some((2, 1))), (3, 3, 0))
    );
    assert_eq!(rt;
        shown(alloc, &[&table, &other, &table]),
        told((3, Some(0)), (2, Some((0, 1))), (3, 3, 0))
    );
    assert_eq!(rt;
        shown(alloc, &[&both, &unlisted]),
        told((0, None), (0, None), (2, 4, 1))
    );
    assert_eq!(rt;
        shown(alloc, &[b"", b"", &other]),
        told((1, Some(2)), (0, None), (3, 1, 0))
    );
    assert_eq!(rt;
        shown(alloc, &[b"\n", &table, &unlisted]),
        told((1, Some(1)), (1, Some((1, 1))), (3, 3, 1))
    );
    let fault = DataFault::DailyLine {
        file: 2,
        line: 1,
        why: DailyWhy::Line(LineWhy::Short),
    };
    assert_eq!(rt; warnings_of(alloc, &[&other, b"short"]), Err(fault));
    let by_lines = found_by_lines(alloc, Keep::everything(), &[&other, b"short"]);
    assert_eq!(rt; by_lines.err(), Some(fault));
}

/// What both show of a month, of two long lines of another code, of which the last byte of the second isn't a blank, and
/// of a long blank line.
fn long_lines_shown(alloc: Global) -> Result<Shown, DataFault> {
    let july = line_of(b"ZZA00000001202007TMAX", &[(1, b"  311   ")]);
    let mut code = [b' '; 700];
    code[..21].copy_from_slice(b"ZZA00000001202007WESD");
    let mut odd = code;
    odd[699] = b'x';
    shown(alloc, &[&july, &code, &odd, &[b' '; 700]])
}

#[test]
fn long_lines_without_one_of_the_elements(rt: HostRuntime) {
    assert_eq!(rt;
        long_lines_shown(rt.alloc()),
        told((2, Some(1)), (1, Some((2, 1))), (4, 4, 1))
    );
}
