//! Worked descriptions and their texts.

use crate::{CodeCount, Description, ElementCounts, RowDescriber, Span};
use ghcn_fields::{Day, Memory};
use ghcn_files::{Element, Keep, Stations};
use ghcn_series::{Cutter, DataFault, Warnings};
use std::alloc::Global;

const TEXT: &[u8] = b"extremes description 1
stations 129658
files 2
lines 319
element PRCP lines 300 series 20 days 9105 flagged 3 from 1889-12-01 to 2020-07-31
element SNOW lines 0 series 0 days 0 flagged 0
element SNWD lines 0 series 0 days 0 flagged 0
element TMAX lines 1 series 0 days 0 flagged 31
element TMIN lines 0 series 0 days 0 flagged 0
other WESD lines 12
odd lines 0
unlisted lines 5
blank lines 1
end
";

const WITH_FURTHER: &[u8] = b"extremes description 1
stations 129658
files 2
lines 327
element PRCP lines 300 series 20 days 9105 flagged 3 from 1889-12-01 to 2020-07-31
element SNOW lines 0 series 0 days 0 flagged 0
element SNWD lines 0 series 0 days 0 flagged 0
element TMAX lines 1 series 0 days 0 flagged 31
element TMIN lines 0 series 0 days 0 flagged 0
other WESD lines 12
others lines 8
odd lines 0
unlisted lines 5
blank lines 1
end
";

/// That many lines and flagged values of an element, and no usable day.
fn without_days(element: Element, lines: u64, flagged: u64) -> ElementCounts {
    ElementCounts {
        element,
        lines,
        series: 0,
        days: 0,
        flagged,
        span: None,
    }
}

/// Files with that many lines of further codes.
fn described(alloc: Global, further: u64) -> Result<Description, Memory> {
    let mut others = Vec::new(alloc);
    others.push(CodeCount {
        code: *b"WESD",
        lines: 12,
    })?;
    Ok(Description {
        stations: 129_658,
        files: 2,
        lines: further.saturating_add(319),
        elements: [
            ElementCounts {
                element: Element::Prcp,
                lines: 300,
                series: 20,
                days: 9105,
                flagged: 3,
                span: span_of(),
            },
            without_days(Element::Snow, 0, 0),
            without_days(Element::Snwd, 0, 0),
            without_days(Element::Tmax, 1, 31),
            without_days(Element::Tmin, 0, 0),
        ],
        others,
        further,
        unlisted: 5,
        blank: 1,
        warnings: Warnings::none(),
    })
}

fn span_of() -> Option<Span> {
    Some(Span {
        first: Day::of(1889, 12, 1)?,
        last: Day::of(2020, 7, 31)?,
    })
}

/// Whether files with that many lines of further codes have this text, if memory is there.
fn has_text(alloc: Global, further: u64, text: &[u8]) -> Result<bool, Memory> {
    let written = described(alloc, further)?.text(alloc)?;
    Ok(written.as_slice() == text)
}

#[test]
fn texts_of_descriptions(rt: HostRuntime) {
    assert_eq!(rt; has_text(rt.alloc(), 0, TEXT), Ok(true));
    assert_eq!(rt; has_text(rt.alloc(), 8, WITH_FURTHER), Ok(true));
}

const STATIONS: &[u8] = b"ZZA00000001  40.0000  -75.0000
ZZA00000002  41.0000  -76.0000
";

const OF_FILES: &[u8] = b"extremes description 1
stations 2
files 2
lines 4
element PRCP lines 0 series 0 days 0 flagged 0
element SNOW lines 0 series 0 days 0 flagged 0
element SNWD lines 0 series 0 days 0 flagged 0
element TMAX lines 1 series 1 days 2 flagged 1 from 2020-07-01 to 2020-07-03
element TMIN lines 0 series 0 days 0 flagged 0
other WESD lines 1
odd lines 0
unlisted lines 1
blank lines 1
end
";

/// A line whose days are missing, except for the first three.
fn line_of(head: &[u8; 21], three: &[u8; 24]) -> [u8; 270] {
    let mut line = [b' '; 270];
    line[..21].copy_from_slice(head);
    for day in 0..31 {
        line[21 + 8 * day..26 + 8 * day].copy_from_slice(b"-9999");
    }
    line[21..45].copy_from_slice(three);
    line[269] = b'\n';
    line
}

/// The text of two files: a month and another code, and a blank line before a month of an unlisted station.
fn text_of_two(alloc: Global) -> Result<Vec<u8>, DataFault> {
    let Ok(stations) = Stations::read(alloc, STATIONS) else {
        return Err(DataFault::Memory(Memory));
    };
    let three = b"  311     400 I   322   ";
    let mut files = Cutter::<RowDescriber>::new(alloc, stations, Keep::nothing())?;
    files.piece(&line_of(b"ZZA00000001202007TMAX", three));
    files.piece(&line_of(b"ZZA00000001202007WESD", three));
    files.end_of_file();
    files.piece(b"\n");
    files.piece(&line_of(b"ZZX00000001202007SNWD", three));
    Ok(files.finish()?.text(alloc)?)
}

#[test]
fn descriptions_of_two_files(rt: HostRuntime) {
    match text_of_two(rt.alloc()) {
        Ok(text) => assert_eq!(rt; text.as_slice(), OF_FILES),
        Err(fault) => assert_eq!(rt; Some(fault), None),
    }
}

const OF_SHARES: &[u8] = b"extremes description 1
stations 2
files 2
lines 4
element PRCP lines 0 series 0 days 0 flagged 0
element SNOW lines 0 series 0 days 0 flagged 0
element SNWD lines 0 series 0 days 0 flagged 0
element TMAX lines 2 series 2 days 4 flagged 2 from 2020-06-01 to 2020-07-03
element TMIN lines 0 series 0 days 0 flagged 0
other WESD lines 2
odd lines 0
unlisted lines 0
blank lines 0
end
";

/// The text of two files that a describer each has read, if the two can be joined.
fn text_of_shares(alloc: Global, file: &[u8], other: &[u8]) -> Result<Option<Vec<u8>>, DataFault> {
    let Ok(stations) = Stations::read(alloc, STATIONS) else {
        return Err(DataFault::Memory(Memory));
    };
    let Ok(again) = Stations::read(alloc, STATIONS) else {
        return Err(DataFault::Memory(Memory));
    };
    let mut first = Cutter::<RowDescriber>::new(alloc, stations, Keep::nothing())?;
    first.piece(file);
    first.end_of_file();
    let mut next = Cutter::<RowDescriber>::new(alloc, again, Keep::nothing())?;
    next.piece(other);
    next.end_of_file();
    match first.join(next)? {
        Some(both) => Ok(Some(both.finish()?.text(alloc)?)),
        None => Ok(None),
    }
}

/// A file of a month and of a line of another code, both of a station.
fn file_of(month: &[u8; 21], other: &[u8; 21]) -> [u8; 540] {
    let three = b"  311     400 I   322   ";
    let mut file = [b' '; 540];
    file[..270].copy_from_slice(&line_of(month, three));
    file[270..].copy_from_slice(&line_of(other, three));
    file
}

#[test]
fn descriptions_of_two_shares(rt: HostRuntime) {
    let july = file_of(b"ZZA00000001202007TMAX", b"ZZA00000001202007WESD");
    let june = file_of(b"ZZA00000002202006TMAX", b"ZZA00000002202006WESD");
    let august = file_of(b"ZZA00000001202008TMAX", b"ZZA00000001202008WESD");
    match text_of_shares(rt.alloc(), &july, &june) {
        Ok(Some(text)) => assert_eq!(rt; text.as_slice(), OF_SHARES),
        Ok(None) => assert!(rt; false),
        Err(fault) => assert_eq!(rt; Some(fault), None),
    }
    match text_of_shares(rt.alloc(), &july, &august) {
        Ok(text) => assert!(rt; text.is_none()),
        Err(fault) => assert_eq!(rt; Some(fault), None),
    }
}
