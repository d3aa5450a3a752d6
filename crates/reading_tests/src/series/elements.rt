//! Readers that keep one element, or some.

ghost use Rattle.std.specs.Prelude.{IfOk};
ghost use Rattle.ghcn_series.specs.Cut.{HasFedSome};
ghost use Rattle.ghcn_series.specs.Gathered.{HasReadByRows};

use super::cutters::are_alike;
use super::pieces::{data_of, read_by_bytes};
use super::{A, B, JULY, STATIONS, refused};
use crate::lines::{line_of, text_of};
use ghcn_fields::{Day, Memory};
use ghcn_files::{Element, Keep, LineWhy, StationId, Stations};
use ghcn_series::{Cutter, DailyWhy, Data, DataFault, RowReader};
use std::alloc::Global;

/// A reader of the two stations' files that keeps a set of elements.
fn reader_of(alloc: Global, keep: Keep) -> Result<Cutter<RowReader>, DataFault>
    ensures { IfOk result (HasFedSome HasReadByRows) }
{
    match Stations::read(alloc, STATIONS) {
        Ok(stations) => Cutter::<RowReader>::new(alloc, stations, keep),
        Err(_) => Err(DataFault::Memory(Memory)),
    }
}

/// The value of a station and an element on the first of July.
fn value(data: &Data, id: &StationId, element: Element) -> Option<i32> {
    let july = Day::with_number(JULY)?;
    data.series(id, element)?.value(july)
}

/// The values of the first station and each element, the second's highest temperature, and how many
/// lines were skipped.
type Values = ([Option<i32>; 5], Option<i32>, u64);

fn values(data: &Data) -> Values {
    let first = [
        value(data, &A, Element::Prcp),
        value(data, &A, Element::Snow),
        value(data, &A, Element::Snwd),
        value(data, &A, Element::Tmax),
        value(data, &A, Element::Tmin),
    ];
    (first, value(data, &B, Element::Tmax), data.unlisted())
}

/// Whether lines that are read one by one show the same of a text.
fn are_alike_in(alloc: Global, lines: &[&[u8]]) -> Result<bool, Memory> {
    let text = text_of(alloc, lines, b"\n")?;
    Ok(are_alike(alloc, &[&text]))
}

/// What is kept of one element of a whole text.
fn kept(alloc: Global, lines: &[&[u8]], element: Element) -> Result<Values, DataFault> {
    let text = text_of(alloc, lines, b"\n").map_err(DataFault::Memory)?;
    let mut reader = reader_of(alloc, Keep::nothing().with(element))?;
    reader.piece(&text);
    Ok(values(&data_of(reader)?))
}

/// The same of a text whose bytes come one by one.
fn kept_by_bytes(alloc: Global, lines: &[&[u8]], element: Element) -> Result<Values, DataFault> {
    let text = text_of(alloc, lines, b"\n").map_err(DataFault::Memory)?;
    let reader = reader_of(alloc, Keep::nothing().with(element))?;
    Ok(values(&read_by_bytes(reader, &text)?))
}

/// What is kept of a set of elements.
fn kept_of_set(alloc: Global, lines: &[&[u8]], keep: Keep) -> Result<Values, DataFault> {
    let text = text_of(alloc, lines, b"\n").map_err(DataFault::Memory)?;
    let mut reader = reader_of(alloc, keep)?;
    reader.piece(&text);
    Ok(values(&data_of(reader)?))
}

/// A month of each element, and one of another station.
fn six_lines() -> [[u8; 269]; 6] {
    [
        line_of(b"ZZA00000001202007TMAX", &[(1, b"  311   ")]),
        line_of(b"ZZA00000001202007TMIN", &[(1, b"  -12   ")]),
        line_of(b"ZZA00000002202007TMAX", &[(1, b"  250   ")]),
        line_of(b"ZZA00000001202007PRCP", &[(1, b"   25   ")]),
        line_of(b"ZZA00000001202007SNOW", &[(1, b"    0   ")]),
        line_of(b"ZZA00000001202007SNWD", &[(1, b"  120   ")]),
    ]
}

#[test]
fn series_of_a_set_of_elements(rt: HostRuntime) {
    let lines = six_lines();
    let [tmax, tmin, other, prcp, snow, snwd] = &lines;
    let lines: [&[u8]; 6] = [tmax, tmin, other, prcp, snow, snwd];
    let two = Keep::nothing().with(Element::Tmin).with(Element::Snow);
    let four = two.with(Element::Tmax).with(Element::Prcp);
    let cases: [(Keep, [Option<i32>; 5], Option<i32>); 4] = [
        (Keep::nothing(), [None; 5], None),
        (two, [None, Some(0), None, None, Some(-12)], None),
        (
            four,
            [Some(25), Some(0), None, Some(311), Some(-12)],
            Some(250),
        ),
        (
            Keep::everything(),
            [Some(25), Some(0), Some(120), Some(311), Some(-12)],
            Some(250),
        ),
    ];
    for (keep, first, second) in cases {
        let found = kept_of_set(rt.alloc(), &lines, keep);
        assert_eq!(rt; found, Ok((first, second, 0)), "{keep:?}");
    }
}

#[test]
fn series_of_one_element(rt: HostRuntime) {
    let lines = six_lines();
    let [tmax, tmin, other, prcp, snow, snwd] = &lines;
    let lines: [&[u8]; 6] = [tmax, tmin, other, prcp, snow, snwd];
    let cases: [(Element, [Option<i32>; 5], Option<i32>); 5] = [
        (Element::Prcp, [Some(25), None, None, None, None], None),
        (Element::Snow, [None, Some(0), None, None, None], None),
        (Element::Snwd, [None, None, Some(120), None, None], None),
        (
            Element::Tmax,
            [None, None, None, Some(311), None],
            Some(250),
        ),
        (Element::Tmin, [None, None, None, None, Some(-12)], None),
    ];
    for (element, first, second) in cases {
        let expected = Ok((first, second, 0));
        assert_eq!(rt; kept(rt.alloc(), &lines, element), expected, "{element:?}");
        let found = kept_by_bytes(rt.alloc(), &lines, element);
        assert_eq!(rt; found, expected, "{element:?} by bytes");
    }
}

#[test]
fn faults_of_elements_that_are_not_kept(rt: HostRuntime) {
    let july = line_of(b"ZZA00000001202007TMIN", &[(1, b"  150   ")]);
    let asked = line_of(b"ZZA00000001202007TMAX", &[(1, b"  311   ")]);
    let letters = line_of(b"ZZA00000001202008TMIN", &[(3, b"12 34   ")]);
    let unlisted = line_of(b"ZZA00000009202007TMIN", &[(1, b"  150   ")]);
    let bad = DailyWhy::Line(LineWhy::BadValue(3));
    let again = DailyWhy::DuplicateMonth;
    let cases: [(&str, [&[u8]; 2], Result<u64, DataFault>); 4] = [
        ("no fault", [&july, &asked], Ok(0)),
        ("a repeated month", [&july, &july], refused(1, 2, again)),
        ("a bad value", [&july, &letters], refused(1, 2, bad)),
        ("an unlisted station", [&unlisted, &asked], Ok(1)),
    ];
    for (name, lines, expected) in cases {
        let found = kept(rt.alloc(), &lines, Element::Tmax);
        assert_eq!(rt; found.map(|it| it.2), expected, "{name}");
        let found = kept_by_bytes(rt.alloc(), &lines, Element::Tmax);
        assert_eq!(rt; found.map(|it| it.2), expected, "{name}");
        assert_eq!(rt;
            are_alike_in(rt.alloc(), &lines),
            Ok(true),
            "{name} by lines"
        );
    }
}
