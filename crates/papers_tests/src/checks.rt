//! Lines of a certificate, and stations without one, checked by themselves.

use crate::data::{A, B, C, CERTIFICATE, REPORT, usual_data};
use ghcn_fields::Day;
use ghcn_files::StationId;
use rank_check::{Why, check, check_absent, check_by, check_line};
use rank_papers::{Line, Row};
use rank_query::Query;
use rank_scores::Candidate;
use std::alloc::Global;
use std::test::Fail;

/// A line of a certificate: the station, whether it is skipped, the bound and the count.
type Printed = (StationId, bool, i64, u64);

/// The best record, which is the only row of the report.
fn best_record() -> Option<Candidate> {
    let day = Day::of(2020, 7, 1)?;
    Some(Candidate {
        id: A,
        first: day,
        last: day,
        score: 311,
    })
}

/// What a line of a station without rows is refused for.
fn fault_without_rows(
    alloc: Global,
    (id, skipped, bound, printed): Printed,
) -> Option<Option<Why>> {
    let dataset = usual_data(alloc)?;
    let query = Query::parse("top 1 highest TMAX").ok()?;
    let worst = best_record()?;
    let station = dataset.stations().get(&id)?;
    let series = dataset.series(&id, query.element());
    let line = Line { id, bound, skipped };
    Some(check_line(&query, station, series, &line, printed, &[], Some(&worst)))
}

#[test]
fn lines_without_rows(rt: HostRuntime) {
    let cases: [(Printed, Option<Why>); 7] = [
        ((B, false, 311, 0), None),
        ((C, true, 250, 0), None),
        ((A, false, 311, 0), Some(Why::NotBest)),
        ((A, false, 311, 1), Some(Why::NotCounted)),
        ((B, false, 310, 0), Some(Why::NoBound)),
        ((C, true, 249, 0), Some(Why::NoBound)),
        ((C, true, 311, 0), Some(Why::NotBelow)),
    ];
    for (printed, expected) in cases {
        let found = fault_without_rows(rt.alloc(), printed);
        assert_eq!(rt; found, Some(expected), "at {printed:?}");
    }
}

/// What the line of the best record's station is refused for, with its row.
fn fault_with_its_row(alloc: Global) -> Option<Option<Why>> {
    let dataset = usual_data(alloc)?;
    let query = Query::parse("top 1 highest TMAX").ok()?;
    let worst = best_record()?;
    let rows = [Row {
        candidate: worst,
        name: Vec::from_slice(alloc, b"ALPHA").ok()?,
    }];
    let station = dataset.stations().get(&A)?;
    let series = dataset.series(&A, query.element());
    let line = Line {
        id: A,
        bound: 311,
        skipped: false,
    };
    Some(check_line(&query, station, series, &line, 1, &rows, Some(&worst)))
}

#[test]
fn a_line_with_its_row(rt: HostRuntime) {
    assert_eq!(rt; fault_with_its_row(rt.alloc()), Some(None));
}

/// Whether the third station may be without a line.
fn is_absent(alloc: Global, query: &str) -> Option<bool> {
    let dataset = usual_data(alloc)?;
    let query = Query::parse(query).ok()?;
    let station = dataset.stations().get(&C)?;
    let series = dataset.series(&C, query.element());
    Some(check_absent(&query, station, series))
}

#[test]
fn stations_without_lines(rt: HostRuntime) {
    let cases = [
        ("top 1 highest TMAX", false),
        ("top 1 highest TMAX from 2021-01-01 to 2021-01-02", true),
        ("top 1 highest TMAX station ZZA00000001", true),
        ("top 1 wet", true),
    ];
    for (query, expected) in cases {
        assert_eq!(rt; is_absent(rt.alloc(), query), Some(expected), "at {query}");
    }
}

const SECOND_BEST: &str = "extremes report 1
query top 1 highest TMAX
1 ZZA00000002 2020-07-01 2020-07-01 31.1 C BRAVO
end 1
";

const NO_ROWS: &str = "extremes report 1
query top 1 highest TMAX
end 0 all
";

const LOW_BOUND: &str = "extremes certificate 2
query top 1 highest TMAX
kth 311
scan ZZA00000001 311 1
scan ZZA00000002 310 0
skip ZZA00000003 250
end 3
";

/// The verdict of several workers, of whom each has some of the three series, is that of one.
#[test]
fn checks_by_several_workers(rt: HostRuntime) -> Result<(), Fail> {
    let alloc = rt.alloc();
    let (Some(dataset), Ok(query)) = (usual_data(alloc), Query::parse("top 1 highest TMAX")) else {
        return Err(Fail::from("no data"));
    };
    let cases = [
        (REPORT, CERTIFICATE, "accepted"),
        (SECOND_BEST, CERTIFICATE, "refused report line 3 NotBest"),
        (NO_ROWS, CERTIFICATE, "refused report line 3 TooFew"),
        (REPORT, LOW_BOUND, "refused certificate line 5 NoBound"),
        (REPORT, REPORT, "refused certificate line 1 Form"),
    ];
    for (report, certificate, expected) in cases {
        let (report, certificate) = (report.as_bytes(), certificate.as_bytes());
        let alone = check(alloc, &dataset, &query, report, certificate)?;
        assert_eq!(rt; alone.to_string(alloc)?.as_str(), expected);
        for workers in 0..5 {
            let found = check_by(&rt, alloc, &dataset, &query, report, certificate, workers)?;
            assert_eq!(rt; found, alone, "by {workers}");
        }
    }
    Ok(())
}
