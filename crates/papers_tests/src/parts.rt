//! The report and the certificate of a whole archive, checked in parts.

use crate::data::{CERTIFICATE, REPORT, STATIONS, push_month, read};
use ghcn_series::Data;
use rank_papers::{certificate, report};
use rank_parts::{PartVerdict, check_part};
use rank_query::Query;
use rank_sched::{Plan, run_alone};
use std::alloc::Global;
use std::fmt::Write;
use std::test::Fail;

/// The data of one of two parts: of the first and the third station, or of the second.
fn part(alloc: Global, first: bool) -> Result<Data, Fail> {
    let mut text = String::new(alloc);
    if first {
        push_month(&mut text, "ZZA00000001", &[311, 305])?;
        push_month(&mut text, "ZZA00000003", &[250])?;
    } else {
        push_month(&mut text, "ZZA00000002", &[311])?;
    }
    Ok(read(alloc, STATIONS, text.as_bytes()).ok_or("no data")?)
}

/// What a part prints for a report and a certificate of the highest temperature.
fn line_of(alloc: Global, dataset: &Data, report: &str, certificate: &str) -> Result<String, Fail> {
    let query = Query::parse("top 1 highest TMAX")?;
    let verdict = check_part(
        alloc,
        dataset,
        &query,
        report.as_bytes(),
        certificate.as_bytes(),
    )?;
    Ok(format!(in alloc; "{verdict}")?)
}

const OTHER_NAME: &str = "extremes report 1
query top 1 highest TMAX
1 ZZA00000001 2020-07-01 2020-07-01 31.1 C BRAVO
end 1
";

const BEST_LEFT_OUT: &str = "extremes report 1
query top 1 highest TMAX
1 ZZA00000002 2020-07-01 2020-07-01 31.1 C BRAVO
end 1
";

const OTHER_QUERY: &str = "extremes report 1
query top 2 highest TMAX
end 0 all
";

const CERTIFICATE_1: &str = "extremes certificate 1
query top 1 highest TMAX
kth 311
scan ZZA00000001 311
scan ZZA00000002 311
skip ZZA00000003 250
end 3
";

const ONE_MISSING: &str = "extremes certificate 2
query top 1 highest TMAX
kth 311
scan ZZA00000001 311 1
scan ZZA00000002 311 0
end 2
";

const ONE_MORE: &str = "extremes certificate 2
query top 1 highest TMAX
kth 311
scan ZZA00000001 311 1
scan ZZA00000002 311 0
skip ZZA00000003 250
scan ZZA00000004 9 0
end 4
";

const LOW_BOUND: &str = "extremes certificate 1
query top 1 highest TMAX
kth 311
scan ZZA00000001 311
scan ZZA00000002 310
skip ZZA00000003 311
end 3
";

const OTHER_FLOOR: &str = "extremes certificate 1
query top 1 highest TMAX
kth 310
scan ZZA00000001 1
end 1
";

const NOT_RISING: &str = "extremes certificate 1
query top 1 highest TMAX
kth 311
scan ZZA00000001 311
scan ZZA00000001 311
end 2
";

#[test]
fn lines_of_two_parts(rt: HostRuntime) -> Result<(), Fail> {
    let cases: [(&str, &str, &str, &str); 7] = [
        (REPORT, CERTIFICATE, "accepted 2 of 3", "accepted 1 of 3"),
        (REPORT, CERTIFICATE_1, "accepted 2 of 3", "accepted 1 of 3"),
        (REPORT, ONE_MORE, "accepted 2 of 4", "accepted 1 of 4"),
        (
            REPORT,
            ONE_MISSING,
            "refused certificate line 6 OtherSeries",
            "accepted 1 of 2",
        ),
        (
            REPORT,
            LOW_BOUND,
            "refused certificate line 6 NotBelow",
            "refused certificate line 5 NoBound",
        ),
        (
            BEST_LEFT_OUT,
            CERTIFICATE_1,
            "refused certificate line 4 NotBest",
            "accepted 1 of 3",
        ),
        (
            OTHER_NAME,
            CERTIFICATE,
            "refused certificate line 4 NotACandidate",
            "accepted 1 of 3",
        ),
    ];
    let (first, second) = (part(rt.alloc(), true)?, part(rt.alloc(), false)?);
    for (report, certificate, expected, beside) in cases {
        let one = line_of(rt.alloc(), &first, report, certificate)?;
        let other = line_of(rt.alloc(), &second, report, certificate)?;
        assert_eq!(rt; one.as_str(), expected, "of the first, at {certificate}");
        assert_eq!(rt; other.as_str(), beside, "of the second, at {certificate}");
    }
    Ok(())
}

#[test]
fn faults_that_both_parts_find(rt: HostRuntime) -> Result<(), Fail> {
    let cases = [
        (OTHER_QUERY, CERTIFICATE, "refused report line 2 OtherQuery"),
        (REPORT, OTHER_FLOOR, "refused certificate line 3 OtherFloor"),
        (REPORT, NOT_RISING, "refused certificate line 5 OtherSeries"),
        ("", CERTIFICATE, "refused report line 1 Form"),
    ];
    let parts = [part(rt.alloc(), true)?, part(rt.alloc(), false)?];
    for (report, certificate, expected) in cases {
        for dataset in &parts {
            let found = line_of(rt.alloc(), dataset, report, certificate)?;
            assert_eq!(rt; found.as_str(), expected, "at {certificate}");
        }
    }
    Ok(())
}

/// How many stations a large archive has.
const MANY: u64 = 3000;

/// The list of the stations of a large archive.
fn many_stations(alloc: Global) -> Result<String, Fail> {
    let mut list = String::new(alloc);
    for station in 0..MANY {
        write!(list, "ZZB{station:>08}  10.0000   20.0000  100.0    \n")?;
    }
    Ok(list)
}

/// The data of its stations from one on, and before another.
fn many_data(alloc: Global, list: &str, from: u64, to: u64) -> Result<Data, Fail> {
    let mut text = String::new(alloc);
    let mut id = String::new(alloc);
    for station in from..to {
        id.clear();
        write!(id, "ZZB{station:>08}")?;
        push_month(&mut text, id.as_str(), &[300, 200])?;
    }
    Ok(read(alloc, list.as_bytes(), text.as_bytes()).ok_or("no data")?)
}

#[test]
fn parts_of_a_large_archive(rt: HostRuntime) -> Result<(), Fail> {
    let alloc = rt.alloc();
    let list = many_stations(alloc)?;
    let query = Query::parse("top 1000 highest TMAX")?;
    let whole = many_data(alloc, list.as_str(), 0, MANY)?;
    let plan = Plan::new(alloc, &whole, &query)?;
    let answer = run_alone(alloc, &plan, None)?;
    let rows = report(alloc, &plan, &answer)?;
    let lines = certificate(alloc, &plan, &answer)?;
    for (from, to) in [(0, 1000), (1000, 2000), (2000, MANY)] {
        let dataset = many_data(alloc, list.as_str(), from, to)?;
        let verdict = check_part(alloc, &dataset, &query, rows.as_slice(), lines.as_slice())?;
        let expected = PartVerdict::Accepted {
            series: 1000,
            lines: MANY,
        };
        assert_eq!(rt; verdict, expected, "from {from}");
    }
    Ok(())
}
