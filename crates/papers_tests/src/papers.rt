//! Reports of one candidate, the report and the certificate of a run, and reports and certificates
//! that are read.

use crate::data::{A, B, CERTIFICATE, REPORT, usual_data};
use ghcn_fields::Day;
use ghcn_files::{StationId, Stations};
use rank_papers::{PaperFault, certificate, read_certificate, read_report, report, report_of_best};
use rank_query::Query;
use rank_sched::{Plan, run_alone};
use rank_scores::Candidate;
use std::alloc::Global;
use std::fmt::Write;
use std::test::Fail;

/// Two stations, of which the second has no name.
const TWO_STATIONS: &[u8] =
    b"ZZA00000001  10.0000   20.0000  100.0    ALPHA\nZZA00000002  11.0000   21.0000\n";

/// The report of a query with one candidate of a station, of 2020-07-01 and 2020-07-02.
fn report_of_one(alloc: Global, query: &str, id: StationId, score: i64) -> Result<Vec<u8>, Fail> {
    let query = Query::parse(query)?;
    let stations = Stations::read(alloc, TWO_STATIONS)?;
    if stations.get(&id).is_none() {
        return Err(Fail::from("the station isn't listed"));
    }
    let best = [Candidate {
        id,
        first: Day::of(2020, 7, 1).ok_or("no first day")?,
        last: Day::of(2020, 7, 2).ok_or("no last day")?,
        score,
    }];
    Ok(report_of_best(alloc, &query, &stations, &best)?)
}

#[test]
fn values_units_and_names(rt: HostRuntime) -> Result<(), Fail> {
    let cases: [(&str, StationId, i64, &str); 8] = [
        ("top 1 highest TMAX", A, 311, "31.1 C ALPHA\nend 1\n"),
        ("top 2 highest TMIN", A, -5, "-0.5 C ALPHA\nend 1 all\n"),
        ("top 1 lowest TMIN", A, 103, "-10.3 C ALPHA\nend 1\n"),
        ("top 1000 lowest TMAX", B, -3, "0.3 C\nend 1 all\n"),
        ("top 1 highest PRCP", A, 3, "0.3 mm ALPHA\nend 1\n"),
        ("top 1 sum 2 SNOW", B, 30, "30 mm\nend 1\n"),
        ("top 1 highest SNWD", A, 1200, "1200 mm ALPHA\nend 1\n"),
        ("top 1 dry", A, 14, "14 days ALPHA\nend 1\n"),
    ];
    for (query, id, score, end) in cases {
        let report = report_of_one(rt.alloc(), query, id, score)?;
        assert!(rt; report.as_slice().ends_with(end.as_bytes()), "at {end}");
    }
    Ok(())
}

#[test]
fn lines_of_a_report(rt: HostRuntime) -> Result<(), Fail> {
    let report = report_of_one(rt.alloc(), " top 01  highest TMAX", A, 311)?;
    let lines: &[u8] = b"extremes report 1
query top 1 highest TMAX
1 ZZA00000001 2020-07-01 2020-07-02 31.1 C ALPHA
end 1
";
    assert_eq!(rt; report.as_slice(), lines);
    Ok(())
}

/// The report and the certificate of a query over three stations, of a run of one worker.
fn papers_of(alloc: Global, query: &str) -> Result<(Vec<u8>, Vec<u8>), Fail> {
    let dataset = usual_data(alloc).ok_or("no data")?;
    let query = Query::parse(query)?;
    let plan = Plan::new(alloc, &dataset, &query)?;
    let answer = run_alone(alloc, &plan, None)?;
    Ok((
        report(alloc, &plan, &answer)?,
        certificate(alloc, &plan, &answer)?,
    ))
}

#[test]
fn papers_of_a_run(rt: HostRuntime) -> Result<(), Fail> {
    let (report, certificate) = papers_of(rt.alloc(), "top 1 highest TMAX")?;
    assert_eq!(rt; report.as_slice(), REPORT.as_bytes());
    assert_eq!(rt; certificate.as_slice(), CERTIFICATE.as_bytes());
    Ok(())
}

const CERTIFICATE_1: &str = "extremes certificate 1
query top 1 highest TMAX
kth 311
scan ZZA00000001 311
skip ZZA00000003 250
end 2
";

#[test]
fn certificate_read_back(rt: HostRuntime) -> Result<(), Fail> {
    let Ok(read) = read_certificate(rt.alloc(), CERTIFICATE.as_bytes()) else {
        return Err(Fail::from("it isn't read"));
    };
    assert_eq!(rt; read.query.k(), 1);
    assert_eq!(rt; read.kth, Some(311));
    assert_eq!(rt; read.lines.len(), 3);
    assert_eq!(rt; read.lines[2].bound, 250);
    assert!(rt; read.lines[2].skipped);
    assert_eq!(rt; read.version, 2);
    let counts: &[u64] = &[1, 0, 0];
    assert_eq!(rt; read.counts.as_slice(), counts);
    Ok(())
}

#[test]
fn certificate_of_version_1_read_back(rt: HostRuntime) -> Result<(), Fail> {
    let Ok(read) = read_certificate(rt.alloc(), CERTIFICATE_1.as_bytes()) else {
        return Err(Fail::from("it isn't read"));
    };
    assert_eq!(rt; read.version, 1);
    assert_eq!(rt; read.lines.len(), 2);
    assert_eq!(rt; read.counts.len(), 0);
    Ok(())
}

/// What follows the line of the k-th score in certificates of both versions, and the first bad line.
const LINES: [(&str, &str, u64); 12] = [
    ("1", "scan ZZA00000001 311\nend 1\n", 0),
    ("1", "scan ZZA00000001 311 1\nend 1\n", 4),
    ("1", "skip ZZA00000001 250\nend 1\n", 0),
    ("2", "scan ZZA00000001 311 1\nend 1\n", 0),
    ("2", "scan ZZA00000001 311 1000\nend 1\n", 0),
    ("2", "scan ZZA00000001 311 1001\nend 1\n", 4),
    ("2", "scan ZZA00000001 311 01\nend 1\n", 4),
    ("2", "scan ZZA00000001 311 \nend 1\n", 4),
    ("2", "scan ZZA00000001 311\nend 1\n", 4),
    ("2", "skip ZZA00000001 250\nend 1\n", 0),
    ("2", "skip ZZA00000001 250 0\nend 1\n", 4),
    ("3", "end 0\n", 1),
];

#[test]
fn first_bad_counts_of_certificates(rt: HostRuntime) -> Result<(), Fail> {
    for (version, lines, bad) in LINES {
        let mut text = String::new(rt.alloc());
        write!(
            text,
            "extremes certificate {version}\nquery top 1 wet\nkth 311\n{lines}"
        )?;
        let found = match read_certificate(rt.alloc(), text.as_bytes()) {
            Err(PaperFault::BadCertificate { line }) => line,
            _ => 0,
        };
        assert_eq!(rt; found, bad, "at {version} {lines}");
    }
    Ok(())
}

#[test]
fn first_bad_lines_of_certificates(rt: HostRuntime) -> Result<(), Fail> {
    let cases: [(&str, u64); 8] = [
        ("", 1),
        ("extremes certificate 3\n", 1),
        ("extremes certificate 1\nquery top 01 wet\n", 2),
        ("extremes certificate 1\nquery top 1 wet\nkth -0\n", 3),
        ("extremes certificate 1\nquery top 1 wet\nkth none\n", 4),
        (
            "extremes certificate 1\nquery top 1 wet\nkth none\nend 1\n",
            4,
        ),
        (
            "extremes certificate 1\nquery top 1 wet\nkth none\nend 0",
            4,
        ),
        (
            "extremes certificate 1\nquery top 1 wet\nkth none\nend 0\n\n",
            5,
        ),
    ];
    for (text, bad) in cases {
        let found = match read_certificate(rt.alloc(), text.as_bytes()) {
            Err(PaperFault::BadCertificate { line }) => line,
            _ => 0,
        };
        assert_eq!(rt; found, bad, "at {text}");
    }
    Ok(())
}

const FOUR_ROWS: &str = "extremes report 1
query top 10 highest TMAX
1 ZZA00000001 2020-07-01 2020-07-01 31.1 C ALPHA
2 ZZA00000002 2020-07-01 2020-07-01 31.1 C BRAVO
3 ZZA00000003 2020-07-01 2020-07-02 -25.0 C  THE  THIRD
4 ZZA00000001 2020-07-02 2020-07-02 -0.3 C
end 4 all
";

#[test]
fn report_read_back(rt: HostRuntime) -> Result<(), Fail> {
    let Ok(read) = read_report(rt.alloc(), FOUR_ROWS.as_bytes()) else {
        return Err(Fail::from("it isn't read"));
    };
    assert_eq!(rt; read.query.k(), 10);
    assert_eq!(rt; read.rows.len(), 4);
    assert!(rt; read.all);
    assert_eq!(rt; read.rows[0].candidate.id, A);
    assert_eq!(rt; Some(read.rows[0].candidate.last), Day::of(2020, 7, 1));
    assert_eq!(rt; read.rows[0].candidate.score, 311);
    assert_eq!(rt; read.rows[2].candidate.score, -250);
    assert_eq!(rt; read.rows[2].name.as_slice(), b" THE  THIRD".as_slice());
    assert_eq!(rt; read.rows[3].candidate.score, -3);
    assert_eq!(rt; read.rows[3].name.len(), 0);
    Ok(())
}

/// The number of the first bad line of a report, or 0 if it is read.
fn bad_line_of_report(alloc: Global, text: &str) -> u64 {
    match read_report(alloc, text.as_bytes()) {
        Err(PaperFault::BadReport { line }) => line,
        _ => 0,
    }
}

#[test]
fn first_bad_lines_of_reports(rt: HostRuntime) -> Result<(), Fail> {
    let cases: [(&str, u64); 7] = [
        ("", 1),
        ("extremes report 2\n", 1),
        ("extremes report 1", 1),
        ("extremes report 1\n", 2),
        ("extremes report 1\nquery top 01 wet\n", 2),
        ("extremes report 1\nquery top 1 wet", 2),
        ("extremes report 1\nquery top 1 wet\n", 3),
    ];
    for (text, bad) in cases {
        assert_eq!(rt; bad_line_of_report(rt.alloc(), text), bad, "at {text}");
    }
    Ok(())
}

/// What follows the query's line in a report of the two lowest temperatures, and its first bad line.
const ROWS: [(&str, u64); 24] = [
    (
        "1 ZZA00000001 2020-07-01 2020-07-01 0.3 C ALPHA\nend 1 all\n",
        0,
    ),
    (
        "1 ZZA00000001 2020-07-01 2020-07-01 0.3 C  A  B\nend 1 all\n",
        0,
    ),
    ("1 ZZA00000001 2020-07-01 2020-07-01 0.3 C\nend 1 all\n", 0),
    ("end 0 all\n", 0),
    (
        "1 ZZA00000001 2020-07-01 2020-07-01 -0.5 C ALPHA\nend 1 all\n",
        0,
    ),
    (
        "1 ZZA00000001 2020-07-01 2020-07-01 -0.50 C ALPHA\nend 1 all\n",
        3,
    ),
    (
        "1 ZZA00000001 2020-07-01 2020-07-01 -0.0 C ALPHA\nend 1 all\n",
        3,
    ),
    (
        "1 ZZA00000001 2020-07-01 2020-07-01 -5 C ALPHA\nend 1 all\n",
        3,
    ),
    (
        "1 ZZA00000001 2020-07-01 2020-07-01 00.5 C ALPHA\nend 1 all\n",
        3,
    ),
    (
        "1 ZZA00000001 2020-07-01 2020-07-01 0.3 mm ALPHA\nend 1 all\n",
        3,
    ),
    (
        "2 ZZA00000001 2020-07-01 2020-07-01 0.3 C ALPHA\nend 1 all\n",
        3,
    ),
    (
        "1 ZZA0000000  2020-07-01 2020-07-01 0.3 C ALPHA\nend 1 all\n",
        3,
    ),
    (
        "1 ZZA00000001 2020-02-30 2020-07-01 0.3 C ALPHA\nend 1 all\n",
        3,
    ),
    ("1 ZZA00000001 2020-07-01 0.3 C ALPHA\nend 1 all\n", 3),
    (
        "1 ZZA00000001 2020-07-01 2020-07-01 0.3 C ALPHA \nend 1 all\n",
        3,
    ),
    ("1 ZZA00000001 2020-07-01 2020-07-01 0.3 C \nend 1 all\n", 3),
    ("1 ZZA00000001 2020-07-01 2020-07-01 0.3 C ALPHA", 3),
    ("1 ZZA00000001 2020-07-01 2020-07-01 0.3 C ALPHA\n", 4),
    (
        "1 ZZA00000001 2020-07-01 2020-07-01 0.3 C ALPHA\nend 1\n",
        4,
    ),
    (
        "1 ZZA00000001 2020-07-01 2020-07-01 0.3 C ALPHA\nend 2\n",
        4,
    ),
    (
        "1 ZZA00000001 2020-07-01 2020-07-01 0.3 C ALPHA\nend 1 all",
        4,
    ),
    (
        "1 ZZA00000001 2020-07-01 2020-07-01 0.3 C ALPHA\nend 1 all\n\n",
        5,
    ),
    (
        "1 ZZA00000001 2020-07-01 2020-07-01 0.3 C\n2 ZZA00000001 2020-07-02 2020-07-02 0.3 C\nend 2 all\n",
        5,
    ),
    (
        "1 ZZA00000001 2020-07-01 2020-07-01 0.3 C
2 ZZA00000001 2020-07-02 2020-07-02 0.3 C
3 ZZA00000001 2020-07-03 2020-07-03 0.3 C
end 3
",
        5,
    ),
];

#[test]
fn first_bad_rows_of_reports(rt: HostRuntime) -> Result<(), Fail> {
    for (rows, bad) in ROWS {
        let mut text = String::new(rt.alloc());
        text.push_str("extremes report 1\nquery top 2 lowest TMIN\n")?;
        text.push_str(rows)?;
        assert_eq!(rt; bad_line_of_report(rt.alloc(), &text), bad, "at {rows}");
    }
    Ok(())
}
