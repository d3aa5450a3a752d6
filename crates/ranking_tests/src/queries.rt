//! Lists of queries, and what they need of the data.

use ghcn_fields::Memory;
use ghcn_files::Keep;
use rank_input::{QueriesFault, needed_by, read_queries};
use rank_query::QueryFault;
use std::test::Fail;

/// The error of a line that isn't a query.
fn line(line: u64, fault: QueryFault) -> QueriesFault {
    QueriesFault::Line { line, fault }
}

#[test]
fn queries_of_a_list(rt: HostRuntime) -> Result<(), Fail> {
    let cases: [(&[u8], &[&str]); 4] = [
        (b"top 3 dry", &["top 3 dry"]),
        (b"top 2 wet\ntop 1 dry\n", &["top 2 wet", "top 1 dry"]),
        (
            b" top 5  highest TMAX \r\ntop 5 lowest TMIN\r\ntop 5 highest TMAX",
            &[
                "top 5 highest TMAX",
                "top 5 lowest TMIN",
                "top 5 highest TMAX",
            ],
        ),
        (b"top 007 sum 3 PRCP\r", &["top 7 sum 3 PRCP"]),
    ];
    for (text, expected) in cases {
        let queries = read_queries(rt.alloc(), text)
            .ok()
            .unwrap_or(Vec::new(rt.alloc()));
        assert_eq!(rt; queries.len(), expected.len());
        for (query, expected) in queries.iter().zip(expected) {
            let text = query.text(rt.alloc())?;
            assert_eq!(rt; text.as_str(), *expected);
        }
    }
    Ok(())
}

#[test]
fn first_line_that_is_not_a_query(rt: HostRuntime) {
    let cases: [(&[u8], QueriesFault); 8] = [
        (b"", line(1, QueryFault::QueryEnds)),
        (b"\n", line(1, QueryFault::QueryEnds)),
        (b"top 1 dry\n\n", line(2, QueryFault::QueryEnds)),
        (
            b"top 1 dry\ntop 1 icy\ntop 0 dry\n",
            line(2, QueryFault::UnexpectedWord(3)),
        ),
        (b"top 1 dry\r\r\n", line(1, QueryFault::UnexpectedWord(3))),
        (
            b"top 1 dry\ntop 0 dry\n\xff",
            line(2, QueryFault::OutOfLimits(2)),
        ),
        (b"top 1 dry\n\xff\nx", QueriesFault::NotText(2)),
        (b"\xc3\x28", QueriesFault::NotText(1)),
    ];
    for (text, expected) in cases {
        assert_eq!(rt; read_queries(rt.alloc(), text).err(), Some(expected));
    }
}

#[test]
fn elements_that_queries_need(rt: HostRuntime) {
    let none = Keep::nothing();
    let cases: [(&[u8], Keep); 4] = [
        (b"top 1 highest SNOW", Keep { snow: true, ..none }),
        (b"top 1 dry\ntop 1 wet", Keep { prcp: true, ..none }),
        (
            b"top 1 hot 30.0\ntop 1 cold -5.0\ntop 1 highest TMAX",
            Keep {
                tmax: true,
                tmin: true,
                ..none
            },
        ),
        (
            b"top 1 highest SNWD\ntop 1 sum 5 SNOW\ntop 1 dry\ntop 1 hot 30.0\ntop 1 lowest TMIN",
            Keep::everything(),
        ),
    ];
    for (text, expected) in cases {
        let queries = read_queries(rt.alloc(), text)
            .ok()
            .unwrap_or(Vec::new(rt.alloc()));
        assert_eq!(rt; needed_by(&queries), expected);
    }
    assert_eq!(rt; needed_by(&[]), none);
}
