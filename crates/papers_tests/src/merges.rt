//! Worked merges, and each refusal.

use rank_merge::merge;
use rank_query::Query;
use std::alloc::{AllocError, Global};
use std::test::Fail;

/// The merged report and certificate, one after the other, or the line of the refusal.
fn outcome(alloc: Global, query: &str, parts: &[(&[u8], &[u8])]) -> Result<Vec<u8>, Fail> {
    let query = Query::parse(query)?;
    let mut text = Vec::new(alloc);
    match merge(alloc, &query, parts) {
        Ok(merged) => {
            text.extend_from_slice(&merged.report)?;
            text.extend_from_slice(&merged.certificate)?;
        }
        Err(why) => text.extend_from_slice(format!(in alloc; "{why}")?.as_bytes())?,
    }
    Ok(text)
}

/// Two stations of which the second was skipped, with a certificate of version 2.
const TWO: (&[u8], &[u8]) = (
    b"extremes report 1
query top 1 highest TMAX
1 ZZA00000001 2020-07-01 2020-07-01 31.1 C ALPHA
end 1
",
    b"extremes certificate 2
query top 1 highest TMAX
kth 311
scan ZZA00000001 311 1
skip ZZA00000002 310
end 2
",
);

/// One more station, with a certificate of version 1.
const ONE: (&[u8], &[u8]) = (
    b"extremes report 1
query top 1 highest TMAX
1 ZZA00000003 2020-07-01 2020-07-01 25.0 C CHARLIE
end 1
",
    b"extremes certificate 1
query top 1 highest TMAX
kth 250
scan ZZA00000003 250
end 1
",
);

const TWO_AND_ONE: &[u8] = b"extremes report 1
query top 1 highest TMAX
1 ZZA00000001 2020-07-01 2020-07-01 31.1 C ALPHA
end 1
extremes certificate 2
query top 1 highest TMAX
kth 311
scan ZZA00000001 311 1
skip ZZA00000002 310
scan ZZA00000003 250 0
end 3
";

/// A station with two of the three highest, of which there are fewer here.
const FEW: (&[u8], &[u8]) = (
    b"extremes report 1
query top 3 highest TMAX
1 ZZA00000001 2020-07-01 2020-07-01 31.1 C ALPHA
2 ZZA00000001 2020-07-02 2020-07-02 30.5 C ALPHA
end 2 all
",
    b"extremes certificate 2
query top 3 highest TMAX
kth none
scan ZZA00000001 311 2
end 1
",
);

/// Two more stations, of which the last isn't one of the three highest.
const OTHERS: (&[u8], &[u8]) = (
    b"extremes report 1
query top 3 highest TMAX
1 ZZA00000002 2020-07-01 2020-07-01 31.1 C BRAVO
2 ZZA00000003 2020-07-01 2020-07-01 25.0 C CHARLIE
end 2 all
",
    b"extremes certificate 2
query top 3 highest TMAX
kth none
scan ZZA00000002 311 1
scan ZZA00000003 250 1
end 2
",
);

const FEW_AND_OTHERS: &[u8] = b"extremes report 1
query top 3 highest TMAX
1 ZZA00000001 2020-07-01 2020-07-01 31.1 C ALPHA
2 ZZA00000002 2020-07-01 2020-07-01 31.1 C BRAVO
3 ZZA00000001 2020-07-02 2020-07-02 30.5 C ALPHA
end 3
extremes certificate 2
query top 3 highest TMAX
kth 305
scan ZZA00000001 311 2
scan ZZA00000002 311 1
scan ZZA00000003 250 0
end 3
";

const NO_DATA: &[u8] = b"extremes report 1
query top 3 highest TMAX
end 0 all
extremes certificate 2
query top 3 highest TMAX
kth none
end 0
";

#[test]
fn merges(rt: HostRuntime) -> Result<(), Fail> {
    let top_1 = "top 1 highest TMAX";
    let top_3 = "top 3 highest TMAX";
    let cases: [(&str, &[(&[u8], &[u8])], &[u8]); 9] = [
        (top_1, &[TWO, ONE], TWO_AND_ONE),
        (top_1, &[ONE, TWO], TWO_AND_ONE),
        (" top 01  highest TMAX", &[TWO, ONE], TWO_AND_ONE),
        (top_3, &[FEW, OTHERS], FEW_AND_OTHERS),
        (top_3, &[OTHERS, FEW], FEW_AND_OTHERS),
        (top_3, &[], NO_DATA),
        (top_1, &[ONE, TWO, ONE, TWO], b"refused twice ZZA00000001"),
        (top_1, &[ONE, ONE], b"refused twice ZZA00000003"),
        (top_3, &[TWO, ONE], b"refused part 1 OtherQuery"),
    ];
    for (query, parts, expected) in cases {
        let found = outcome(rt.alloc(), query, parts)?;
        let count = parts.len();
        assert_eq!(rt; found.as_slice(), expected, "at {query} of {count}");
    }
    Ok(())
}

#[test]
fn merges_of_merges(rt: HostRuntime) -> Result<(), Fail> {
    let query = Query::parse("top 3 highest TMAX")?;
    let few = merge(rt.alloc(), &query, &[FEW])?;
    let others = merge(rt.alloc(), &query, &[OTHERS])?;
    let none = merge(rt.alloc(), &query, &[])?;
    let parts: [(&[u8], &[u8]); 3] = [
        (&others.report, &others.certificate),
        (&none.report, &none.certificate),
        (&few.report, &few.certificate),
    ];
    let found = outcome(rt.alloc(), "top 3 highest TMAX", &parts)?;
    assert_eq!(rt; found.as_slice(), FEW_AND_OTHERS);
    Ok(())
}

/// The report of a station, one row of two.
const SEVENTH_REPORT: &[u8] = b"extremes report 1
query top 2 highest TMAX
1 ZZA00000007 2020-07-01 2020-07-01 29.0 C
end 1 all
";

/// A part with one station and one row of two.
const SEVENTH: (&[u8], &[u8]) = (
    SEVENTH_REPORT,
    b"extremes certificate 1
query top 2 highest TMAX
kth none
scan ZZA00000007 290
end 1
",
);

const ASKED: &str = "query top 2 highest TMAX\n";

const ROWS: &str = "1 ZZA00000001 2020-07-01 2020-07-01 31.1 C
2 ZZA00000002 2020-07-01 2020-07-01 30.5 C
end 2
";

const LINES: &str = "kth 305
scan ZZA00000001 311 1
scan ZZA00000002 305 1
skip ZZA00000004 250
end 3
";

/// What follows the titles of the second of two parts: queries, rows and lines; and its refusal.
const FAULTS: [(&str, &str, &str, &str, &str); 17] = [
    (
        ASKED,
        "end 2\n",
        "query\n",
        LINES,
        "part 2 report line 3 BadReport",
    ),
    (
        "query top 1 wet\n",
        "end 0 all\n",
        ASKED,
        "end 0\n",
        "part 2 certificate line 3 BadCertificate",
    ),
    (
        ASKED,
        ROWS,
        ASKED,
        "kth 305\nscan ZZA00000001 311\nend 1\n",
        "part 2 certificate line 4 BadCertificate",
    ),
    (
        "query top 1 wet\n",
        "end 0 all\n",
        ASKED,
        LINES,
        "part 2 OtherQuery",
    ),
    (
        ASKED,
        "1 ZZA00000002 2020-07-01 2020-07-01 30.5 C\n2 ZZA00000001 2020-07-01 2020-07-01 31.1 C\nend 2\n",
        "query top 3 highest TMAX\n",
        LINES,
        "part 2 OtherQuery",
    ),
    (
        ASKED,
        "1 ZZA00000002 2020-07-01 2020-07-01 30.5 C\n2 ZZA00000001 2020-07-01 2020-07-01 31.1 C\nend 2\n",
        ASKED,
        LINES,
        "part 2 report line 4 OutOfOrder",
    ),
    (
        ASKED,
        "1 ZZA00000001 2020-07-01 2020-07-01 31.1 C\n2 ZZA00000001 2020-07-01 2020-07-02 31.1 C\nend 2\n",
        ASKED,
        LINES,
        "part 2 report line 4 OutOfOrder",
    ),
    (ASKED, ROWS, ASKED, "kth none\nend 0\n", "part 2 OtherFloor"),
    (
        ASKED,
        ROWS,
        ASKED,
        "kth 311\nskip ZZA00000001 3\nskip ZZA00000001 3\nend 2\n",
        "part 2 OtherFloor",
    ),
    (
        ASKED,
        "1 ZZA00000001 2020-07-01 2020-07-01 31.1 C\nend 1 all\n",
        ASKED,
        "kth 311\nend 0\n",
        "part 2 OtherFloor",
    ),
    (
        ASKED,
        ROWS,
        ASKED,
        "kth 305\nscan ZZA00000001 311 2\nscan ZZA00000003 305 1\nscan ZZA00000002 305 1\nend 3\n",
        "part 2 certificate line 6 NotRising",
    ),
    (
        ASKED,
        ROWS,
        ASKED,
        "kth 305\nscan ZZA00000001 311 2\nskip ZZA00000001 300\nend 2\n",
        "part 2 certificate line 5 NotRising",
    ),
    (
        ASKED,
        ROWS,
        ASKED,
        "kth 305\nscan ZZA00000002 311 2\nend 1\n",
        "part 2 report line 3 NotScanned",
    ),
    (
        ASKED,
        ROWS,
        ASKED,
        "kth 305\nscan ZZA00000001 311 2\nskip ZZA00000002 305\nend 2\n",
        "part 2 report line 4 NotScanned",
    ),
    (
        ASKED,
        ROWS,
        ASKED,
        "kth 305\nscan ZZA00000001 311 0\nscan ZZA00000002 305 2\nend 2\n",
        "part 2 certificate line 4 NotCounted",
    ),
    (
        ASKED,
        ROWS,
        ASKED,
        "kth 305\nscan ZZA00000001 311 1\nscan ZZA00000002 305 1\nscan ZZA00000007 305 1\nend 3\n",
        "part 2 certificate line 6 NotCounted",
    ),
    (
        ASKED,
        ROWS,
        ASKED,
        "kth 305\nscan ZZA00000001 311 1\nscan ZZA00000002 305 1\nskip ZZA00000007 300\nend 3\n",
        "twice ZZA00000007",
    ),
];

/// A report or a certificate with this title, query and rest.
fn paper(alloc: Global, title: &str, query: &str, rest: &str) -> Result<String, AllocError> {
    format!(in alloc; "{title}\n{query}{rest}")
}

#[test]
fn first_faults(rt: HostRuntime) -> Result<(), Fail> {
    for (asked, rows, other, lines, expected) in FAULTS {
        let report = paper(rt.alloc(), "extremes report 1", asked, rows)?;
        let certificate = paper(rt.alloc(), "extremes certificate 2", other, lines)?;
        let parts: [(&[u8], &[u8]); 2] = [SEVENTH, (report.as_bytes(), certificate.as_bytes())];
        let found = outcome(rt.alloc(), "top 2 highest TMAX", &parts)?;
        let wanted = format!(in rt.alloc(); "refused {expected}")?;
        assert_eq!(rt; found.as_slice(), wanted.as_bytes(), "at {expected}");
    }
    Ok(())
}

/// A part with an empty report and an empty certificate.
const EMPTY: (&[u8], &[u8]) = (b"", b"");

/// A part whose certificate is empty.
const UNCERTIFIED: (&[u8], &[u8]) = (SEVENTH_REPORT, b"");

#[test]
fn faults_of_parts_in_order(rt: HostRuntime) -> Result<(), Fail> {
    let cases: [(&[(&[u8], &[u8])], &[u8]); 4] = [
        (&[EMPTY, TWO], b"refused part 1 report line 1 BadReport"),
        (&[TWO, EMPTY], b"refused part 1 OtherQuery"),
        (
            &[SEVENTH, SEVENTH, EMPTY],
            b"refused part 3 report line 1 BadReport",
        ),
        (
            &[SEVENTH, UNCERTIFIED],
            b"refused part 2 certificate line 1 BadCertificate",
        ),
    ];
    for (parts, expected) in cases {
        let found = outcome(rt.alloc(), "top 2 highest TMAX", parts)?;
        let count = parts.len();
        assert_eq!(rt; found.as_slice(), expected, "of {count}");
    }
    Ok(())
}
