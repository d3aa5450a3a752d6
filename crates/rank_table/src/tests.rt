//! Tables of reports that are written out.

use crate::{TableFault, read_reports, table};
use ghcn_files::Stations;
use std::alloc::Global;

/// A report of two rows: a name with a quote and a comma, and no name.
const WARMEST: &[u8] = b"extremes report 1
query top 2 highest TMAX
1 ZZA00000001 2020-07-01 2020-07-01 31.1 C ST. \"JOHN\", QUAY
2 ZZA00000002 2020-07-02 2020-07-02 -0.5 C
end 2
";

/// A report without rows.
const DRIEST: &[u8] = b"extremes report 1
query top 1 dry per station
end 0 all
";

/// A report of one row, of a station that isn't listed below.
const WETTEST: &[u8] = b"extremes report 1
query top 1 sum 3 SNOW
1 ZZA00000003 2020-01-01 2020-01-03 12 mm CHARLIE
end 1
";

/// The three reports in one text.
const TOGETHER: &[u8] = b"extremes report 1
query top 2 highest TMAX
1 ZZA00000001 2020-07-01 2020-07-01 31.1 C ST. \"JOHN\", QUAY
2 ZZA00000002 2020-07-02 2020-07-02 -0.5 C
end 2
extremes report 1
query top 1 dry per station
end 0 all
extremes report 1
query top 1 sum 3 SNOW
1 ZZA00000003 2020-01-01 2020-01-03 12 mm CHARLIE
end 1
";

/// The stations of the first report; the second has no elevation.
const STATIONS: &[u8] = b"\
ZZA00000001 -10.0050 -170.5000  100.5    ALPHA
ZZA00000002  11.0000    0.0001 -999.9    BRAVO
";

/// The table of texts, or why there is none.
fn table_of(alloc: Global, texts: &[&[u8]], list: Option<&[u8]>) -> Result<Vec<u8>, TableFault> {
    let reports = read_reports(alloc, texts)?;
    let Some(list) = list else {
        return table(alloc, &reports, None);
    };
    let Ok(stations) = Stations::read(alloc, list) else {
        return table(alloc, &[], None);
    };
    table(alloc, &reports, Some(&stations))
}

#[test]
fn table_of_three_reports(rt: HostRuntime) {
    let expected: &[u8] = b"query,rank,id,first,last,value,unit,name
top 2 highest TMAX,1,ZZA00000001,2020-07-01,2020-07-01,31.1,C,\"ST. \"\"JOHN\"\", QUAY\"
top 2 highest TMAX,2,ZZA00000002,2020-07-02,2020-07-02,-0.5,C,
top 1 sum 3 SNOW,1,ZZA00000003,2020-01-01,2020-01-03,12,mm,CHARLIE
";
    let alloc = rt.alloc();
    let found = table_of(alloc, &[WARMEST, DRIEST, WETTEST], None).ok();
    assert_eq!(rt; found.as_deref(), Some(expected));
    let found = table_of(alloc, &[TOGETHER], None).ok();
    assert_eq!(rt; found.as_deref(), Some(expected));
}

#[test]
fn table_with_places(rt: HostRuntime) {
    let expected: &[u8] = b"query,rank,id,first,last,value,unit,name,latitude,longitude,elevation
top 2 highest TMAX,1,ZZA00000001,2020-07-01,2020-07-01,31.1,C,\"ST. \"\"JOHN\"\", QUAY\",-10.0050,-170.5000,100.5
top 2 highest TMAX,2,ZZA00000002,2020-07-02,2020-07-02,-0.5,C,,11.0000,0.0001,
";
    let found = table_of(rt.alloc(), &[WARMEST], Some(STATIONS)).ok();
    assert_eq!(rt; found.as_deref(), Some(expected));
}

#[test]
fn texts_that_are_refused(rt: HostRuntime) {
    let cases: [(&[&[u8]], TableFault); 7] = [
        (&[b""], TableFault::BadReport { file: 1, line: 1 }),
        (&[DRIEST, b""], TableFault::BadReport { file: 2, line: 1 }),
        (
            &[&WARMEST[..44]],
            TableFault::BadReport { file: 1, line: 3 },
        ),
        (
            &[b"extremes report 1\nquery top 1 dry\nend 0 all\n\n"],
            TableFault::BadReport { file: 1, line: 4 },
        ),
        (
            &[b"extremes report 1\nquery top 1 dry\nend 1 all\n"],
            TableFault::BadReport { file: 1, line: 3 },
        ),
        (
            &[WETTEST, b"end 1\n"],
            TableFault::BadReport { file: 2, line: 1 },
        ),
        (
            &[WARMEST, WETTEST],
            TableFault::NotListed { file: 2, line: 3 },
        ),
    ];
    for (texts, expected) in cases {
        let found = table_of(rt.alloc(), texts, Some(STATIONS)).err();
        assert_eq!(rt; found, Some(expected));
    }
}
