//! Tables of texts of reports, and the first error of a station list or of a text.

use super::*;
use crate::table::table_texts;
use std::alloc::Global;
use std::test::Fail;

/// The table of the report of the best record, with the three stations.
const TABLE: &[u8] = b"query,rank,id,first,last,value,unit,name,latitude,longitude,elevation
top 1 highest TMAX,1,ZZA00000001,2020-07-01,2020-07-01,31.1,C,ALPHA,10.0000,20.0000,100.0
";

/// The table of a text with a list, or the line of its error.
fn table_or_error(alloc: Global, list: &[u8], text: &[u8]) -> Result<Vec<u8>, Fail> {
    let texts = vec![in alloc; Vec::from_slice(alloc, text)?]?;
    match table_texts(alloc, Some(list), &texts) {
        Ok(table) => Ok(table.bytes),
        Err(fault) => Ok(Vec::from_slice(alloc, format!(in alloc; "{fault}")?.as_bytes())?),
    }
}

#[test]
fn table_or_first_error(rt: HostRuntime) -> Result<(), Fail> {
    let cases: [(&[u8], &[u8], &[u8]); 4] = [
        (STATIONS, BEST, TABLE),
        (b"?\n", b"", b"refused 1 StationLine line 1 Short"),
        (b"", b"", b"refused file 1 line 1 BadReport"),
        (b"", BEST, b"refused file 1 line 3 NotListed"),
    ];
    for (list, text, expected) in cases {
        let found = table_or_error(rt.alloc(), list, text)?;
        assert_eq!(rt; found.as_slice(), expected);
    }
    Ok(())
}
