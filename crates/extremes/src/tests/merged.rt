//! Reports and certificates of parts that are merged.

use super::*;
use crate::merge::{MergingFault, PartTexts, merge_texts};
use rank_merge::MergeFault;
use rank_query::QueryFault;
use std::test::Fail;

#[test]
fn parts_are_merged(rt: HostRuntime) -> Result<(), Fail> {
    let alloc = rt.alloc();
    let query = "top 3 highest TMAX";
    let mut parts = Vec::new(alloc);
    for files in [&DAILY[540..], &DAILY[..540]] {
        let Ok(papers) = rank_serial(alloc, STATIONS, &[files], query, None) else {
            return Err(Fail::from("no papers"));
        };
        parts.push(PartTexts {
            report: papers.report,
            certificate: papers.certificate,
        })?;
    }
    let (mut target, mut out) = (SystemTarget::new(&rt), Vec::new(alloc));
    let mut messages = KeptLines::new(alloc);
    let merged = merge_texts(alloc, " top 3  highest TMAX", parts.as_slice());
    assert_eq!(rt;
        print_answer(&mut messages, merged, None, &mut target, &mut out),
        Ending::Done
    );
    assert_eq!(rt; out.as_slice(), REPORT);
    let cases = [
        (
            "top 3 highest",
            MergingFault::Query(QueryFault::QueryEnds),
            "refused 9 QueryEnds",
        ),
        (
            "top 4 highest TMAX",
            MergingFault::Parts(MergeFault::OtherQuery { part: 1 }),
            "refused part 1 OtherQuery",
        ),
    ];
    for (asked, expected, text) in cases {
        let refused = merge_texts(alloc, asked, parts.as_slice());
        let fault = refused.as_ref().err().copied();
        assert_eq!(rt; fault, Some(expected));
        let told = expected.to_string(alloc)?;
        assert_eq!(rt; told.as_str(), text);
        assert_eq!(rt;
            print_answer(&mut messages, refused, None, &mut target, &mut out),
            Ending::Refused
        );
    }
    assert_eq!(rt; out.as_slice(), REPORT);
    assert_eq!(rt;
        messages.text.as_str(),
        "refused 9 QueryEnds\nrefused part 1 OtherQuery\n"
    );
    Ok(())
}
