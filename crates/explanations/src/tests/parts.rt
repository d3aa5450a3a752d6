//! What is said about errors of parts.

use super::*;

/// Errors of three parts, and what is said.
const OF_PARTS: [(MergeFault, &str); 10] = [
    (
        MergeFault::BadReport { part: 2, line: 7 },
        "r2:7: no report has such a line there",
    ),
    (
        MergeFault::BadCertificate { part: 3, line: 7 },
        "c3:7: no certificate has such a line there",
    ),
    (
        MergeFault::OtherQuery { part: 1 },
        "r1: it or its certificate has another query than --query",
    ),
    (
        MergeFault::OutOfOrder { part: 2, line: 7 },
        "r2:7: the row before it doesn't precede it",
    ),
    (
        MergeFault::OtherFloor { part: 2 },
        "c2: its k-th score isn't that of its report's rows",
    ),
    (
        MergeFault::NotRising { part: 2, line: 7 },
        "c2:7: its ID isn't above that of the line before",
    ),
    (
        MergeFault::NotScanned { part: 2, line: 7 },
        "r2:7: the certificate has no scan line of its station",
    ),
    (
        MergeFault::NotCounted { part: 2, line: 7 },
        "c2:7: its last number isn't that of its station's rows",
    ),
    (
        MergeFault::Twice {
            id: StationId(*b"EGE00123161"),
        },
        "EGE00123161: certificates of two parts have this station; it may be in one part",
    ),
    (
        MergeFault::Memory(Memory),
        "out of memory: the system gave no more",
    ),
];

#[test]
fn errors_of_parts(rt: HostRuntime) -> Result<(), Fail> {
    let alloc = rt.alloc();
    let mut parts = Vec::new(alloc);
    for number in 1..4u64 {
        parts.push(Part {
            report: format!(in alloc; "r{number}")?,
            certificate: format!(in alloc; "c{number}")?,
        })?;
    }
    for (fault, expected) in OF_PARTS {
        let said = format!(in alloc; "{}", of_merge(fault, parts.as_slice()))?;
        assert_eq!(rt; said.as_str(), expected);
    }
    Ok(())
}
