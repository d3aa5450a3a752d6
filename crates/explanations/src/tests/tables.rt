//! What is said about errors of reports that become a table.

use super::*;

/// Errors of two files, and what is said.
const OF_FILES: [(TableFault, &str); 4] = [
    (
        TableFault::BadReport { file: 1, line: 7 },
        "a.report:7: no report has such a line there",
    ),
    (
        TableFault::NotListed { file: 2, line: 3 },
        "-:3: its station isn't in the station list",
    ),
    // No file has this number.
    (
        TableFault::BadReport { file: 3, line: 1 },
        ":1: no report has such a line there",
    ),
    (
        TableFault::Memory(Memory),
        "out of memory: the system gave no more",
    ),
];

#[test]
fn errors_of_reports(rt: HostRuntime) -> Result<(), Fail> {
    let alloc = rt.alloc();
    let reports = [
        String::from_str(alloc, "a.report")?,
        String::from_str(alloc, "-")?,
    ];
    for (fault, expected) in OF_FILES {
        let found = format!(in alloc; "{}", of_table(fault, &reports))?;
        assert_eq!(rt; found.as_str(), expected, "at {fault:?}");
    }
    Ok(())
}
