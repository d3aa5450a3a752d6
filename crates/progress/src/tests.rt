//! The line that shows how far a run has come.

use crate::Reached;
use std::test::Fail;

#[test]
fn lines(rt: HostRuntime) -> Result<(), Fail> {
    let cases = [
        (0, 0, 1, 1, "0.0 GB, file 1 of 1"),
        (12_449, 0, 1, 2, "12.4 GB, file 1 of 2"),
        (
            12_341,
            30_100,
            53_121,
            129_004,
            "41 % of 30.1 GB, file 53121 of 129004",
        ),
        (0, 1, 0, 1, "0 % of 0.0 GB, file 0 of 1"),
        (99, 100, 3, 3, "99 % of 0.1 GB, file 3 of 3"),
        (100, 100, 3, 3, "100 % of 0.1 GB, file 3 of 3"),
        (250, 100, 3, 3, "100 % of 0.1 GB, file 3 of 3"),
        (
            u64::MAX - 1,
            u64::MAX,
            1,
            1,
            "99 % of 18446744073709551.6 GB, file 1 of 1",
        ),
    ];
    for (read, total, file, files, expected) in cases {
        let reached = Reached {
            read,
            total,
            file,
            files,
        };
        let line = format!(in rt.alloc(); "{reached}")?;
        assert_eq!(rt; line.as_str(), expected);
    }
    Ok(())
}
