//! Why the head of a report and a certificate is refused.

/// The first error of a report and a certificate that can be seen without data. Lines are counted from 1.
///
/// The tests are made in the order of the reasons below, and each test goes through all lines before the
/// next test.
#[derive(Clone, Copy, Debug, PartialEq, Eq)]
pub enum HeadFault {
    /// The report has another query than the one that the caller passes.
    OtherReportQuery,
    /// The certificate has another query than the one that the caller passes.
    OtherCertificateQuery,
    /// The row before this line of the report doesn't precede it.
    OutOfOrder { line: u64 },
    /// The k-th score of the certificate isn't that of the report's rows.
    OtherFloor,
    /// The ID on this line of the certificate isn't above the ID of the line before.
    NotRising { line: u64 },
    /// The row on this line of the report doesn't belong to a series that was scanned.
    NotScanned { line: u64 },
    /// The count on this line of the certificate isn't the number of the report's rows of its station.
    NotCounted { line: u64 },
}
