//! The paths of the reports and the certificates of a list of queries in a folder.

ghost use Rattle.std.specs.Prelude.{◌≡◌, IfOk, string_bytes};
ghost use Rattle.extremes.specs.PaperPaths as paths;

use rank_input::below;
use std::alloc::{AllocError, Global};

/// What the name of a report's file has after its number.
pub(crate) const REPORT: &str = "report";

/// What the name of a certificate's file has after its number.
pub(crate) const CERTIFICATE: &str = "certificate";

/// The path of the report of the query of this number in a folder.
pub(crate) fn report_path(alloc: Global, folder: &str, number: u64) -> Result<String, AllocError>
    ensures { IfOk result (λ path. string_bytes path ≡ paths.report_path folder.now number) }
{
    paper_path(alloc, folder, number, REPORT)
}

/// The path of the certificate of the query of this number in a folder.
pub(crate) fn certificate_path(
    alloc: Global,
    folder: &str,
    number: u64,
) -> Result<String, AllocError>
    ensures { IfOk result (λ path. string_bytes path ≡ paths.certificate_path folder.now number) }
{
    paper_path(alloc, folder, number, CERTIFICATE)
}

/// The path of the file of this number and kind in a folder.
pub(crate) fn paper_path(
    alloc: Global,
    folder: &str,
    number: u64,
    kind: &str,
) -> Result<String, AllocError>
    ensures { IfOk result (λ path. string_bytes path ≡ paths.paper_path folder.now number kind.now) }
{
    let name = format!(in alloc; "{number}.{kind}")?;
    below(alloc, folder, &name)
}
