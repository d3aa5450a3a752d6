//! Errors of reports and certificates to merge.

ghost use Rattle.std.specs.Prelude.{◌≡◌, ◌++◌, codes};
ghost use Rattle.explanations.specs.Shown.{shown_text};
ghost use Rattle.explanations.specs.Texts.{Says, place_text};
ghost use Rattle.explanations.specs.Merges.{certificate_path, merge_text, report_path};

use crate::explanation::Explanation;
use crate::notice::NO_MEMORY;
use command_line::Part;
use rank_merge::MergeFault;

/// An error of parts in words; their reports and certificates are named by their paths.
pub fn of_merge(fault: MergeFault, parts: &[Part]) -> Explanation<'_>
    ensures { Says result (merge_text fault parts.now) }
{
    match fault {
        MergeFault::BadReport { part, line } => {
            at(report(parts, part), line, "no report has such a line there")
        }
        MergeFault::BadCertificate { part, line } => {
            at(
                certificate(parts, part),
                line,
                "no certificate has such a line there",
            )
        }
        MergeFault::OtherQuery { part } => {
            of(
                report(parts, part),
                "it or its certificate has another query than --query",
            )
        }
        MergeFault::OutOfOrder { part, line } => {
            at(
                report(parts, part),
                line,
                "the row before it doesn't precede it",
            )
        }
        MergeFault::OtherFloor { part } => {
            of(
                certificate(parts, part),
                "its k-th score isn't that of its report's rows",
            )
        }
        MergeFault::NotRising { part, line } => {
            at(
                certificate(parts, part),
                line,
                "its ID isn't above that of the line before",
            )
        }
        MergeFault::NotScanned { part, line } => {
            at(
                report(parts, part),
                line,
                "the certificate has no scan line of its station",
            )
        }
        MergeFault::NotCounted { part, line } => {
            at(
                certificate(parts, part),
                line,
                "its last number isn't that of its station's rows",
            )
        }
        MergeFault::Twice { id } => Explanation::Station {
            id,
            says: "certificates of two parts have this station; it may be in one part",
        },
        MergeFault::Memory(_) => Explanation::Plain(NO_MEMORY),
    }
}

/// What is wrong with a line of a file.
fn at<'a>(path: &'a str, line: u64, says: &'static str) -> Explanation<'a>
    ensures { Says result (place_text path.now line ++ says.now) }
{
    Explanation::At { path, line, says }
}

/// What is wrong with a file.
fn of<'a>(name: &'a str, says: &'static str) -> Explanation<'a>
    ensures { Says result (shown_text name.now ++ codes ": " ++ says.now) }
{
    Explanation::Of { name, says }
}

/// The path of the report of this part, from 1.
fn report(parts: &[Part], part: u64) -> &str
    ensures { result.now ≡ report_path parts.now part }
{
    match parts.get(part.saturating_sub(1) as usize) {
        Some(part) => part.report.as_str(),
        None => "",
    }
}

/// The path of the certificate of this part, from 1.
fn certificate(parts: &[Part], part: u64) -> &str
    ensures { result.now ≡ certificate_path parts.now part }
{
    match parts.get(part.saturating_sub(1) as usize) {
        Some(part) => part.certificate.as_str(),
        None => "",
    }
}
