//! Writing the report and the certificate of a ranking.

ghost use Rattle.std.specs.Prelude.{◌≡◌, false};
ghost use Rattle.extremes.specs.Delivered.{IsDelivered, IsWritten, IsWrittenToEnd};

use crate::papers::Papers;
use std::io::Write;

/// How the writing of the report and the certificate ended.
#[derive(Clone, Copy, Debug, PartialEq, Eq)]
pub enum Delivery {
    /// The report, and the certificate if it is wanted, were written whole.
    Done,
    /// The certificate wasn't written, and the report not at all.
    CertificateFailed,
    /// The report was written in part.
    ReportFailed,
}

/// Writes the certificate, if it is wanted, and then the report.
///
/// A write that fails, or takes no byte, isn't tried again. It takes no memory.
pub fn deliver<C: Write, R: Write>(
    papers: &Papers,
    wanted: bool,
    certificate: &mut C,
    report: &mut R,
) -> Delivery
    ensures delivered { IsDelivered papers.now wanted
        (C.contents certificate.old) (C.contents certificate.new)
        (R.contents report.old) (R.contents report.new) result }
    ensures unused { wanted ≡ false → certificate.new ≡ certificate.old }
{
    if wanted && !write_whole(&papers.certificate, certificate) {
        return Delivery::CertificateFailed;
    }
    if write_whole(&papers.report, report) {
        Delivery::Done
    } else {
        Delivery::ReportFailed
    }
}

/// Writes a report or a certificate to its end and flushes it. Returns whether that was done.
pub(crate) fn write_whole<W: Write>(paper: &[u8], out: &mut W) -> bool
    ensures { IsWritten paper.now (W.contents out.old) (W.contents out.new) result }
{
    write_to_end(paper, out) && out.flush().is_ok()
}

/// Writes a text to its end: at once, if the writer takes it at once. Whether that was done.
pub(crate) fn write_to_end<W: Write>(text: &[u8], out: &mut W) -> bool
    ensures { IsWrittenToEnd text.now (W.contents out.old) (W.contents out.new) result }
{
    let mut rest = text;
    while !rest.is_empty() {
        match out.write(rest) {
            Ok(taken) if taken > 0 => rest = &rest[taken..],
            _ => return false,
        }
    }
    true
}
