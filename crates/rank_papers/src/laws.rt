//! What is true of the texts of reports and certificates, as laws over their definitions.

ghost use Rattle.rank_papers.specs.Laws as laws;
ghost use Rattle.rank_papers.specs.OneElement as one_element;
ghost use Rattle.rank_papers.specs.RightLaws as right;

use rank_scores::one_element_is_enough;

/// A text is read as a certificate if and only if it is the text of what is read, and every other
/// text is refused at its first bad line. A certificate is right if and only if what is read is.
pub fn certificates_are_read()
    ensures read { laws.CertificatesAreRead }
    ensures wrong { laws.CertificatesGoWrong }
    ensures right { laws.RightCertificatesSayRight }
{}

/// A text is read as a report if and only if it is the text of what is read, and every other text
/// is refused at its first bad line. A report is right if and only if what is read is.
pub fn reports_are_read()
    ensures read { laws.ReportsAreRead }
    ensures wrong { laws.ReportsGoWrong }
    ensures right { laws.RightReportsSayRight }
{}

/// What is found by rank is right by what it is: the best candidates, of which there is one list, the
/// report with them, and the certificates.
pub fn papers_are_found()
    ensures best { right.BestAreFound }
    ensures one { right.BestAreOne }
    ensures report { right.ReportsAreFound }
    ensures certificate { right.CertificatesAreFound }
{}

/// What is right for the data of files without an error is right for what their lines say, and the
/// other way round.
pub fn papers_are_said()
    ensures report { right.ReportsAreSaid }
    ensures certificate { right.CertificatesAreSaid }
{}

/// The report and the certificate of a query say nothing of the series of other elements: if these
/// are left out of the data, the same report and the same certificates are right.
pub fn papers_of_one_element()
    ensures report { one_element.ReportStays }
    ensures certificate { one_element.CertificateStays }
    ensures measured { one_element.MeasuredStays }
    ensures right_report { right.RightReportStays }
    ensures right_certificate { right.RightCertificateStays }
{
    // The candidates and the morsels of a query stay.
    one_element_is_enough();
}
