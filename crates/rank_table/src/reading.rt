//! The reports that files hold. A file may hold several, one after the other.

ghost use Rattle.std.specs.Prelude.{◌≡◌, ◌<◌, ◌+◌, ◌^◌, [], ◌∷◌, ◌++◌, length, Ok, IfOk, IfErr, OnOk};
ghost use Rattle.std.specs.List.{AllByRecursion};
ghost use Rattle.ghcn_fields.specs.Refusals.{IsRefusal, OrMemory};
ghost use Rattle.rank_papers.specs.Lines.{paper_lines};
ghost use Rattle.rank_papers.specs.ReportLines.{read_report, reported_in};
ghost use Rattle.rank_table.specs.Reading as reading;
ghost use Rattle.rank_table.specs.Reports as reports;
ghost use Rattle.rank_table.specs.Files as files;
ghost use Rattle.rank_table.specs.Laws as laws;
ghost use Rattle.rank_table.specs.Tables as tables;

use crate::cutting::first_report;
use crate::laws::texts_of_reports_are_read;
use crate::{PlacedReport, TableFault};
use ghcn_fields::Memory;
use rank_papers::{PaperFault, Report, read_report};
use std::alloc::Global;

/// Reads the reports that each text holds, at least one, in the order of the texts.
///
/// A text that doesn't hold reports is refused at the first line with which no reports go on.
pub fn read_reports(alloc: Global, texts: &[&[u8]]) -> Result<Vec<PlacedReport>, TableFault>
    ensures ok { IfOk result (λ found. reading.reports_from 1 (reports.texts_in texts.now)
        ≡ Ok (reports.placed_in found.items)) }
    ensures err { IfErr result (λ why.
        IsRefusal reading.is_memory why (reading.reports_from 1 (reports.texts_in texts.now))) }
    ensures held { IfOk result (λ found.
        reports.AreReportsOf (reports.texts_in texts.now) (reports.placed_in found.items)) }
    ensures wrong { IfErr result (reports.IsBadText (reports.texts_in texts.now)) }
    ensures there { IfOk result (λ found. AllByRecursion (laws.IsThere (reports.texts_in texts.now))
        (tables.rows_of (reports.placed_in found.items))) }
{
    // Clauses `held`, `wrong` and `there` are the law.
    texts_of_reports_are_read();
    read_texts(alloc, texts)
}

/// The reports that texts hold.
fn read_texts(alloc: Global, texts: &[&[u8]]) -> Result<Vec<PlacedReport>, TableFault>
    ensures ok { IfOk result (λ found. reading.reports_from 1 (reports.texts_in texts.now)
        ≡ Ok (reports.placed_in found.items)) }
    ensures err { IfErr result (λ why.
        IsRefusal reading.is_memory why (reading.reports_from 1 (reports.texts_in texts.now))) }
{
    let mut found = Vec::new(alloc);
    for (place, text) in texts.iter().enumerate() {
        add_reports(alloc, &mut found, place as u64 + 1, text)?;
    }
    Ok(found)
}

/// Adds the reports of the text of this file.
fn add_reports(
    alloc: Global,
    found: &mut Vec<PlacedReport>,
    file: u64,
    text: &[u8],
) -> Result<(), TableFault>
    ensures ok { OnOk result (files.AddsReports file text.now
        (reports.placed_in found.old.items) (reports.placed_in found.new.items)) }
    ensures err { IfErr result (λ why. IsRefusal reading.is_memory why
        (reading.in_file file (reading.read_reports text.now))) }
{
    let mut before = 0;
    let mut rest = text;
    'reports: loop {
        let (first, behind) = first_report(rest);
        let report = report_after(alloc, file, before, first)?;
        let lines = report.rows.len() as u64 + 3;
        let report = PlacedReport {
            file,
            before,
            report,
        };
        add(found, report)?;
        if behind.is_empty() {
            return Ok(());
        }
        before += lines;
        rest = behind;
    }
}

/// What the report of a text says, which follows this many lines of this file.
fn report_after(alloc: Global, file: u64, before: u64, text: &[u8]) -> Result<Report, TableFault>
    requires { before + length (paper_lines text.now) + 1 < 2 ^ 64 }
    ensures ok { IfOk result (λ r. read_report text.now ≡ Ok (reported_in r)) }
    ensures err { IfErr result (λ why.
        IsRefusal reading.is_memory why (reading.one_report file before (read_report text.now))) }
{
    match read_report(alloc, text) {
        Ok(report) => Ok(report),
        Err(PaperFault::BadReport { line }) => Err(TableFault::BadReport {
            file,
            line: before + line,
        }),
        Err(PaperFault::BadCertificate { .. }) => unreachable!(),
        Err(PaperFault::Memory(memory)) => Err(TableFault::Memory(memory)),
    }
}

fn add(found: &mut Vec<PlacedReport>, report: PlacedReport) -> Result<(), Memory>
    ensures { OnOk result (found.new.items ≡ found.old.items ++ report ∷ []) }
{
    found.push(report)?;
    Ok(())
}
