//! Reading a certificate line by line. What is read of a line is printed and compared with it.

ghost use Rattle.std.specs.Prelude.{◌≡◌, ◌+◌, ◌++◌, ◌∷◌, ◌<◌, ◌^◌, [], Ok, IfOk, IfErr, OnOk};
ghost use Rattle.ghcn_fields.specs.Numbers.{natural, up_to};
ghost use Rattle.rank_papers.specs.Certificate.{IsCertificateOf};
ghost use Rattle.rank_papers.specs.Lines as lines;
ghost use Rattle.rank_papers.specs.CertificateLines as certificate;

use crate::certificate_text::{push_end, push_kth, push_line, title};
use crate::counted::{Counted, has_count};
use crate::lines::{field_from, first_line, magnitude, number};
use crate::query_line::query_of;
use crate::report_lines::first_word;
use crate::{Certificate, Line, PaperFault};
use ghcn_fields::Memory;
use ghcn_files::{StationId, are_visible};
use rank_query::Query;
use std::alloc::Global;

/// The greatest count, since a report has at most that many rows.
const MOST_ROWS: u64 = 1000;

/// What a certificate says, or its first line that doesn't match the format there.
pub fn read_certificate(alloc: Global, bytes: &[u8]) -> Result<Certificate, PaperFault>
    ensures ok { IfOk result (λ c.
        certificate.read_certificate bytes.now ≡ Ok (certificate.certified_in c)) }
    ensures says { IfOk result (λ c. IsCertificateOf (certificate.certified_in c) bytes.now) }
    ensures err { IfErr result
        (certificate.IsBadCertificate (certificate.read_certificate bytes.now)) }
{
    let Some((line, rest)) = first_line(bytes) else {
        return Err(PaperFault::BadCertificate { line: 1 });
    };
    match version_of(line) {
        None => Err(PaperFault::BadCertificate { line: 1 }),
        Some(version) => read_query(alloc, &mut Vec::new(alloc), version, rest),
    }
}

/// The version whose first line this is.
fn version_of(line: &[u8]) -> Option<u64>
    ensures { result ≡ certificate.version_in line.now }
{
    if line == title(1) {
        Some(1)
    } else if line == title(2) {
        Some(2)
    } else {
        None
    }
}

/// Reads on from the query's line.
fn read_query(
    alloc: Global,
    paper: &mut Vec<u8>,
    version: u64,
    text: &[u8],
) -> Result<Certificate, PaperFault>
    ensures ok { IfOk result (λ c.
        certificate.behind_title version (lines.paper_lines text.now) ≡ Ok (certificate.certified_in c)) }
    ensures err { IfErr result
        (certificate.IsBadCertificate (certificate.behind_title version (lines.paper_lines text.now))) }
{
    let Some((line, rest)) = first_line(text) else {
        return Err(PaperFault::BadCertificate { line: 2 });
    };
    match query_of(alloc, paper, line) {
        Ok(None) => Err(PaperFault::BadCertificate { line: 2 }),
        Ok(Some(query)) => read_kth(alloc, paper, version, query, rest),
        Err(memory) => Err(PaperFault::Memory(memory)),
    }
}

/// Reads on from the line of the k-th score.
fn read_kth(
    alloc: Global,
    paper: &mut Vec<u8>,
    version: u64,
    query: Query,
    text: &[u8],
) -> Result<Certificate, PaperFault>
    ensures ok { IfOk result (λ c.
        certificate.behind_query version query (lines.paper_lines text.now) ≡ Ok (certificate.certified_in c)) }
    ensures err { IfErr result
        (certificate.IsBadCertificate (certificate.behind_query version query (lines.paper_lines text.now))) }
{
    let Some((line, rest)) = first_line(text) else {
        return Err(PaperFault::BadCertificate { line: 3 });
    };
    match kth_of(paper, line) {
        Ok(None) => Err(PaperFault::BadCertificate { line: 3 }),
        Ok(Some(kth)) => {
            let found = read_lines(alloc, paper, version, rest)?;
            with_lines(alloc, version, query, kth, found.as_slice()).map_err(PaperFault::Memory)
        }
        Err(memory) => Err(PaperFault::Memory(memory)),
    }
}

/// A certificate with these lines, and with their counts if its version has them.
fn with_lines(
    alloc: Global,
    version: u64,
    query: Query,
    kth: Option<i64>,
    found: &[Counted],
) -> Result<Certificate, Memory>
    ensures { IfOk result (λ c.
        certificate.with_entries version query kth (Ok found.now) ≡ Ok (certificate.certified_in c)) }
{
    Ok(Certificate {
        version,
        query,
        kth,
        lines: entries_of(alloc, found)?,
        counts: counts_in(alloc, version, found)?,
    })
}

/// The lines without their counts.
fn entries_of(alloc: Global, found: &[Counted]) -> Result<Vec<Line>, Memory>
    ensures { IfOk result (λ entries. entries.items ≡ certificate.entries_of found.now) }
{
    Ok(found.iter().map(|line| line.entry).collect(alloc)?)
}

/// The counts of lines, in a version that has them.
fn counts_in(alloc: Global, version: u64, found: &[Counted]) -> Result<Vec<u64>, Memory>
    ensures { IfOk result (λ counts. counts.items ≡ certificate.counts_in version found.now) }
{
    if version == 2 {
        Ok(found.iter().map(|line| line.count).collect(alloc)?)
    } else {
        Ok(Vec::new(alloc))
    }
}

/// The lines of morsels, up to an end line with their number.
fn read_lines(
    alloc: Global,
    paper: &mut Vec<u8>,
    version: u64,
    text: &[u8],
) -> Result<Vec<Counted>, PaperFault>
    ensures ok { IfOk result (λ ls.
        certificate.entries_in version 0 (lines.paper_lines text.now) ≡ Ok ls.items) }
    ensures err { IfErr result
        (certificate.IsBadCertificate (certificate.entries_in version 0 (lines.paper_lines text.now))) }
{
    let mut found = Vec::new(alloc);
    let mut rest = text;
    while let Some((line, behind)) = first_line(rest) {
        let Some(entry) = line_of(paper, version, line).map_err(PaperFault::Memory)? else {
            read_end(paper, found.len() as u64, line, behind)?;
            return Ok(found);
        };
        add(&mut found, entry).map_err(PaperFault::Memory)?;
        rest = behind;
    }
    Err(PaperFault::BadCertificate {
        line: found.len() as u64 + 4,
    })
}

fn add(lines: &mut Vec<Counted>, line: Counted) -> Result<(), Memory>
    ensures { OnOk result (lines.new.items ≡ lines.old.items ++ line ∷ []) }
{
    lines.push(line)?;
    Ok(())
}

/// Reads the end line of that many lines, after which nothing may come.
fn read_end(paper: &mut Vec<u8>, count: u64, line: &[u8], behind: &[u8]) -> Result<(), PaperFault>
    requires { count < 2 ^ 63 }
    ensures ok { OnOk result (certificate.ending count line.now behind.now ≡ Ok []) }
    ensures err { IfErr result
        (certificate.IsBadCertificate (certificate.ending count line.now behind.now)) }
{
    paper.clear();
    push_end(paper, count).map_err(PaperFault::Memory)?;
    if line != paper.as_slice() {
        return Err(PaperFault::BadCertificate { line: count + 4 });
    }
    if !behind.is_empty() {
        return Err(PaperFault::BadCertificate { line: count + 5 });
    }
    Ok(())
}

/// The k-th score, or none, whose line this is.
fn kth_of(paper: &mut Vec<u8>, line: &[u8]) -> Result<Option<Option<i64>>, Memory>
    ensures { IfOk result (λ kth. kth ≡ certificate.kth_in line.now) }
{
    let Some(kth) = kth_of_word(field_from(line, 4)) else {
        return Ok(None);
    };
    paper.clear();
    push_kth(paper, kth)?;
    Ok(if paper.as_slice() == line {
        Some(kth)
    } else {
        None
    })
}

fn kth_of_word(word: &[u8]) -> Option<Option<i64>>
    ensures { result ≡ certificate.kth_word word.now }
{
    if word == b"none".as_slice() {
        return Some(None);
    }
    Some(Some(number(word)?))
}

/// The line of a morsel, as its version writes it.
fn line_of(paper: &mut Vec<u8>, version: u64, line: &[u8]) -> Result<Option<Counted>, Memory>
    ensures { IfOk result (λ entry. entry ≡ certificate.entry_in version line.now) }
{
    let Some(entry) = counted_in_columns(version, line) else {
        return Ok(None);
    };
    paper.clear();
    push_line(paper, version, &entry)?;
    Ok(if paper.as_slice() == line {
        Some(entry)
    } else {
        None
    })
}

/// The line in its columns, and its count if it has one.
fn counted_in_columns(version: u64, line: &[u8]) -> Option<Counted>
    ensures { result ≡ certificate.counted_in_columns version line.now }
{
    let entry = line_in_columns(line)?;
    with_count(version, behind_word(field_from(line, 17)), entry)
}

/// The word, the ID and the bound in their columns.
fn line_in_columns(line: &[u8]) -> Option<Line>
    ensures { result ≡ certificate.entry_in_columns line.now }
{
    let bound = number(first_word(field_from(line, 17)))?;
    let word = line.first_chunk::<4>()?;
    let id = line.get(5..)?.first_chunk::<11>()?;
    if !are_visible(id) {
        return None;
    }
    Some(Line {
        id: StationId(*id),
        bound,
        skipped: *word == *b"skip",
    })
}

/// What comes after the first blank.
fn behind_word(field: &[u8]) -> &[u8]
    ensures { result.now ≡ certificate.behind_word field.now }
{
    let word = first_word(field);
    if word.len() < field.len() {
        &field[word.len() + 1..]
    } else {
        &[]
    }
}

/// A line with the count that a field writes, if it has one.
fn with_count(version: u64, field: &[u8], entry: Line) -> Option<Counted>
    ensures { result ≡ certificate.with_count version field.now entry }
{
    let count = count_in(has_count(version, &entry), field)?;
    Some(Counted { entry, count })
}

/// The count that a field writes; 0 if there is none.
fn count_in(has: bool, field: &[u8]) -> Option<u64>
    ensures { result ≡ certificate.count_field has field.now }
{
    if has { count(field) } else { Some(0) }
}

/// The number that digits write, if it is at most that of a report's rows.
fn count(digits: &[u8]) -> Option<u64>
    ensures { result ≡ up_to 1000 (natural digits.now) }
{
    let count = magnitude(digits)?;
    if count <= MOST_ROWS {
        Some(count)
    } else {
        None
    }
}
