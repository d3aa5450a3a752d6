//! Reports and certificates of parts, merged.

ghost use Rattle.std.specs.Prelude.{◌<◌};

use crate::digest::Digest;
use crate::places::id_of;
use crate::random::Random;
use crate::ranking::Papers;
use crate::weather::{digit, year_text};
use ghcn_fields::Memory;
use itoa::Buffer;
use rank_input::Fault;
use rank_merge::merge;
use rank_query::Query;
use std::alloc::Global;

/// How many stations of a part have rows.
const STATIONS: u32 = 48;

/// Merges the reports and the certificates of that many parts, over and over: alternately they have a
/// thousand rows, or ten.
pub(crate) fn merge_parts(
    alloc: Global,
    random: &mut Random,
    rounds: u32,
    parts: u32,
    digest: &mut Digest,
) -> Result<(), Fault> {
    for round in 0..rounds {
        let text = if round % 2 == 0 {
            "top 1000 highest TMAX"
        } else {
            "top 10 highest TMAX"
        };
        let query = Query::parse(text)?;
        let papers = papers_of_parts(alloc, random, text, query.k() as u32 % 2000, parts)?;
        let texts = slices(alloc, &papers)?;
        match merge(alloc, &query, &texts) {
            Ok(merged) => {
                digest.add(&merged.report);
                digest.add(&merged.certificate);
            }
            Err(fault) => {
                let text = format!(in alloc; "{fault}").map_err(|_| Memory)?;
                digest.add(text.as_bytes());
            }
        }
    }
    Ok(())
}

/// The reports and the certificates of that many parts, each with that many rows.
fn papers_of_parts(
    alloc: Global,
    random: &mut Random,
    query: &str,
    rows: u32,
    parts: u32,
) -> Result<Vec<Papers>, Memory>
    requires { rows < 2000 }
{
    let mut papers = Vec::new(alloc);
    for part in 0..parts {
        let top = 400 + (random.next() % 64) as u32;
        papers.push(Papers {
            report: report_of(alloc, random, query, rows, part % 9000, top)?,
            certificate: certificate_of(alloc, query, rows, part % 9000, top)?,
        })?;
    }
    Ok(papers)
}

/// The texts of parts, lent.
fn slices(alloc: Global, papers: &[Papers]) -> Result<Vec<(&[u8], &[u8])>, Memory> {
    let mut texts = Vec::new(alloc);
    for part in papers {
        texts.push((part.report.as_slice(), part.certificate.as_slice()))?;
    }
    Ok(texts)
}

/// The report of a part: four rows of each score, which falls from the greatest by a tenth.
fn report_of(
    alloc: Global,
    random: &mut Random,
    query: &str,
    rows: u32,
    part: u32,
    top: u32,
) -> Result<Vec<u8>, Memory>
    requires rows { rows < 2000 }
    requires part { part < 9000 }
    requires top { top < 1000 }
{
    let mut report = Vec::from_slice(alloc, b"extremes report 1\nquery ")?;
    report.extend_from_slice(query.as_bytes())?;
    for row in 0..rows {
        report.extend_from_slice(b"\n")?;
        push_number(&mut report, row + 1)?;
        let id = id_of(number_of(part, station_of(row)));
        let value = top.saturating_sub(row / 4);
        report.extend_from_slice(&row_of(&id, &date_of(row / 4, random.next()), value))?;
    }
    report.extend_from_slice(b"\nend ")?;
    push_number(&mut report, rows)?;
    report.extend_from_slice(b"\n")?;
    Ok(report)
}

/// The certificate of a part: a line for each station with rows, and for one skipped after it.
fn certificate_of(
    alloc: Global,
    query: &str,
    rows: u32,
    part: u32,
    top: u32,
) -> Result<Vec<u8>, Memory>
    requires rows { rows < 2000 }
    requires part { part < 9000 }
    requires top { top < 1000 }
{
    let kth = top.saturating_sub(rows.saturating_sub(1) / 4);
    let counts = counts_of(rows);
    let mut certificate = Vec::from_slice(alloc, b"extremes certificate 2\nquery ")?;
    certificate.extend_from_slice(query.as_bytes())?;
    certificate.extend_from_slice(b"\nkth ")?;
    push_number(&mut certificate, kth)?;
    for station in 0..STATIONS {
        certificate.extend_from_slice(b"\nscan ")?;
        certificate.extend_from_slice(&id_of(number_of(part, station)))?;
        certificate.extend_from_slice(b" ")?;
        push_number(&mut certificate, top)?;
        certificate.extend_from_slice(b" ")?;
        push_number(&mut certificate, counts[station as usize])?;
        certificate.extend_from_slice(b"\nskip ")?;
        certificate.extend_from_slice(&id_of(number_of(part, station) + 1))?;
        certificate.extend_from_slice(b" ")?;
        push_number(&mut certificate, kth.saturating_sub(1 + station))?;
    }
    certificate.extend_from_slice(b"\nend ")?;
    push_number(&mut certificate, 2 * STATIONS)?;
    certificate.extend_from_slice(b"\n")?;
    Ok(certificate)
}

/// The station of a row among those of its part: among the four rows of a score they rise.
fn station_of(row: u32) -> u32
    requires { row < 2000 }
    ensures { result < 48 }
{
    4 * (row / 4 * 7 % 12) + row % 4
}

/// How many of that many rows belong to each station.
fn counts_of(rows: u32) -> [u32; 48]
    requires { rows < 2000 }
{
    let mut counts = [0u32; 48];
    for row in 0..rows {
        let station = station_of(row) as usize;
        counts[station] = counts[station].saturating_add(1);
    }
    counts
}

/// The number of a station of a part.
fn number_of(part: u32, station: u32) -> u32
    requires part { part < 9000 }
    requires station { station < 48 }
    ensures { result < 1000000 }
{
    100 * part + 2 * station
}

/// What comes after the rank of a row of that many tenths, up to 999.
fn row_of(id: &[u8; 11], date: &[u8; 10], tenths: u32) -> [u8; 62] {
    let mut row = *b" ZZZ00000000 0000-00-00 0000-00-00 00.0 C STATION OF SOME NAME";
    row[1..12].copy_from_slice(id);
    put_date(&mut row, 13, date);
    put_date(&mut row, 24, date);
    row[35] = digit(tenths / 100);
    row[36] = digit(tenths / 10);
    row[38] = digit(tenths);
    row
}

/// Puts a date into its columns.
fn put_date(row: &mut [u8; 62], from: usize, date: &[u8; 10])
    requires { from < 50 }
{
    row[from..from + 10].copy_from_slice(date);
}

/// A date, of which no two groups of rows have the same.
fn date_of(group: u32, bits: u64) -> [u8; 10]
    requires { group < 500 }
{
    let year = year_text((1890 + group % 125) as u16);
    let month = 1 + group / 125 * 3 + (bits % 3) as u32;
    let day = 1 + (bits / 4 % 28) as u32;
    [
        year[0],
        year[1],
        year[2],
        year[3],
        b'-',
        digit(month / 10),
        digit(month),
        b'-',
        digit(day / 10),
        digit(day),
    ]
}

fn push_number(text: &mut Vec<u8>, number: u32) -> Result<(), Memory> {
    let mut buffer = Buffer::new();
    text.extend_from_slice(buffer.format(number).as_bytes())?;
    Ok(())
}
