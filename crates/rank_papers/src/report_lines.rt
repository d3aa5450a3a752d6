//! Reading a report line by line. A line is that of the row that is cut out of it, if it is spelled so.
//!
//! After a rank of d digits a row has these columns, counted from 0:
//!
//! ```text
//! d + 1   ID           d + 24  last day
//! d + 13  first day    d + 35  value, up to a blank; then the unit, a blank and the name
//! ```

ghost use Rattle.std.specs.Prelude.{◌≡◌, ◌≤◌, ◌<◌, ◌^◌, ◌++◌, ◌∷◌, ◌==◌, [], length, map, filter, not};
ghost use Rattle.std.specs.Prelude.{nat_lt, if◌then◌else◌, Some, None, Ok, IfOk, IfErr, OnOk};
ghost use Rattle.std.specs.Option.{option_map};
ghost use Rattle.ghcn_fields.specs.Meaning.Numbers.{with_sign};
ghost use Rattle.ghcn_fields.specs.Numbers.{natural, signed_by};
ghost use Rattle.ghcn_files.specs.Ids.{is_id};
ghost use Rattle.rank_papers.specs.Lines as lines;
ghost use Rattle.rank_papers.specs.Meaning.Values.{value_of};
ghost use Rattle.rank_papers.specs.ReportLines as report;

use crate::lines::{are_printable, columns, field_from, first_line, magnitude, signed};
use crate::measure::measure_of;
use crate::query_line::query_of;
use crate::report_text::push_end;
use crate::spelling::is_line_of;
use crate::{PaperFault, Report, Row};
use ghcn_fields::{Day, Memory, read_date};
use ghcn_files::{StationId, are_visible};
use itoa::Buffer;
use memchr::memchr;
use rank_query::{Query, Score};
use rank_scores::Candidate;
use std::alloc::Global;

/// How many bytes a name has at most.
const NAME_LENGTH: usize = 30;

/// What a report says, or its first line that doesn't match the format there.
pub fn read_report(alloc: Global, bytes: &[u8]) -> Result<Report, PaperFault>
    ensures ok { IfOk result (λ r. report.read_report bytes.now ≡ Ok (report.reported_in r)) }
    ensures says { IfOk result (λ r. report.IsReportOf (report.reported_in r) bytes.now) }
    ensures all { IfOk result (λ r. r.all ≡ nat_lt (length r.rows.items) r.query.k) }
    ensures err { IfErr result (report.IsBadReport (report.read_report bytes.now)) }
{
    let Some((title, rest)) = first_line(bytes) else {
        return Err(PaperFault::BadReport { line: 1 });
    };
    if title != b"extremes report 1\n".as_slice() {
        return Err(PaperFault::BadReport { line: 1 });
    }
    read_query(alloc, &mut Vec::new(alloc), rest)
}

/// Reads on from the query's line.
fn read_query(alloc: Global, paper: &mut Vec<u8>, text: &[u8]) -> Result<Report, PaperFault>
    ensures ok { IfOk result (λ r.
        report.behind_report_title (lines.paper_lines text.now) ≡ Ok (report.reported_in r)) }
    ensures all { IfOk result (λ r. r.all ≡ nat_lt (length r.rows.items) r.query.k) }
    ensures err { IfErr result
        (report.IsBadReport (report.behind_report_title (lines.paper_lines text.now))) }
{
    let Some((line, rest)) = first_line(text) else {
        return Err(PaperFault::BadReport { line: 2 });
    };
    let Some(query) = query_of(alloc, paper, line).map_err(PaperFault::Memory)? else {
        return Err(PaperFault::BadReport { line: 2 });
    };
    let rows = read_rows(alloc, paper, &query, rest)?;
    let all = (rows.len() as u64) < query.k();
    Ok(Report { query, rows, all })
}

/// The rows, up to an end line with their number.
fn read_rows(
    alloc: Global,
    paper: &mut Vec<u8>,
    query: &Query,
    text: &[u8],
) -> Result<Vec<Row>, PaperFault>
    ensures ok { IfOk result (λ rows.
        report.rows_in query.now 0 (lines.paper_lines text.now) ≡ Ok (map report.named_in rows.items)) }
    ensures err { IfErr result
        (report.IsBadReport (report.rows_in query.now 0 (lines.paper_lines text.now))) }
{
    let mut found = Vec::new(alloc);
    let mut rest = text;
    while let Some((line, behind)) = first_line(rest) {
        match row_behind(alloc, paper, query, found.len() as u64, line) {
            Ok(Some(row)) => add(&mut found, row).map_err(PaperFault::Memory)?,
            Ok(None) => {
                read_end(paper, query, found.len() as u64, line, behind)?;
                return Ok(found);
            }
            Err(memory) => return Err(PaperFault::Memory(memory)),
        }
        rest = behind;
    }
    Err(PaperFault::BadReport {
        line: found.len() as u64 + 3,
    })
}

fn add(rows: &mut Vec<Row>, row: Row) -> Result<(), Memory>
    ensures { OnOk result (rows.new.items ≡ rows.old.items ++ row ∷ []) }
{
    rows.push(row)?;
    Ok(())
}

/// Reads the end line of that many rows, after which nothing may come.
fn read_end(
    paper: &mut Vec<u8>,
    query: &Query,
    rows: u64,
    line: &[u8],
    behind: &[u8],
) -> Result<(), PaperFault>
    requires { rows < 2 ^ 63 }
    ensures ok { OnOk result (report.ending_of_rows query.now rows line.now behind.now ≡ Ok []) }
    ensures err { IfErr result
        (report.IsBadReport (report.ending_of_rows query.now rows line.now behind.now)) }
{
    paper.clear();
    push_end(paper, query.k(), rows).map_err(PaperFault::Memory)?;
    if line != paper.as_slice() {
        return Err(PaperFault::BadReport { line: rows + 3 });
    }
    if !behind.is_empty() {
        return Err(PaperFault::BadReport { line: rows + 4 });
    }
    Ok(())
}

/// The row after that many others whose line this is, if there may be one more.
fn row_behind(
    alloc: Global,
    paper: &mut Vec<u8>,
    query: &Query,
    before: u64,
    line: &[u8],
) -> Result<Option<Row>, Memory>
    ensures { IfOk result (λ row. option_map report.named_in row ≡ report.row_behind query.now before line.now) }
{
    if before < query.k() {
        row_of(alloc, paper, query, before + 1, line)
    } else {
        Ok(None)
    }
}

/// The row whose line with this rank this is.
fn row_of(
    alloc: Global,
    paper: &mut Vec<u8>,
    query: &Query,
    rank: u64,
    line: &[u8],
) -> Result<Option<Row>, Memory>
    ensures { IfOk result (λ row. option_map report.named_in row ≡ report.row_in query.now rank line.now) }
{
    let mut buffer = Buffer::new();
    let text = buffer.format(rank).as_bytes();
    let Some(row) = row_in_columns(alloc, paper, query, text.len(), line)? else {
        return Ok(None);
    };
    if !is_line_of(paper, query, text, &row, line)? {
        return Ok(None);
    }
    Ok(Some(row))
}

/// The row in the columns after a rank of that many digits.
fn row_in_columns(
    alloc: Global,
    paper: &mut Vec<u8>,
    query: &Query,
    digits: usize,
    line: &[u8],
) -> Result<Option<Row>, Memory>
    requires { digits ≤ 40 }
    ensures { IfOk result (λ row.
        option_map report.named_in row ≡ report.row_in_columns query.now digits line.now) }
{
    let value = first_word(field_from(line, digits + 35));
    let Some(score) = score_in(paper, query, value)? else {
        return Ok(None);
    };
    let id = columns(line, digits + 1, digits + 12);
    let first = read_date(columns(line, digits + 13, digits + 23));
    let last = read_date(columns(line, digits + 24, digits + 34));
    let unit = measure_of(query.score()).unit();
    let name = field_from(line, digits + value.len() + unit.len() + 37);
    row_with(alloc, id, name, first, last, score)
}

/// A row of these, if each is there, the ID is visible and the name can be.
fn row_with(
    alloc: Global,
    id: &[u8],
    name: &[u8],
    first: Option<Day>,
    last: Option<Day>,
    score: i64,
) -> Result<Option<Row>, Memory>
    ensures { IfOk result (λ row.
        option_map report.named_in row ≡ report.row_with id.now name.now first last (Some score)) }
{
    let (Some(id), Some(first), Some(last)) = (id_of(id), first, last) else {
        return Ok(None);
    };
    if !is_name(name) {
        return Ok(None);
    }
    Ok(Some(Row {
        candidate: Candidate {
            id,
            first,
            last,
            score,
        },
        name: Vec::from_slice(alloc, name)?,
    }))
}

/// The ID of these bytes, if they are eleven that show in print.
fn id_of(bytes: &[u8]) -> Option<StationId>
    ensures { result ≡ (if is_id bytes.now then Some (record { 0 = bytes.now }) else None) }
{
    match <[u8; 11]>::try_from(bytes) {
        Ok(id) if are_visible(bytes) => Some(StationId(id)),
        _ => None,
    }
}

/// What comes before the first blank.
pub(crate) fn first_word(text: &[u8]) -> &[u8]
    ensures { result.now ≡ report.first_word text.now }
{
    match memchr(b' ', text) {
        None => text,
        Some(end) => &text[..end],
    }
}

/// At most thirty bytes that can be printed, of which the last isn't a blank.
fn is_name(name: &[u8]) -> bool
    ensures { result ≡ report.is_name name.now }
{
    name.len() <= NAME_LENGTH && are_printable(name) && ends_in_print(name)
}

/// Whether the last byte, if there is one, isn't a blank.
fn ends_in_print(name: &[u8]) -> bool
    ensures { result ≡ report.ends_in_print name.now }
{
    match name.last() {
        None => true,
        Some(last) => *last != b' ',
    }
}

/// The score of a printed value: its digits without the point, and its sign.
fn score_in(paper: &mut Vec<u8>, query: &Query, field: &[u8]) -> Result<Option<i64>, Memory>
    ensures { IfOk result (λ score. score ≡ report.score_in query.now field.now) }
{
    copy_without_point(paper, field)?;
    Ok(score_of_digits(query.score(), paper))
}

/// Copies a field without its points into `paper`.
fn copy_without_point(paper: &mut Vec<u8>, field: &[u8]) -> Result<(), Memory>
    ensures { OnOk result (paper.new.items ≡ filter (λ b. not (b == 46)) field.now) }
{
    paper.clear();
    for byte in field {
        if *byte != b'.' {
            paper.push(*byte)?;
        }
    }
    Ok(())
}

/// The score of the value that digits write after an optional minus.
fn score_of_digits(score: Score, text: &[u8]) -> Option<i64>
    ensures { result ≡ lines.in_i64 (option_map (value_of score) (signed_by natural text.now)) }
{
    let (is_negative, digits) = match text {
        [b'-', digits @ ..] => (true, digits),
        digits => (false, digits),
    };
    score_of(score, is_negative, magnitude(digits)?)
}

/// The score of the value of a sign and a magnitude. A score of the lowest is the negated value.
fn score_of(score: Score, is_negative: bool, magnitude: u64) -> Option<i64>
    requires { magnitude ≤ 2 ^ 63 }
    ensures { result ≡ lines.in_i64 (Some (value_of score (with_sign is_negative magnitude))) }
{
    match score {
        Score::Lowest(_) => signed(!is_negative, magnitude),
        _ => signed(is_negative, magnitude),
    }
}
