//! Whether a line is spelled as the row that was cut out of it. ID and days are columns of the line, so they
//! aren't compared: the rank in front of them, the blanks, and what comes after them are.

ghost use Rattle.std.specs.Prelude.{◌≡◌, ℕ, ◌≤◌, ◌<◌, ◌+◌, ◌^◌, Some, length, decimal, IfOk};
ghost use Rattle.ghcn_fields.specs.Meaning.Bytes.{same_bytes};
ghost use Rattle.rank_papers.specs.ReportLines as report;
ghost use Rattle.rank_papers.specs.Spelled as spelled;

use crate::Row;
use crate::lines::columns;
use crate::measure::measure_of;
use crate::number::push_value;
use ghcn_fields::Memory;
use rank_query::Query;

/// Whether a line is that of the row which was cut out of it, after a rank of this text.
pub(crate) fn is_line_of(
    paper: &mut Vec<u8>,
    query: &Query,
    rank: &[u8],
    row: &Row,
    line: &[u8],
) -> Result<bool, Memory>
    requires digits { length rank.now ≤ 40 }
    requires cut { Some (report.named_in row.now) ≡ report.row_in_columns query.now (length rank.now) line.now }
    ensures { IfOk result (λ same. (n : ℕ) → rank.now ≡ decimal n
        → same ≡ same_bytes (report.row_line query.now n (report.named_in row.now)) line.now) }
{
    if !has_front(rank, line) {
        return Ok(false);
    }
    paper.clear();
    push_value(paper, query.score(), row.candidate.score)?;
    let unit = measure_of(query.score()).unit();
    Ok(has_back(paper.as_slice(), unit, &row.name, line, rank.len() + 35))
}

/// Whether a blank is at a place of a line.
fn has_blank(line: &[u8], at: usize) -> bool
    ensures { result ≡ spelled.has_blank line.now at }
{
    match line.get(at) {
        Some(byte) => *byte == b' ',
        None => false,
    }
}

/// Whether a line has a text from a place on.
fn has_text(text: &[u8], line: &[u8], from: usize) -> bool
    requires { from + length text.now < 2 ^ 64 }
    ensures { result ≡ spelled.has_text text.now line.now from }
{
    text == columns(line, from, from + text.len())
}

/// Whether a line begins with a rank, and has a blank after it, before both days and after the last.
fn has_front(rank: &[u8], line: &[u8]) -> bool
    requires { length rank.now < 64 }
    ensures { result ≡ spelled.has_front rank.now line.now }
{
    let digits = rank.len();
    has_text(rank, line, 0)
        && has_blank(line, digits)
        && has_blank(line, digits + 12)
        && has_blank(line, digits + 23)
        && has_blank(line, digits + 34)
}

/// Whether a line feed is what a line has from a place on.
fn ends_at(line: &[u8], from: usize) -> bool
    ensures { result ≡ spelled.ends_at line.now from }
{
    from < line.len() && &line[from..] == b"\n".as_slice()
}

/// Whether a line has a blank and a name, if it isn't empty, from a place on, and then ends.
fn ends_by_name(name: &[u8], line: &[u8], from: usize) -> bool
    requires { from + length name.now + 1 < 2 ^ 64 }
    ensures { result ≡ spelled.ends_by_name name.now line.now from }
{
    match name {
        [] => ends_at(line, from),
        text => {
            has_blank(line, from)
                && has_text(text, line, from + 1)
                && ends_at(line, from + 1 + text.len())
        }
    }
}

/// Whether a line has a value, a blank, a unit, and a name from a place on, and then ends.
fn has_back(value: &[u8], unit: &[u8], name: &[u8], line: &[u8], from: usize) -> bool
    requires { from + length value.now + length unit.now + length name.now + 2 < 2 ^ 64 }
    ensures { result ≡ spelled.has_back value.now unit.now name.now line.now from }
{
    let behind = from + value.len() + 1;
    has_text(value, line, from)
        && has_blank(line, behind - 1)
        && has_text(unit, line, behind)
        && ends_by_name(name, line, behind + unit.len())
}
