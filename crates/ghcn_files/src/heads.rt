//! Months of daily values, read line by line. Most lines of a file begin as the line before: the ID, the year and the
//! month are read once then, and compared.

ghost use Rattle.std.specs.Prelude.{◌≡◌, ◌≤◌, length, take, drop, true, false, None, Some, IfErr, OnOk};
ghost use Rattle.ghcn_files.specs.Heads.{KnowsHead, HasHead, BeginsWith};
ghost use Rattle.ghcn_files.specs.Months as months;
ghost use Rattle.ghcn_files.specs.Rows as rows;

use crate::month::{COLUMNS, LEAST_COLUMNS, UP_TO_ELEMENT, head_of};
use crate::row::put_days;
use crate::{Element, Keep, LineWhy, MonthRow, StationId};
use ghcn_fields::days_in_month;
use std::simd::prelude::*;

/// The columns before the element: the ID, the year and the month.
const FRONT: usize = 17;

/// Reads the lines of daily files one after another, each into one row.
#[derive(Drop)]
pub struct MonthReader {
    /// Whether the row has the ID, the year and the month of lines that begin with the columns.
    is_known: bool,
    columns: [u8; FRONT],
    /// How many days the row's month has.
    days: u8,
    row: MonthRow,
    ghost knows: { is_known ≡ true → KnowsHead columns days row },
}

impl MonthReader {
    /// No line read yet.
    pub fn new() -> Self
        ensures { result.is_known ≡ false }
    {
        MonthReader {
            is_known: false,
            columns: [b' '; FRONT],
            days: 0,
            row: MonthRow {
                id: StationId([b' '; 11]),
                element: Element::Prcp,
                year: 1,
                month: 1,
                word: 0,
                values: [0; 32],
            },
        }
    }

    /// The row of the line that was read last, if that line belongs to one of the elements and has no error.
    /// Otherwise no clause says what it is. As the code is, it is this:
    ///
    /// - Before the first line it belongs to no line. Its ID is blanks, its month is January of the year 1, and it
    ///   has no days.
    /// - After a line of another element it is the row from before that line.
    /// - After an error it is the row from before that line. If the error is a bad value, it has the line's ID,
    ///   element, year and month already, beside the days from before.
    pub fn row(&self) -> &MonthRow
        ensures { result.now ≡ self.now.row }
    {
        &self.row
    }

    /// Reads a line as `read_days` does, into the reader's row. Returns whether the line belongs to one of the
    /// elements, or the first test that it fails; if it doesn't belong to one, and if it fails, nothing is known of
    /// the row.
    #[inline(always)]
    pub fn read(&mut self, line: &[u8], asked: Keep) -> Result<bool, LineWhy>
        ensures { rows.IsReadInto asked line.now self.new.row result }
    {
        if line.len() < UP_TO_ELEMENT {
            return Err(LineWhy::Short);
        }
        match Element::of_code(&line[17..21]) {
            None => Ok(false),
            Some(element) => {
                self.fill(element, element.is_kept(asked), line)?;
                Ok(true)
            }
        }
    }

    /// Reads a line of this element into the row, with its days if they are kept.
    #[inline(always)]
    fn fill(&mut self, element: Element, kept: bool, line: &[u8]) -> Result<(), LineWhy>
        ensures err { IfErr result (λ why. months.month_why line.now ≡ Some why) }
        ensures fine { OnOk result (months.month_why line.now ≡ None) }
        ensures row { OnOk result (rows.IsRowOf kept (months.month_of element line.now) self.new.row) }
    {
        self.find_head(line)?;
        self.row.element = element;
        self.row.word = put_days(kept, element, self.days, line, &mut self.row.values)?;
        Ok(())
    }

    /// Makes sure that the row has the ID, the year and the month of a line of one of the elements.
    #[inline(always)]
    fn find_head(&mut self, line: &[u8]) -> Result<(), LineWhy>
        ensures head { OnOk result (HasHead line.now self.new.days self.new.row) }
        ensures err { IfErr result (λ why. months.head_why line.now ≡ Some why) }
    {
        if self.knows(line) {
            return Ok(());
        }
        self.learn(line)
    }

    /// Whether a line begins with the columns, and has neither too few nor more.
    #[inline(always)]
    fn knows(&self, line: &[u8]) -> bool
        ensures { result ≡ true → HasHead line.now self.now.days self.now.row }
    {
        if !self.is_known {
            return false;
        }
        match line.first_chunk() {
            Some(front) => is_of_length(line) && are_same(&self.columns, front),
            None => false,
        }
    }

    /// Reads what a line of one of the elements says before its first value, and keeps it for the lines that begin as
    /// this one.
    #[inline(never)]
    fn learn(&mut self, line: &[u8]) -> Result<(), LineWhy>
        ensures head { OnOk result (HasHead line.now self.new.days self.new.row) }
        ensures err { IfErr result (λ why. months.head_why line.now ≡ Some why) }
    {
        let head = head_of(line)?;
        let Some(front) = line.first_chunk() else {
            unreachable!()
        };
        self.is_known = true;
        self.columns = *front;
        self.days = days_in_month(head.year, head.month);
        self.row.id = head.id;
        self.row.year = head.year;
        self.row.month = head.month;
        Ok(())
    }
}

/// Whether a line is as long as a line has to be, and no longer.
#[inline(always)]
fn is_of_length(line: &[u8]) -> bool
    ensures long { result ≡ true → 266 ≤ length line.now }
    ensures short { result ≡ true → length line.now ≤ 269 }
{
    LEAST_COLUMNS <= line.len() && line.len() <= COLUMNS
}

/// Whether both are the same, sixteen columns by SIMD.
#[inline(always)]
fn are_same(columns: &[u8; FRONT], front: &[u8; FRONT]) -> bool
    ensures { result ≡ true → columns.now ≡ front.now }
{
    let (known, lanes) = (u8x16::from_slice(columns), u8x16::from_slice(front));
    has_same_lanes(known, lanes) && columns[FRONT - 1] == front[FRONT - 1]
}

/// Whether both have the same lanes.
#[inline(always)]
fn has_same_lanes(known: u8x16, lanes: u8x16) -> bool
    requires known { length known ≡ 16 }
    requires lanes { length lanes ≡ 16 }
    ensures { result ≡ true → known ≡ lanes }
{
    known.simd_eq(lanes).all()
}
