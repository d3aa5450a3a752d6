//! What tables of reports are worth, as laws over the definitions.

ghost use Rattle.rank_table.specs.Laws as laws;

use rank_papers::reports_are_read;

/// Texts are read as reports if and only if they are the texts of these reports, one after the other, and other texts
/// are refused at their first bad line. Each row is on the line of the file where it is said to be.
pub fn texts_of_reports_are_read()
    ensures read { laws.ReportsAreRead }
    ensures wrong { laws.TextsGoWrong }
    ensures there { laws.RowsAreThere }
{
    // One report is read so.
    reports_are_read();
}

/// A table, read back as comma-separated values, has the query, the line and the station's place of each row, in their
/// order.
pub fn tables_are_read_back()
    ensures { laws.TablesAreReadBack }
{}

/// Rows are refused if and only if the station of one of them isn't listed, at the first such row.
pub fn unlisted_rows_are_refused()
    ensures { laws.UnlistedRowsAreRefused }
{}
