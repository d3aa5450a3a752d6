//! Errors of reports that become a table.

ghost use Rattle.std.specs.Prelude.{◌≡◌, ◌++◌};
ghost use Rattle.explanations.specs.Inputs.{file_path};
ghost use Rattle.explanations.specs.Tables.{table_text};
ghost use Rattle.explanations.specs.Texts.{Says, place_text};

use crate::explanation::Explanation;
use crate::input::numbered_file;
use crate::notice::NO_MEMORY;
use rank_table::TableFault;

/// An error of files of reports in words; the files are named by their paths.
pub fn of_table(fault: TableFault, reports: &[String]) -> Explanation<'_>
    ensures { Says result (table_text fault reports.now) }
{
    match fault {
        TableFault::BadReport { file, line } => {
            at(reports, file, line, "no report has such a line there")
        }
        TableFault::NotListed { file, line } => {
            at(reports, file, line, "its station isn't in the station list")
        }
        TableFault::Memory(_) => Explanation::Plain(NO_MEMORY),
    }
}

/// What is wrong with a line of the file of this number, from 1.
fn at<'a>(reports: &'a [String], file: u64, line: u64, says: &'static str) -> Explanation<'a>
    ensures { Says result (place_text (file_path reports.now file) line ++ says.now) }
{
    let path = numbered_file(reports, file);
    Explanation::At { path, line, says }
}
