//! What a verdict guarantees, as a law over the definitions.

ghost use Rattle.rank_check.specs.Laws as laws;

use rank_papers::{certificates_are_read, reports_are_read};
use rank_scores::{candidates_of_queries, one_element_is_enough};

/// A report and a certificate are accepted if and only if the report is the right one, and the certificate a right one.
pub fn accepted_where_right()
    ensures { laws.AcceptedWhereRight }
{
    // A right report and a right certificate are read, and the rows are those of the candidates.
    candidates_of_queries();
    certificates_are_read();
    reports_are_read();
}

/// A verdict doesn't depend on series of other elements than the query's: it is the same if
/// these are left out of the data.
pub fn verdict_of_one_element()
    ensures { laws.VerdictStays }
{
    // Each definition that a verdict rests on stays.
    one_element_is_enough();
}
