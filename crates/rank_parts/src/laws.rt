//! What the verdicts of all parts guarantee, and what those of all pieces do, as laws over the definitions.

ghost use Rattle.rank_parts.specs.InPieces as pieces;
ghost use Rattle.rank_parts.specs.Laws as laws;

use ghcn_series::data_are_right;
use rank_check::accepted_where_right;
use rank_head::heads_are_right;
use rank_papers::{certificates_are_read, reports_are_read};
use rank_scores::{candidates_of_queries, files_in_parts, one_element_is_enough};

/// A report and a certificate of version 2 say what is right if and only if the head is right, each line is
/// accepted by itself, and each listed station without a line is accepted by itself. The pieces may be checked in
/// any order. So `check` of `rank_check` accepts the two if and only if their pieces are accepted.
pub fn right_in_pieces()
    ensures says { pieces.RightInPieces }
    ensures accepted { pieces.AcceptedInPieces }
{
    // What is accepted is right, and what is right can be cut into pieces.
    accepted_where_right();
    candidates_of_queries();
    certificates_are_read();
    reports_are_read();
}

/// A report and a certificate are right for all data if and only if each part accepts them, and the numbers of the
/// parts' series add up to the number of the lines. This is so for data that a query sees as cut into these parts,
/// and for files if no station has a series with an admitted day in two parts.
pub fn parts_make_the_whole()
    ensures data { laws.PartsMakeTheWhole }
    ensures files { laws.FilesMakeTheWhole }
{
    // Texts are accepted in pieces, a part's data have the pieces of its series, and what is read is right.
    certificates_are_read();
    reports_are_read();
    heads_are_right();
    right_in_pieces();
    files_in_parts();
    data_are_right();
}

/// The verdict of a part doesn't depend on series of other elements than the query's: it is the same if these
/// are left out of the part's data.
pub fn part_verdict_of_one_element()
    ensures { laws.PartVerdictStays }
{
    // Each definition that a verdict rests on stays.
    one_element_is_enough();
}
