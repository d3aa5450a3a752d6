//! What is true of the head of a report and a certificate, as laws over the definitions.

ghost use Rattle.rank_head.specs.RightHead as right;

use rank_papers::certificates_are_read;

/// No test of a head fails if and only if the head is right: both texts have the query, the rows are in order, the
/// k-th score is that of the rows, the IDs of the lines rise, each row belongs to a line that was scanned, and
/// the counts are those of the rows. Queries that can be asked are the same if their canonical texts are the same.
/// In version 2 the counts of a right head add up to the number of rows.
pub fn heads_are_right()
    ensures right { right.HeadsAreRight }
    ensures queries { right.OneQuery }
    ensures sums { right.CountsAddUp }
{
    // The k-th score of rows in order is that of the last.
    certificates_are_read();
}
