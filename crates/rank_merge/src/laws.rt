//! What is true of merged reports and certificates, as laws over the definitions.

ghost use Rattle.rank_merge.specs.Laws as laws;

use ghcn_series::data_are_right;
use rank_head::heads_are_right;
use rank_papers::{certificates_are_read, reports_are_read};
use rank_scores::files_in_parts;

/// If the report and the certificate of each part are right for the part's files, with one station list, and
/// neither this list nor all files together have an error, what is merged of them is right for all files. Its
/// bounds are those of the series if the parts' bounds are, and no station that the query admits has a series of
/// the query's element in two parts. Right reports and certificates are merged if and only if no station has a
/// series with an admitted day in two parts.
pub fn merged_are_right()
    ensures right { laws.MergedAreRight }
    ensures measured { laws.MergedAreMeasured }
    ensures merged { laws.RightAreMerged }
{
    // The best of all files are the first of the parts' best, what is read of lists and files is right,
    // and texts are read as what they say.
    files_in_parts();
    data_are_right();
    heads_are_right();
    certificates_are_read();
    reports_are_read();
}
