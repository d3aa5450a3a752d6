//! What ranking, checking and merging imply for each other, as laws over their contracts.

ghost use Rattle.extremes.specs.Answer.{ReportsAreOne};
ghost use Rattle.extremes.specs.Judged.{AnswersAreAccepted};
ghost use Rattle.extremes.specs.JudgedInParts.{PartsJudgeTheWhole};
ghost use Rattle.extremes.specs.RankedInParts.{MergedIsRanked};

use ghcn_series::data_are_right;
use rank_papers::{papers_are_found, papers_are_said};
use rank_parts::parts_make_the_whole;

/// The report and the certificate that a ranking returns are accepted if they are checked against the
/// same texts.
pub fn answers_are_accepted()
    ensures { AnswersAreAccepted }
{}

/// Any two rankings of the same texts return the same report, byte for byte, and count the same lines of unlisted
/// stations.
pub fn reports_are_one()
    ensures { ReportsAreOne }
{
    // There is only one list of the best.
    papers_are_found();
}

/// If each part has what a ranking returns for its files, with one station list and one query,
/// which each may spell in its own way, what is merged of them has the report that a ranking
/// returns for all files, byte for byte, and a certificate that is right for all files.
pub fn merged_is_ranked()
    ensures { MergedIsRanked }
{
    // What is right for data is right for what lines say, as parts and their merging say it.
    data_are_right();
    papers_are_found();
    papers_are_said();
}

/// A report is the right one and a certificate a right one for the files of all parts, one part after
/// the other, if and only if each part accepts them and the numbers of the parts' series add up to that
/// of the certificate's lines. This is so if there is a part, the files have no error together, and no
/// station has an admitted day in two parts. Each part may spell the query in its own way.
pub fn parts_judge_the_whole()
    ensures { PartsJudgeTheWhole }
{
    // The law of data, of which is known what is right for them.
    data_are_right();
    papers_are_found();
    papers_are_said();
    parts_make_the_whole();
}
