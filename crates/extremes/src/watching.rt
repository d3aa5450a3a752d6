//! Reading the files of a run while a terminal shows how far it has come, if that is asked for.

ghost use Rattle.std.specs.Prelude.{IfErr, IfOk};
ghost use Rattle.rank_input.specs.Feeding.{StopsAt};
ghost use Rattle.extremes.specs.Describes.{DescribesFiles, describing_paths};
ghost use Rattle.extremes.specs.Runs.{JudgesFiles, RanksFiles, judging_paths, ranking_paths};

use crate::describe::DescriptionText;
use crate::files::{Describing, Judging, Ranking, describe_files, judge_files, rank_files};
use crate::judgement::Judgement;
use crate::rank::Ranked;
use ghcn_series::Warnings;
use progress::{Watch, Watched};
use rank_input::{Archive, Fault};
use std::sync::Wait;
use std::thread::Threads;
use std::time::Clock;

/// Ranks files, or returns the path of the first that can't be read.
pub(crate) fn rank_watched<
    'p,
    R: Threads + Wait + AllocGlobal + Clock + Eprint + Sync,
    A: Archive<File: Send> + Sync,
>(rt: &R, archive: &A, ranking: &'p Ranking, shows: bool) -> Result<Ranked, &'p str>
    ensures ranks { IfOk result (λ ranked.
        RanksFiles (A.bytes_of archive.now) (A.opens archive.now) ranking.now ranked.answer ranked.warnings) }
    ensures stopped { IfErr result (λ path. StopsAt (A.opens archive.now) (ranking_paths ranking.now) path.now) }
{
    let first = [ranking.stations.as_str()];
    let watch = Watch::new(rt, shows, archive, &first, &ranking.files);
    let watched = Watched {
        archive,
        watch: &watch,
    };
    let ranked = rank_files(rt, &watched, ranking);
    watch.end();
    ranked
}

/// Checks a report and a certificate, or returns the path of the first file that can't be read.
pub(crate) fn judge_watched<
    'p,
    R: Threads + AllocGlobal + Clock + Eprint + Sync,
    A: Archive<File: Send> + Sync,
>(
    rt: &R,
    archive: &A,
    judging: &'p Judging,
    shows: bool,
) -> Result<Result<(Judgement, Warnings), Fault>, &'p str>
    ensures judges { IfOk result (JudgesFiles (A.bytes_of archive.now) (A.opens archive.now) judging.now) }
    ensures stopped { IfErr result (λ path. StopsAt (A.opens archive.now) (judging_paths judging.now) path.now) }
{
    let papers = &judging.papers;
    let first = [
        judging.stations.as_str(),
        papers.report.as_str(),
        papers.certificate.as_str(),
    ];
    let watch = Watch::new(rt, shows, archive, &first, &judging.files);
    let watched = Watched {
        archive,
        watch: &watch,
    };
    let judged = judge_files(rt, &watched, judging);
    watch.end();
    judged
}

/// Describes files, or returns the path of the first that can't be read.
pub(crate) fn describe_watched<
    'p,
    R: Threads + AllocGlobal + Clock + Eprint + Sync,
    A: Archive<File: Send> + Sync,
>(
    rt: &R,
    archive: &A,
    describing: &'p Describing,
    shows: bool,
) -> Result<Result<DescriptionText, Fault>, &'p str>
    ensures describes { IfOk result (DescribesFiles (A.bytes_of archive.now) (A.opens archive.now) describing.now) }
    ensures stopped { IfErr result (λ path. StopsAt (A.opens archive.now) (describing_paths describing.now) path.now) }
{
    let first = [describing.stations.as_str()];
    let watch = Watch::new(rt, shows, archive, &first, &describing.files);
    let watched = Watched {
        archive,
        watch: &watch,
    };
    let described = describe_files(rt, &watched, describing);
    watch.end();
    described
}
