//! What a check of a list of queries explains to people.

use crate::checked_papers::JudgingStop;
use crate::judge_each::Verdicts;
use crate::judge_each_files::EachJudging;
use explanations::{ForPeople, Given};
use ghcn_series::Warnings;
use rank_input::Archive;
use std::alloc::Global;

/// Explains what the checks of a list of queries return.
pub(crate) fn explain_judged_each<A: Archive>(
    alloc: Global,
    archive: &A,
    judging: &EachJudging,
    judged: &Result<(Verdicts, Warnings), JudgingStop>,
    words: &mut ForPeople,
) {
    match judged {
        Ok((_, warnings)) => words.explain_warnings(alloc, *warnings, 0),
        Err(stop) => explain_stop(alloc, archive, judging, stop, words),
    }
}

/// Explains why the checks of a list of queries stop.
pub(crate) fn explain_stop<A: Archive>(
    alloc: Global,
    archive: &A,
    judging: &EachJudging,
    stop: &JudgingStop,
    words: &mut ForPeople,
) {
    match stop {
        JudgingStop::Input(fault) => {
            let given = Given {
                query: "",
                stations: judging.stations.as_str(),
                files: judging.files.as_slice(),
            };
            words.explain_input(alloc, archive, *fault, given);
        }
        JudgingStop::NotRead(path) => words.explain_unread(alloc, archive, path),
    }
}
