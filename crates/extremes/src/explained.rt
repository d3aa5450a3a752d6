//! What a run explains to people, by what it returns.

use crate::describe::DescriptionText;
use crate::ending::Ending;
use crate::files::{Describing, Judging, Ranking};
use crate::judgement::Judgement;
use crate::merge::MergingFault;
use crate::papers::Papers;
use crate::rank::Ranked;
use crate::table::{TableText, TablingFault};
use command_line::{Part, TableArguments};
use explanations::{ForPeople, Given};
use ghcn_series::Warnings;
use rank_input::{Archive, Fault};
use std::alloc::Global;

/// Explains what a ranking returns.
pub(crate) fn explain_ranked<A: Archive>(
    alloc: Global,
    archive: &A,
    ranking: &Ranking,
    ranked: &Ranked,
    words: &mut ForPeople,
) {
    match &ranked.answer {
        Ok(papers) => words.explain_warnings(alloc, ranked.warnings, papers.unlisted),
        Err(fault) => {
            let given = Given {
                query: ranking.query.as_str(),
                stations: ranking.stations.as_str(),
                files: ranking.files.as_slice(),
            };
            words.explain_input(alloc, archive, *fault, given);
        }
    }
}

/// Explains what a check returns.
pub(crate) fn explain_judged<A: Archive>(
    alloc: Global,
    archive: &A,
    judging: &Judging,
    judged: &Result<(Judgement, Warnings), Fault>,
    words: &mut ForPeople,
) {
    match judged {
        Ok((_, warnings)) => words.explain_warnings(alloc, *warnings, 0),
        Err(fault) => {
            let given = Given {
                query: judging.query.as_str(),
                stations: judging.stations.as_str(),
                files: judging.files.as_slice(),
            };
            words.explain_input(alloc, archive, *fault, given);
        }
    }
}

/// Explains what a description returns. It has no query.
pub(crate) fn explain_described<A: Archive>(
    alloc: Global,
    archive: &A,
    describing: &Describing,
    described: &Result<DescriptionText, Fault>,
    words: &mut ForPeople,
) {
    match described {
        Ok(text) => words.explain_warnings(alloc, text.warnings, 0),
        Err(fault) => {
            let given = Given {
                query: "",
                stations: describing.stations.as_str(),
                files: describing.files.as_slice(),
            };
            words.explain_input(alloc, archive, *fault, given);
        }
    }
}

/// Explains what a merge returns.
pub(crate) fn explain_merged(
    alloc: Global,
    query: &str,
    parts: &[Part],
    merged: &Result<Papers, MergingFault>,
    words: &mut ForPeople,
) {
    match merged {
        Ok(_) => {}
        Err(MergingFault::Query(fault)) => words.explain_query(alloc, *fault, query),
        Err(MergingFault::Parts(fault)) => words.explain_parts(alloc, *fault, parts),
    }
}

/// Explains what making a table returns. It has neither a query nor daily files.
pub(crate) fn explain_tabled<A: Archive>(
    alloc: Global,
    archive: &A,
    asked: &TableArguments,
    tabled: &Result<TableText, TablingFault>,
    words: &mut ForPeople,
) {
    match tabled {
        Ok(_) => {}
        Err(TablingFault::Stations(cause)) => {
            let stations = match &asked.stations {
                Some(path) => path.as_str(),
                None => "",
            };
            let given = Given {
                query: "",
                stations,
                files: &[],
            };
            words.explain_input(alloc, archive, Fault::from(*cause), given);
        }
        Err(TablingFault::Reports(fault)) => words.explain_table(alloc, *fault, &asked.reports),
    }
}

/// Explains that a file wasn't written whole, if a run that had read its files ends so.
pub(crate) fn explain_unwritten(alloc: Global, ending: Ending, words: &mut ForPeople) {
    if ending == Ending::File {
        words.explain_unwritten(alloc);
    }
}
