//! What a run over a list of queries explains to people.

use crate::each::RankedEach;
use crate::each_files::EachRanking;
use crate::papers_folder::Stop;
use explanations::{ForPeople, Given};
use ghcn_fields::lines;
use rank_input::{Archive, Fault, QueriesFault};
use std::alloc::Global;
use std::str;

/// Explains what the rankings of some queries return.
pub(crate) fn explain_each<A: Archive>(
    alloc: Global,
    archive: &A,
    ranking: &EachRanking,
    ranked: &RankedEach,
    words: &mut ForPeople,
) {
    match &ranked.reports {
        Ok(_) => words.explain_warnings(alloc, ranked.warnings, ranked.unlisted),
        Err(Stop::Input(fault)) => explain_options(alloc, archive, ranking, *fault, words),
        Err(Stop::NotWritten(_)) => {}
    }
}

/// Explains an error of the options or of the files. It isn't one of a query.
pub(crate) fn explain_options<A: Archive>(
    alloc: Global,
    archive: &A,
    ranking: &EachRanking,
    fault: Fault,
    words: &mut ForPeople,
) {
    let given = Given {
        query: "",
        stations: ranking.stations.as_str(),
        files: ranking.files.as_slice(),
    };
    words.explain_input(alloc, archive, fault, given);
}

/// Explains why a list of queries is refused, by the line that is wrong.
pub(crate) fn explain_list<A: Archive>(
    alloc: Global,
    archive: &A,
    path: &str,
    text: &[u8],
    fault: QueriesFault,
    words: &mut ForPeople,
) {
    match fault {
        QueriesFault::Line { line, fault } => {
            words.explain_query(alloc, fault, query_at(text, line));
        }
        QueriesFault::NotText(_) => words.explain_not_text(alloc, path),
        QueriesFault::Memory(memory) => {
            let given = Given {
                query: "",
                stations: "",
                files: &[],
            };
            words.explain_input(alloc, archive, Fault::Memory(memory), given);
        }
    }
}

/// The line of this number of a list, from 1; nothing if there is no such line, or if it isn't text.
fn query_at(text: &[u8], number: u64) -> &str {
    for (at, line) in lines(text) {
        if at == number {
            return str::from_utf8(line).unwrap_or("");
        }
    }
    ""
}
