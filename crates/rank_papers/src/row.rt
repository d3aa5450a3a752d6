//! One row of a report: `RANK ID FIRST LAST VALUE UNIT NAME`. A row without a name ends after UNIT.

ghost use Rattle.std.specs.Prelude.{◌≡◌, [], ◌∷◌, ◌++◌, OnOk};
ghost use Rattle.std.specs.List.{flat_map};
ghost use Rattle.rank_papers.specs.Meaning.Values as values;
ghost use Rattle.rank_papers.specs.Report.{after_blank};
ghost use Rattle.rank_papers.specs.Meaning.Report as report;

use crate::measure::unit_of;
use crate::number::{push_number, push_value};
use ghcn_fields::{Memory, write_date};
use ghcn_files::Station;
use rank_query::{Query, Score};
use rank_scores::Candidate;

/// Adds the line of a candidate with its rank, from 1, and its station's name.
pub(crate) fn push_row(
    paper: &mut Vec<u8>,
    query: &Query,
    rank: u64,
    candidate: &Candidate,
    station: &Station,
) -> Result<(), Memory>
    ensures { OnOk result (paper.new.items ≡ paper.old.items
        ++ report.text_line (report.row_fields query.now (rank, (candidate.now, report.trimmed station.now.name)))) }
{
    push_named(paper, query, rank, candidate, trimmed(&station.name))
}

/// Adds the line of a candidate with its rank and a name, which may be empty.
pub(crate) fn push_named(
    paper: &mut Vec<u8>,
    query: &Query,
    rank: u64,
    candidate: &Candidate,
    name: &[u8],
) -> Result<(), Memory>
    ensures { OnOk result (paper.new.items ≡ paper.old.items
        ++ report.text_line (report.row_fields query.now (rank, (candidate.now, name.now)))) }
{
    push_number(paper, rank)?;
    push_field(paper, &candidate.id.0)?;
    push_field(paper, &write_date(candidate.first))?;
    push_field(paper, &write_date(candidate.last))?;
    push_value_and_unit(paper, query.score(), candidate.score)?;
    push_name(paper, name)?;
    paper.push(b'\n')?;
    Ok(())
}

/// Adds a blank and a field.
pub(crate) fn push_field(paper: &mut Vec<u8>, field: &[u8]) -> Result<(), Memory>
    ensures { OnOk result (paper.new.items ≡ paper.old.items ++ after_blank field.now) }
{
    paper.push(b' ')?;
    paper.extend_from_slice(field)?;
    Ok(())
}

/// Adds a blank and the value of a score, and a blank and its unit.
fn push_value_and_unit(paper: &mut Vec<u8>, score: Score, number: i64) -> Result<(), Memory>
    ensures { OnOk result (paper.new.items ≡ paper.old.items
        ++ flat_map after_blank (values.value_text (values.measure_of_score score) (values.value_of score number)
        ∷ values.unit_text (values.measure_of_score score) ∷ [])) }
{
    paper.push(b' ')?;
    push_value(paper, score, number)?;
    push_field(paper, unit_of(score))
}

/// Adds a blank and a name, if that isn't empty.
fn push_name(paper: &mut Vec<u8>, name: &[u8]) -> Result<(), Memory>
    ensures { OnOk result (paper.new.items ≡ paper.old.items
        ++ flat_map after_blank (report.field_unless_empty name.now)) }
{
    match name {
        [] => Ok(()),
        text => push_field(paper, text),
    }
}

/// A text without the blanks at its end.
pub fn trimmed(text: &[u8]) -> &[u8]
    ensures { result.now ≡ report.trimmed text.now }
{
    let mut rest = text;
    while let [front @ .., b' '] = rest {
        rest = front;
    }
    rest
}
